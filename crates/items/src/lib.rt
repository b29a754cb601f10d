// The data of a message unit: how many items follow a header. `Parameters` of tree/mod.rs of the original.
#![tactic(auto)]

ghost use Rattle.std.specs.Prelude.{◌≡◌, false, get_or};
ghost use Rattle.tokenizer.specs.Step.{state_of};
ghost use Rattle.items.specs.Items.{Items};
ghost use Rattle.items.specs.Internal.{begins_number, begins_data, ItemAt, newline_data};

use error::ErrorCode;
use item::Read;
use tokenizer::{Answer, State};

// How many items a unit has, and the place after what ended them.
#[derive(Clone, Copy)]
pub struct Data {
    pub count: usize,
    pub place: usize,
}

// Counts the items of data from a place after the header separator on: none, or items with single commas between them.
pub fn count(s: &[u8], first: usize) -> Result<Data, ErrorCode>
    ensures { Items s.now (state_of first false false) result }
{
    if s.len() <= first {
        return Ok(Data {
            count: 0,
            place: first,
        });
    }
    if s[first] == b';' {
        return Ok(Data {
            count: 0,
            place: util::skip_ws(s, first + 1),
        });
    }
    if s[first] == b'\n' {
        return at_newline(s, first + 1);
    }
    let mut count = 0;
    let mut place = first;
    loop {
        let (_, next) = read_item(s, place)?;
        count += 1;
        if s.len() <= next {
            return Ok(Data { count, place: next });
        }
        if s[next] == b';' {
            return Ok(Data {
                count,
                place: util::skip_ws(s, next + 1),
            });
        }
        place = separator::comma(s, next + 1, false)?;
    }
}

// At a newline there are no items: it ends the text, or it is refused.
fn at_newline(s: &[u8], next: usize) -> Result<Data, ErrorCode>
    ensures { result ≡ newline_data s.now next }
{
    Ok(Data {
        count: 0,
        place: separator::newline(s, next)?,
    })
}

// The item of data at a place, by the byte that it begins with.
fn read_item(s: &[u8], at: usize) -> Read
    ensures { ItemAt s.now at result }
{
    if s.len() <= at {
        return Err(ErrorCode::SyntaxError);
    }
    let b = s[at];
    if b == b'(' {
        return enclosed::read_expression_data(s, at + 1);
    }
    if kind::is_letter(b) {
        return item::read_character_data(s, at);
    }
    if begins_number(b) {
        return decimal::read_numeric_data(s, at);
    }
    match b {
        b'"' | b'\'' => enclosed::read_string_data(s, at + 1, b),
        b'#' => hash::read_hash_data(s, at + 1),
        _ => no_item(s, at),
    }
}

// What refuses a byte that begins no data, by one token step.
fn no_item(s: &[u8], at: usize) -> Read
    requires { begins_data (get_or s.now at 0) ≡ false }
    ensures { ItemAt s.now at result }
{
    let step = tokenizer::next(
        s,
        State {
            place: at,
            in_header: false,
            in_common: false,
        },
    );
    let answer = step.answer;
    match answer {
        Answer::End => Err(ErrorCode::SyntaxError),
        Answer::Refused(e) => Err(e),
        Answer::Token(_) => Err(ErrorCode::SyntaxError),
    }
}

// Whether a number begins with a byte.
fn begins_number(b: u8) -> bool
    ensures { result ≡ begins_number b }
{
    if kind::is_digit(b) {
        return true;
    }
    if kind::is_sign(b) {
        return true;
    }
    b == b'.'
}
