// The token step. tokenizer/mod.rs of the original.
#![tactic(auto)]

ghost use Rattle.std.specs.Prelude.{◌≡◌, true, false};
ghost use Rattle.tokenizer.specs.Step.{state_of, is_in_common, of_message, of_data, taken, refusal, ended, read_as, passed, newline_before, colon_before, question_before, comma_before, word_at, outside, step};
ghost use Rattle.kind.specs.Class.{is_white_space};
ghost use Rattle.util.specs.Run.{run_end};
ghost use Rattle.token.specs.declared.Token.TheVariants.{ProgramMessageUnitSeparator, ProgramHeaderSeparator};
ghost use Rattle.item.specs.Word.{mnemonic};
ghost use Rattle.decimal.specs.Decimal.{numeric_data};
ghost use Rattle.enclosed.specs.String.{string_data};
ghost use Rattle.enclosed.specs.Expression.{expression_data};
ghost use Rattle.hash.specs.Block.{hash_data};

use error::ErrorCode;
use item::Read;
use kind::Kind;
use token::Token;

// Where a step begins: its place, and whether that is in a header and in a common command.
#[derive(Clone, Copy)]
pub struct State {
    pub place: usize,
    pub in_header: bool,
    pub in_common: bool,
}

// What a step says, in the form that the scope names for the Option of a Result of the original.
#[derive(Clone, Copy)]
pub enum Answer {
    Token(Token),
    End,
    Refused(ErrorCode),
}

// The answer of a step, and where the next one begins.
#[derive(Clone, Copy)]
pub struct Step {
    pub answer: Answer,
    pub state: State,
}

// The state at the front of a message.
pub fn new() -> State
    ensures { result ≡ of_message }
{
    State {
        place: 0,
        in_header: true,
        in_common: false,
    }
}

// The state at the front of data alone.
pub fn new_params() -> State
    ensures { result ≡ of_data }
{
    State {
        in_header: false,
        ..new()
    }
}

// The next token of a text.
pub fn next(s: &[u8], state: State) -> Step
    ensures { result ≡ step s.now state }
{
    let at = state.place;
    if s.len() <= at {
        return ended(state);
    }
    let b = s[at];
    let k = kind::kind_of(b);
    // A match, whose arms differ in what they pass: a table of functions would hand out pointers to them.
    match k {
        Kind::Newline => newline(s, at + 1, state),
        Kind::Blank => blank(s, at, state),
        Kind::Star => common(s, at, state),
        Kind::Colon => colon(s, at + 1, state),
        Kind::Question => question(s, at + 1, state),
        Kind::Semicolon => semicolon(s, at + 1),
        Kind::Comma => comma(s, at + 1, state),
        Kind::Small | Kind::Capital => word(s, at, state),
        Kind::Parenthesis => expression(s, at + 1, state),
        Kind::Other | Kind::Underscore => refused(s, state, ErrorCode::SyntaxError),
        Kind::Beyond => refused(s, state, ErrorCode::InvalidCharacter),
        Kind::Hash => hash(s, at + 1, state),
        Kind::Quote => string(s, at + 1, state, b),
        Kind::Digit | Kind::Sign | Kind::Point => number(s, at, state),
    }
}

// The next token of data alone, from a place on.
pub fn next_params(s: &[u8], place: usize) -> Step
    ensures { result ≡ step s.now (state_of place false false) }
{
    next(
        s,
        State {
            place,
            ..new_params()
        },
    )
}

// A newline before a place ends the message.
fn newline(s: &[u8], next: usize, state: State) -> Step
    ensures { result ≡ newline_before s.now state next }
{
    match separator::newline(s, next) {
        Ok(place) => ended(State { place, ..state }),
        Err(e) => refused(s, state, e),
    }
}

// White space at a place ends a header.
fn blank(s: &[u8], at: usize, state: State) -> Step
    ensures { result ≡ taken ProgramHeaderSeparator (run_end is_white_space s.now at) false (is_in_common state) }
{
    let next = util::skip_ws(s, at);
    taken(Token::ProgramHeaderSeparator, next, false, state.in_common)
}

// A semicolon before a place begins a message unit.
fn semicolon(s: &[u8], at: usize) -> Step
    ensures { result ≡ taken ProgramMessageUnitSeparator (run_end is_white_space s.now at) true false }
{
    let next = util::skip_ws(s, at);
    taken(Token::ProgramMessageUnitSeparator, next, true, false)
}

// A colon before a place.
fn colon(s: &[u8], next: usize, state: State) -> Step
    ensures { result ≡ colon_before s.now state next }
{
    passed(
        s,
        state,
        separator::colon(s, next, state.in_header, state.in_common),
        Token::HeaderMnemonicSeparator,
        state.in_header,
    )
}

// A question mark before a place ends a header.
fn question(s: &[u8], next: usize, state: State) -> Step
    ensures { result ≡ question_before s.now state next }
{
    passed(
        s,
        state,
        separator::question(s, next, state.in_header),
        Token::HeaderQuerySuffix,
        false,
    )
}

// A comma before a place.
fn comma(s: &[u8], next: usize, state: State) -> Step
    ensures { result ≡ comma_before s.now state next }
{
    passed(
        s,
        state,
        separator::comma(s, next, state.in_header),
        Token::ProgramDataSeparator,
        state.in_header,
    )
}

// A star at a place begins the mnemonic of a common command.
fn common(s: &[u8], at: usize, state: State) -> Step
    ensures { result ≡ read_as s.now state true (mnemonic s.now at) }
{
    form(s, state, item::read_mnemonic(s, at), true)
}

// A bracket before a place begins an expression.
fn expression(s: &[u8], at: usize, state: State) -> Step
    ensures { result ≡ read_as s.now state (is_in_common state) (expression_data s.now at) }
{
    form(
        s,
        state,
        enclosed::read_expression_data(s, at),
        state.in_common,
    )
}

// A letter begins a mnemonic in a header, and character data elsewhere.
fn word(s: &[u8], at: usize, state: State) -> Step
    ensures { result ≡ word_at s.now state at }
{
    if state.in_header {
        return form(s, state, item::read_mnemonic(s, at), state.in_common);
    }
    form(s, state, item::read_character_data(s, at), state.in_common)
}

// A `#` before a place begins a block or a number in another radix.
fn hash(s: &[u8], at: usize, state: State) -> Step
    ensures { result ≡ outside s.now state (hash_data s.now at) }
{
    if state.in_header {
        return refused(s, state, ErrorCode::CommandHeaderError);
    }
    form(s, state, hash::read_hash_data(s, at), state.in_common)
}

// A quote before a place begins a string.
fn string(s: &[u8], at: usize, state: State, quote: u8) -> Step
    ensures { result ≡ outside s.now state (string_data quote s.now at) }
{
    if state.in_header {
        return refused(s, state, ErrorCode::CommandHeaderError);
    }
    form(
        s,
        state,
        enclosed::read_string_data(s, at, quote),
        state.in_common,
    )
}

// A digit, sign or point begins a number.
fn number(s: &[u8], at: usize, state: State) -> Step
    ensures { result ≡ outside s.now state (numeric_data s.now at) }
{
    if state.in_header {
        return refused(s, state, ErrorCode::CommandHeaderError);
    }
    form(s, state, decimal::read_numeric_data(s, at), state.in_common)
}

// What was read as the answer of a step that leaves the header as it was.
fn form(s: &[u8], state: State, read: Read, in_common: bool) -> Step
    ensures { result ≡ read_as s.now state in_common read }
{
    match read {
        Ok((token, next)) => taken(token, next, state.in_header, in_common),
        Err(e) => refused(s, state, e),
    }
}

// A separator as a token that leaves in-common as it was.
fn passed(
    s: &[u8],
    state: State,
    pass: Result<usize, ErrorCode>,
    token: Token,
    in_header: bool,
) -> Step
    ensures { result ≡ passed s.now state token in_header pass }
{
    match pass {
        Ok(next) => taken(token, next, in_header, state.in_common),
        Err(e) => refused(s, state, e),
    }
}

// A token, and the state behind it.
fn taken(token: Token, next: usize, in_header: bool, in_common: bool) -> Step
    ensures { result ≡ taken token next in_header in_common }
{
    Step {
        answer: Answer::Token(token),
        state: State {
            place: next,
            in_header,
            in_common,
        },
    }
}

// A refusal ends the text and leaves the flags as they were.
fn refused(s: &[u8], state: State, e: ErrorCode) -> Step
    ensures { result ≡ refusal s.now state e }
{
    Step {
        answer: Answer::Refused(e),
        state: State {
            place: s.len(),
            ..state
        },
    }
}

// The end, which changes nothing.
fn ended(state: State) -> Step
    ensures { result ≡ ended state state.place }
{
    Step {
        answer: Answer::End,
        state,
    }
}
