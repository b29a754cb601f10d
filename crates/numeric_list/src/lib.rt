// Numeric lists, SCPI-99 8.3.3. expression/numeric_list.rs of the original.
#![tactic(auto)]

ghost use Rattle.std.specs.Prelude.{◌<◌, ◌≡◌, length};
ghost use Rattle.numeric_list.specs.List.{of_list, taken, refusal, begins, range_to, item_at, step, step_at};

use error::ErrorCode;
use token::View;

#[derive(Clone, Copy)]
pub enum Token {
    // `1`
    Numeric(View),
    // `1:2`
    NumericRange(View, View),
}

// Where a step begins: its place, and whether it is the first of the list.
#[derive(Clone, Copy)]
pub struct State {
    pub place: usize,
    pub first: bool,
}

// What a step says, in the form that the scope names for the Option of a Result of the original.
#[derive(Clone, Copy)]
pub enum Answer {
    Token(Token),
    End,
    Refused(ErrorCode),
}

// The answer of a step, and where the next one begins.
#[derive(Clone, Copy)]
pub struct Step {
    pub answer: Answer,
    pub state: State,
}

// The front of a numeric list.
pub fn new() -> State
    ensures { result ≡ of_list }
{
    State {
        place: 0,
        first: true,
    }
}

// The next item of a numeric list.
pub fn next(s: &[u8], state: State) -> Step
    ensures { result ≡ step s.now state }
{
    let at = state.place;
    if s.len() <= at {
        return Step {
            answer: Answer::End,
            state,
        };
    }
    match item_front(s, state) {
        Some(from) => item(s, from, state),
        None => refused(s, state),
    }
}

// The next item begins behind a comma at the place, which is not the first of the list, or at the place itself.
fn item_front(s: &[u8], state: State) -> Option<usize>
    requires { state.place < length s.now }
    ensures { step_at s.now state result ≡ step s.now state }
{
    let at = state.place;
    let b = s[at];
    if b == b',' {
        if state.first {
            return None;
        }
        return Some(at + 1);
    }
    if !begins(b, state.first) {
        return None;
    }
    Some(at)
}

// Whether an item begins with a byte, where no comma stands before it.
fn begins(b: u8, first: bool) -> bool
    ensures { result ≡ begins b first }
{
    if kind::is_digit(b) {
        return true;
    }
    if b == b'-' {
        return true;
    }
    if b == b'+' {
        return first;
    }
    false
}

// A number, or a range of two.
fn item(s: &[u8], at: usize, state: State) -> Step
    ensures { result ≡ item_at s.now state at }
{
    match decimal::read_nrf(s, at) {
        Ok((_, next)) => {
            let begin = View {
                start: at,
                end: next,
            };
            if s.len() <= next {
                return taken(Token::Numeric(begin), next);
            }
            if s[next] != b':' {
                return taken(Token::Numeric(begin), next);
            }
            range(s, next + 1, state, begin)
        }
        Err(_) => refused(s, state),
    }
}

// The end of a range, from the place behind its colon.
fn range(s: &[u8], at: usize, state: State, begin: View) -> Step
    ensures { result ≡ range_to s.now state at begin }
{
    match decimal::read_nrf(s, at) {
        Ok((_, next)) => taken(
            Token::NumericRange(
                begin,
                View {
                    start: at,
                    end: next,
                },
            ),
            next,
        ),
        Err(_) => refused(s, state),
    }
}

// An item, and the state behind it.
fn taken(token: Token, next: usize) -> Step
    ensures { result ≡ taken token next }
{
    Step {
        answer: Answer::Token(token),
        state: State {
            place: next,
            first: false,
        },
    }
}

// A refusal ends the list.
fn refused(s: &[u8], state: State) -> Step
    ensures { result ≡ refusal s.now state }
{
    Step {
        answer: Answer::Refused(ErrorCode::InvalidExpression),
        state: State {
            place: s.len(),
            ..state
        },
    }
}
