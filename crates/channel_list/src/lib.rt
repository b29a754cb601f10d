// Channel lists, SCPI-99 8.3.2. expression/channel_list.rs of the original.
#![tactic(auto)]

ghost use Rattle.std.specs.Prelude.{◌<◌, ◌≡◌, length};
ghost use Rattle.channel_list.specs.List.{opened, taken, refusal, begins_spec, range_to, specs_at, path_at, item_at, step, step_at, Inside};

use channel_spec::ChannelSpec;
use error::ErrorCode;
use token::View;

#[derive(Clone, Copy)]
pub enum Token {
    // `1!2`
    ChannelSpec(ChannelSpec),
    // `1!2:3!4`
    ChannelRange(ChannelSpec, ChannelSpec),
    // what stands between the quotes of `"path"`
    PathName(View),
}

// Where a step begins: its place, and whether it is the first of the list.
#[derive(Clone, Copy)]
pub struct State {
    pub place: usize,
    pub first: bool,
}

// What a step says, in the form that the scope names for the Option of a Result of the original.
#[derive(Clone, Copy)]
pub enum Answer {
    Token(Token),
    End,
    Refused(ErrorCode),
}

// The answer of a step, and where the next one begins.
#[derive(Clone, Copy)]
pub struct Step {
    pub answer: Answer,
    pub state: State,
}

// Where the next item of a list begins, or what is there in its place: three cases, and neither an Option nor a Result.
#[derive(Clone, Copy)]
enum Front {
    Item(usize),
    End(usize),
    Refused,
}

// The front of a channel list; a text is one where it begins with `@`.
pub fn new(s: &[u8]) -> Option<State>
    ensures { result ≡ opened s.now }
{
    if !util::stands(s, 0, b'@') {
        return None;
    }
    Some(State {
        place: 1,
        first: true,
    })
}

// The next item of a channel list.
pub fn next(s: &[u8], state: State) -> Step
    ensures { result ≡ step s.now state }
{
    let at = state.place;
    if s.len() <= at {
        return Step {
            answer: Answer::End,
            state,
        };
    }
    match item_front(s, state) {
        Front::Item(from) => item(s, from, state),
        Front::End(place) => Step {
            answer: Answer::End,
            state: State { place, ..state },
        },
        Front::Refused => refused(s, state, ErrorCode::InvalidExpression),
    }
}

// The next item begins at the place, or behind a comma there: one that is not the first of the list, and the end may stand behind it.
fn item_front(s: &[u8], state: State) -> Front
    requires { state.place < length s.now }
    ensures { (step_at s.now state result ≡ step s.now state) × Inside s.now result }
{
    let at = state.place;
    if s[at] != b',' {
        return Front::Item(at);
    }
    if state.first {
        return Front::Refused;
    }
    if s.len() <= at + 1 {
        return Front::End(at + 1);
    }
    Front::Item(at + 1)
}

// An item, by the byte that it begins with.
fn item(s: &[u8], at: usize, state: State) -> Step
    requires { at < length s.now }
    ensures { result ≡ item_at s.now state at }
{
    let b = s[at];
    if begins_spec(b) {
        return specs(s, at, state);
    }
    match b {
        b'"' | b'\'' => path(s, at + 1, state, b),
        _ => refused(s, state, ErrorCode::InvalidExpression),
    }
}

// Whether a spec begins with a byte.
fn begins_spec(b: u8) -> bool
    ensures { result ≡ begins_spec b }
{
    if kind::is_digit(b) {
        return true;
    }
    kind::is_sign(b)
}

// A spec, or a range of two.
fn specs(s: &[u8], at: usize, state: State) -> Step
    ensures { result ≡ specs_at s.now state at }
{
    let begin = channel_spec::read_channel_spec(s, at);
    let next = begin.view.end;
    if s.len() <= next {
        return taken(Token::ChannelSpec(begin), next);
    }
    if s[next] != b':' {
        return taken(Token::ChannelSpec(begin), next);
    }
    range(s, next + 1, state, begin)
}

// The end of a range, from the place behind its colon: a spec of the same dimension, which is not empty.
fn range(s: &[u8], at: usize, state: State, begin: ChannelSpec) -> Step
    ensures { result ≡ range_to s.now state at begin }
{
    let end = channel_spec::read_channel_spec(s, at);
    let next = end.view.end;
    if end.view.start == next {
        return refused(s, state, ErrorCode::InvalidExpression);
    }
    if begin.dimension != end.dimension {
        return refused(s, state, ErrorCode::InvalidExpression);
    }
    taken(Token::ChannelRange(begin, end), next)
}

// A path name, from the place behind its opening quote. What follows the closing quote is not passed.
fn path(s: &[u8], at: usize, state: State, quote: u8) -> Step
    ensures { result ≡ path_at quote s.now state at }
{
    match enclosed::read_string_data(s, at, quote) {
        Ok((token, _)) => {
            let view = token.view();
            taken(Token::PathName(view), view.end + 1)
        }
        Err(e) => refused(s, state, e),
    }
}

// An item, and the state behind it.
fn taken(token: Token, next: usize) -> Step
    ensures { result ≡ taken token next }
{
    Step {
        answer: Answer::Token(token),
        state: State {
            place: next,
            first: false,
        },
    }
}

// A refusal ends the list.
fn refused(s: &[u8], state: State, e: ErrorCode) -> Step
    ensures { result ≡ refusal s.now state e }
{
    Step {
        answer: Answer::Refused(e),
        state: State {
            place: s.len(),
            ..state
        },
    }
}
