// The answers of the steps of messages and lists, left as numbers in eight lent words; and the states that the steps begin with, in the
// same words.
#![tactic(auto)]

ghost use Rattle.std.specs.Prelude.{◌≡◌, get_or};
ghost use Rattle.record.specs.Word.{bit};
ghost use Rattle.words.specs.Outcome.{Outcome};
ghost use Rattle.words.specs.Words.{plain_of, one_of, two_of, refused_of, left_in};
ghost use Rattle.words.specs.Token.{token_item, token_said, token_state, token_left};
ghost use Rattle.words.specs.Lists.{opened_left, channel_item, channel_said, channel_state, channel_left, numeric_item, numeric_said, numeric_state, numeric_left};

use error::ErrorCode;
use token::{Token, View};

// A step of tokens or lists begins with so many lent words, and leaves its answer in them.
pub const STEP_WORDS: usize = 8;

// What a step says: its number, the dimension, the kind and the views, all as the numbers that C reads.
#[derive(Clone, Copy)]
struct Said {
    code: i32,
    dimension: u64,
    kind: u64,
    start: u64,
    end: u64,
    start_2: u64,
    end_2: u64,
}

// The state that a token step begins with.
pub fn token_state(words: &[u64]) -> tokenizer::State
    ensures { result ≡ token_state words.now }
{
    tokenizer::State {
        place: word(words, 0) as usize,
        in_header: word(words, 1) != 0,
        in_common: word(words, 2) != 0,
    }
}

// The state that a step of a channel list begins with.
pub fn channel_state(words: &[u64]) -> channel_list::State
    ensures { result ≡ channel_state words.now }
{
    channel_list::State {
        place: word(words, 0) as usize,
        first: word(words, 1) != 0,
    }
}

// The state that a step of a numeric list begins with.
pub fn numeric_state(words: &[u64]) -> numeric_list::State
    ensures { result ≡ numeric_state words.now }
{
    numeric_list::State {
        place: word(words, 0) as usize,
        first: word(words, 1) != 0,
    }
}

// A word, or 0 where there is none.
fn word(words: &[u64], at: usize) -> u64
    ensures { result ≡ get_or words.now at 0 }
{
    if words.len() <= at {
        return 0;
    }
    words[at]
}

// Leaves the answer of a token step.
pub fn put_token(words: &mut [u64], step: tokenizer::Step) -> i32
    ensures { record { code = result; words = words.new } ≡ token_left words.old step }
{
    let answer = step.answer;
    let state = step.state;
    put(
        words,
        state.place,
        state.in_header,
        flag(state.in_common),
        token_said(answer),
    )
}

// Leaves what a text of so many bytes opens as: the front of a channel list, or that it is none.
pub fn put_opened(words: &mut [u64], length: usize, opened: Option<channel_list::State>) -> i32
    ensures { record { code = result; words = words.new } ≡ opened_left words.old length opened }
{
    match opened {
        Some(state) => put(words, state.place, state.first, 0, plain(0)),
        None => put(
            words,
            length,
            true,
            0,
            refused(ErrorCode::InvalidExpression),
        ),
    }
}

// Leaves the answer of a step of a channel list.
pub fn put_channel(words: &mut [u64], step: channel_list::Step) -> i32
    ensures { record { code = result; words = words.new } ≡ channel_left words.old step }
{
    let answer = step.answer;
    let state = step.state;
    let said = channel_said(answer);
    put(words, state.place, state.first, said.dimension, said)
}

// Leaves the answer of a step of a numeric list.
pub fn put_numeric(words: &mut [u64], step: numeric_list::Step) -> i32
    ensures { record { code = result; words = words.new } ≡ numeric_left words.old step }
{
    let answer = step.answer;
    let state = step.state;
    put(words, state.place, state.first, 0, numeric_said(answer))
}

// The first eight words, where there are as many, and the number of the answer.
fn put(words: &mut [u64], place: usize, second: bool, third: u64, said: Said) -> i32
    ensures { record { code = result; words = words.new } ≡ left_in words.old place second third said }
{
    if words.len() < STEP_WORDS {
        return ErrorCode::NoSlotLeft.get_code();
    }
    words[0] = place as u64;
    words[1] = flag(second);
    words[2] = third;
    words[3] = said.kind;
    words[4] = said.start;
    words[5] = said.end;
    words[6] = said.start_2;
    words[7] = said.end_2;
    said.code
}

fn flag(b: bool) -> u64
    ensures { result ≡ bit b }
{
    u64::from(b)
}

// A kind with no view.
fn plain(kind: u64) -> Said
    ensures { result ≡ plain_of kind }
{
    Said {
        code: 0,
        dimension: 0,
        kind,
        start: 0,
        end: 0,
        start_2: 0,
        end_2: 0,
    }
}

// A kind with one view.
fn one(kind: u64, view: View) -> Said
    ensures { result ≡ one_of kind view }
{
    Said {
        code: 0,
        dimension: 0,
        kind,
        start: view.start as u64,
        end: view.end as u64,
        start_2: 0,
        end_2: 0,
    }
}

// A kind with two views.
fn two(kind: u64, dimension: usize, view: View, second: View) -> Said
    ensures { result ≡ two_of kind dimension view second }
{
    Said {
        code: 0,
        dimension: dimension as u64,
        kind,
        start: view.start as u64,
        end: view.end as u64,
        start_2: second.start as u64,
        end_2: second.end as u64,
    }
}

// A refusal, which has no kind.
fn refused(e: ErrorCode) -> Said
    ensures { result ≡ refused_of e }
{
    Said {
        code: e.get_code(),
        dimension: 0,
        kind: 0,
        start: 0,
        end: 0,
        start_2: 0,
        end_2: 0,
    }
}

// The end and a refusal have no kind.
fn token_said(answer: tokenizer::Answer) -> Said
    ensures { result ≡ token_said answer }
{
    match answer {
        tokenizer::Answer::Token(token) => token_item(token),
        tokenizer::Answer::End => plain(0),
        tokenizer::Answer::Refused(e) => refused(e),
    }
}

fn token_item(token: Token) -> Said
    ensures { result ≡ token_item token }
{
    match token {
        Token::HeaderMnemonicSeparator => plain(1),
        Token::HeaderQuerySuffix => plain(2),
        Token::ProgramMessageUnitSeparator => plain(3),
        Token::ProgramHeaderSeparator => plain(4),
        Token::ProgramDataSeparator => plain(5),
        Token::ProgramMnemonic(view) => one(6, view),
        Token::CharacterProgramData(view) => one(7, view),
        Token::DecimalNumericProgramData(view) => one(8, view),
        Token::DecimalNumericSuffixProgramData(view, suffix) => two(9, 0, view, suffix),
        Token::NonDecimalNumericProgramData(value) => Said {
            code: 0,
            dimension: 0,
            kind: 10,
            start: value,
            end: 0,
            start_2: 0,
            end_2: 0,
        },
        Token::StringProgramData(view) => one(11, view),
        Token::ArbitraryBlockData(view) => one(12, view),
        Token::ExpressionProgramData(view) => one(13, view),
    }
}

fn channel_said(answer: channel_list::Answer) -> Said
    ensures { result ≡ channel_said answer }
{
    match answer {
        channel_list::Answer::Token(token) => channel_item(token),
        channel_list::Answer::End => plain(0),
        channel_list::Answer::Refused(e) => refused(e),
    }
}

fn channel_item(token: channel_list::Token) -> Said
    ensures { result ≡ channel_item token }
{
    match token {
        channel_list::Token::ChannelSpec(spec) => {
            two(1, spec.dimension, spec.view, View { start: 0, end: 0 })
        }
        channel_list::Token::ChannelRange(spec, end) => two(2, spec.dimension, spec.view, end.view),
        channel_list::Token::PathName(view) => one(3, view),
    }
}

fn numeric_said(answer: numeric_list::Answer) -> Said
    ensures { result ≡ numeric_said answer }
{
    match answer {
        numeric_list::Answer::Token(token) => numeric_item(token),
        numeric_list::Answer::End => plain(0),
        numeric_list::Answer::Refused(e) => refused(e),
    }
}

fn numeric_item(token: numeric_list::Token) -> Said
    ensures { result ≡ numeric_item token }
{
    match token {
        numeric_list::Token::Numeric(view) => one(1, view),
        numeric_list::Token::NumericRange(view, end) => two(2, 0, view, end),
    }
}
