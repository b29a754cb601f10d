// A reader of a message, which holds the message and the state of its step. `Tokenizer<'a>` of tokenizer/mod.rs of the original.
#![tactic(auto)]

ghost use Rattle.std.specs.Prelude.{◌≡◌};
ghost use Rattle.token.specs.View.{part_of};
ghost use Rattle.tokenizer.specs.Step.{state_of, of_message, of_data, step};
ghost use Rattle.reader.specs.Ahead.{reader_of, ahead, behind};

use token::View;
use tokenizer::{Answer, State, Step};

#[derive(Clone, Copy)]
pub struct Reader<'a> {
    pub message: &'a [u8],
    pub state: State,
}

// A reader at the front of a message.
pub fn new<'a>(message: &'a [u8]) -> Reader<'a>
    ensures { result ≡ reader_of message.entry of_message }
{
    Reader {
        message,
        state: tokenizer::new(),
    }
}

// A reader at the front of data alone.
pub fn new_params<'a>(message: &'a [u8]) -> Reader<'a>
    ensures { result ≡ reader_of message.entry of_data }
{
    Reader {
        message,
        state: tokenizer::new_params(),
    }
}

// The next token; the reader is moved on behind it.
pub fn next<'s, 'a>(r: &'s mut Reader<'a>) -> Answer
    ensures { (result ≡ (ahead r.old).answer) × (r.new ≡ behind r.old) }
{
    let found = tokenizer::next(r.message, r.state);
    r.state = found.state;
    found.answer
}

// The part of the message that a view is; an empty one where its places do not fit the message.
pub fn part<'a>(r: Reader<'a>, view: View) -> &'a [u8]
    ensures { result.now ≡ part_of r.entry.message.now view }
{
    token::part(r.message, view)
}

// The step of a message at a place, for a caller who holds no reader.
pub fn step_at(message: &[u8], place: usize, in_header: bool, in_common: bool) -> Step
    ensures { result ≡ step message.now (state_of place in_header in_common) }
{
    tokenizer::next(
        message,
        State {
            place,
            in_header,
            in_common,
        },
    )
}
