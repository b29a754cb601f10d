// The message walk: the units of a message, each written as one word. `Node::run` of tree/mod.rs of the original.
#![tactic(auto)]

ghost use Rattle.std.specs.Prelude.{◌+◌, ◌<◌, ◌≡◌, length, set, true, false};
ghost use Rattle.message.specs.Message.{is_text, is_end, Units, Message, CheckedMessage, Walks};
ghost use Rattle.tokenizer.specs.Step.{state_of};
ghost use Rattle.ahead.specs.Seen.{seen_at};

use ahead::{Ahead, Stop};
use error::ErrorCode;
use tokenizer::State;

// A message that is not read to its end: how many units were written, and what refused the next one.
#[derive(Clone, Copy)]
pub struct Stopped {
    pub units: usize,
    pub error: ErrorCode,
}

// Walks a message from a branch of a table, which is checked first. It answers how many units were written.
pub fn walk(
    nodes: &[u64],
    names: &[u8],
    start: usize,
    s: &[u8],
    slots: &mut [u64],
) -> Result<usize, Stopped>
    ensures { Walks (CheckedMessage nodes.now names.now start s.now) slots.old result slots.new }
{
    if let Err(error) = table::check(nodes, names) {
        return Err(Stopped { units: 0, error });
    }
    walk_accepted(nodes, names, start, s, slots)
}

// Walks a message from a branch of a table that was accepted before. On a table with faults it answers as well, without looking for
// them.
pub fn walk_accepted(
    nodes: &[u64],
    names: &[u8],
    start: usize,
    s: &[u8],
    slots: &mut [u64],
) -> Result<usize, Stopped>
    ensures { Walks (Message nodes.now names.now start s.now) slots.old result slots.new }
{
    if !branch::is_branch(nodes, start) {
        return Err(Stopped {
            units: 0,
            error: ErrorCode::StartIsNoBranch,
        });
    }
    if tree::LONGEST_MESSAGE < s.len() {
        return Err(Stopped {
            units: 0,
            error: ErrorCode::MessageTooLong,
        });
    }
    walk_units(nodes, names, start, s, slots)
}

// The units from the front of the text on. No unit is read where the message ends, so past the text, and where a unit is refused, it is
// asked whether it ends there.
fn walk_units(
    nodes: &[u64],
    names: &[u8],
    start: usize,
    s: &[u8],
    slots: &mut [u64],
) -> Result<usize, Stopped>
    ensures { Walks (Units nodes.now names.now s.now start 0) slots.old result slots.new }
{
    let mut units = 0;
    let mut kept = start;
    let mut place = 0;
    loop {
        if s.len() <= place {
            return Ok(units);
        }
        match unit::read(nodes, names, s, kept, place) {
            Err(error) => {
                if sees_end(s, place) {
                    return Ok(units);
                }
                return Err(Stopped { units, error });
            }
            Ok((record, next)) => {
                if slots.len() <= units {
                    return Err(Stopped {
                        units,
                        error: ErrorCode::NoSlotLeft,
                    });
                }
                units = put(slots, units, record::pack(record));
                kept = record.branch;
                place = next;
            }
        }
    }
}

// Writes a word into a slot, and says which slot is next.
fn put(slots: &mut [u64], at: usize, word: u64) -> usize
    requires { at < length slots.old }
    ensures { (result ≡ at + 1) × (slots.new ≡ set slots.old at word) }
{
    slots[at] = word;
    at + 1
}

// Whether the message ends at a place where a unit would begin, by the token there.
fn sees_end(s: &[u8], place: usize) -> bool
    ensures { result ≡ is_end (seen_at s.now (state_of place true false)).ahead }
{
    let state = State {
        place,
        in_header: true,
        in_common: false,
    };
    let seen = ahead::look(s, state);
    let ahead = seen.ahead;
    is_end(ahead)
}

// Where a unit would begin, the end of the text ends the message.
fn is_end(ahead: Ahead) -> bool
    ensures { result ≡ is_end ahead }
{
    match ahead {
        Ahead::Stop(stop) => is_text(stop),
        Ahead::Word(_) => false,
        Ahead::Colon => false,
        Ahead::Query => false,
        Ahead::Refused(_) => false,
    }
}

// Whether it is the end of the text that stands there.
fn is_text(stop: Stop) -> bool
    ensures { result ≡ is_text stop }
{
    match stop {
        Stop::Text => true,
        Stop::Unit => false,
        Stop::Separator => false,
    }
}
