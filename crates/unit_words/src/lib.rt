// What is answered about a table, a header and a message, as a number and lent words.
#![tactic(auto)]

ghost use Rattle.std.specs.Prelude.{◌≡◌};
ghost use Rattle.words.specs.Outcome.{Outcome};
ghost use Rattle.unit_words.specs.Answers.{checked_code, resolved_in, walked_in};

use error::ErrorCode;
use message::Stopped;
use record::Record;
use tree::Resolved;

// 0 for an accepted table, or the number of its fault.
pub fn checked_code(checked: Result<(), ErrorCode>) -> i32
    ensures { result ≡ checked_code checked }
{
    match checked {
        Ok(()) => 0,
        Err(e) => e.get_code(),
    }
}

// The word of a header goes to the first slot: that of a unit without items.
pub fn put_resolved(slots: &mut [u64], resolved: Result<Resolved, ErrorCode>) -> i32
    ensures { record { code = result; words = slots.new } ≡ resolved_in slots.old resolved }
{
    match resolved {
        Err(e) => return e.get_code(),
        Ok(header) => {
            if slots.is_empty() {
                return ErrorCode::NoSlotLeft.get_code();
            }
            slots[0] = record::pack(Record {
                command: header.command,
                query: header.query,
                branch: header.branch,
                items: 0,
            });
            0
        }
    }
}

// The number of units goes to the first word.
pub fn put_walked(units: &mut [u64], walked: Result<usize, Stopped>) -> i32
    ensures { record { code = result; words = units.new } ≡ walked_in units.old walked }
{
    if units.is_empty() {
        return ErrorCode::NoSlotLeft.get_code();
    }
    match walked {
        Ok(all) => {
            units[0] = all as u64;
            return 0;
        }
        Err(stopped) => {
            units[0] = stopped.units as u64;
            return stopped.error.get_code();
        }
    }
}
