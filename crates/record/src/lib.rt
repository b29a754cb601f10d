// The record of a message unit, one word of 64 bits.
#![tactic(auto)]

ghost use Rattle.std.specs.Prelude.{◌≡◌};
ghost use Rattle.record.specs.Word.{word_of, record_in};

// A unit that was read: its command, whether it is a query, the branch that it keeps, and how many items it has.
#[derive(Clone, Copy)]
pub struct Record {
    pub command: u16,
    pub query: bool,
    pub branch: usize,
    pub items: usize,
}

// The word of a record. This and `unpack` keep the names that programs call them by.
pub fn pack(unit: Record) -> u64
    ensures { result ≡ word_of unit }
{
    let event = ((unit.command as u64) << 48)
        + (((unit.branch % 65536) as u64) << 31)
        + (((unit.items % 65536) as u64) << 15);
    if unit.query {
        return event + (1 << 47);
    }
    event
}

// The record of a word.
pub fn unpack(word: u64) -> Record
    ensures { result ≡ record_in word }
{
    Record {
        command: ((word >> 48) % 65536) as u16,
        query: (word >> 47) % 2 == 1,
        branch: ((word >> 31) % 65536) as usize,
        items: ((word >> 15) % 65536) as usize,
    }
}
