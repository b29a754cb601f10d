// The C interface: what the readers answer, as numbers and words in lent slices. include/vinderaz.h says the same to a C programmer. Each
// function returns 32 bits, so that no caller has to extend an answer. `vinderaz_c` exports these under the same names.
#![tactic(auto)]

ghost use Rattle.std.specs.Prelude.{◌≡◌, pos};
ghost use Rattle.mnemonic.specs.Mnemonic.{matches, compares};
ghost use Rattle.record.specs.Word.{bit};
ghost use Rattle.tree.specs.Alone.{Resolves, ResolvesAlone};
ghost use Rattle.message.specs.Message.{Message, CheckedMessage};
ghost use Rattle.words.specs.Outcome.{Outcome};
ghost use Rattle.coordinate_words.specs.Coordinates.{coordinates_in, unsigned_in};
ghost use Rattle.vinderaz.specs.Tree.{Checks, Resolving, Walking};
ghost use Rattle.vinderaz.specs.Steps.{token_step, open_step, channel_step, numeric_step};

use error::ErrorCode;

// 0 for an accepted table, or its fault.
pub fn vinderaz_check(nodes: &[u64], names: &[u8]) -> i32
    ensures { Checks nodes.now names.now result }
{
    unit_words::checked_code(table::check(nodes, names))
}

// Whether the word spells the name: 1, or else 0.
pub fn vinderaz_mnemonic_match(name: &[u8], word: &[u8]) -> i32
    ensures { result ≡ pos (bit (matches name.now word.now)) }
{
    i32::from(mnemonic::mnemonic_match(name, word))
}

// Whether the mnemonic is the name in its long or its short form, digits and all: 1, or else 0.
pub fn vinderaz_mnemonic_compare(name: &[u8], mnemonic: &[u8]) -> i32
    ensures { result ≡ pos (bit (compares name.now mnemonic.now)) }
{
    i32::from(mnemonic::mnemonic_compare(name, mnemonic))
}

// Resolves one header; its word goes to the first slot.
pub fn vinderaz_resolve(
    nodes: &[u64],
    names: &[u8],
    start: usize,
    text: &[u8],
    slots: &mut [u64],
) -> i32
    ensures { Resolving (ResolvesAlone nodes.now names.now start text.now) slots.old result slots.new }
{
    let resolved = tree::resolve(nodes, names, start, text);
    unit_words::put_resolved(slots, resolved)
}

// As `vinderaz_resolve`, without the check of the table.
pub fn vinderaz_resolve_accepted(
    nodes: &[u64],
    names: &[u8],
    start: usize,
    text: &[u8],
    slots: &mut [u64],
) -> i32
    ensures { Resolving (Resolves nodes.now names.now start text.now) slots.old result slots.new }
{
    let resolved = tree::resolve_accepted(nodes, names, start, text);
    unit_words::put_resolved(slots, resolved)
}

// Walks a message; its units go to the slots, and their number to the first word of `units`.
pub fn vinderaz_walk(
    nodes: &[u64],
    names: &[u8],
    start: usize,
    text: &[u8],
    slots: &mut [u64],
    units: &mut [u64],
) -> i32
    ensures { Walking (CheckedMessage nodes.now names.now start text.now) slots.old units.old result slots.new units.new }
{
    if units.len() == 0 {
        return ErrorCode::NoSlotLeft.get_code();
    }
    let walked = message::walk(nodes, names, start, text, slots);
    unit_words::put_walked(units, walked)
}

// As `vinderaz_walk`, without the check of the table.
pub fn vinderaz_walk_accepted(
    nodes: &[u64],
    names: &[u8],
    start: usize,
    text: &[u8],
    slots: &mut [u64],
    units: &mut [u64],
) -> i32
    ensures { Walking (Message nodes.now names.now start text.now) slots.old units.old result slots.new units.new }
{
    if units.len() == 0 {
        return ErrorCode::NoSlotLeft.get_code();
    }
    let walked = message::walk_accepted(nodes, names, start, text, slots);
    unit_words::put_walked(units, walked)
}

// The next token of a message or of data alone.
pub fn vinderaz_token(text: &[u8], words: &mut [u64]) -> i32
    ensures { record { code = result; words = words.new } ≡ token_step text.now words.old }
{
    if words.len() < words::STEP_WORDS {
        return ErrorCode::NoSlotLeft.get_code();
    }
    let state = words::token_state(words);
    words::put_token(words, tokenizer::next(text, state))
}

// Opens a channel list.
pub fn vinderaz_channel_list(text: &[u8], words: &mut [u64]) -> i32
    ensures { record { code = result; words = words.new } ≡ open_step text.now words.old }
{
    if words.len() < words::STEP_WORDS {
        return ErrorCode::NoSlotLeft.get_code();
    }
    words::put_opened(words, text.len(), channel_list::new(text))
}

// The next item of a channel list.
pub fn vinderaz_channel(text: &[u8], words: &mut [u64]) -> i32
    ensures { record { code = result; words = words.new } ≡ channel_step text.now words.old }
{
    if words.len() < words::STEP_WORDS {
        return ErrorCode::NoSlotLeft.get_code();
    }
    let state = words::channel_state(words);
    words::put_channel(words, channel_list::next(text, state))
}

// The next item of a numeric list.
pub fn vinderaz_numeric(text: &[u8], words: &mut [u64]) -> i32
    ensures { record { code = result; words = words.new } ≡ numeric_step text.now words.old }
{
    if words.len() < words::STEP_WORDS {
        return ErrorCode::NoSlotLeft.get_code();
    }
    let state = words::numeric_state(words);
    words::put_numeric(words, numeric_list::next(text, state))
}

// The coordinates of a channel spec, as many as there are words.
pub fn vinderaz_coordinates(spec: &[u8], words: &mut [i64]) -> i32
    ensures { record { code = result; words = words.new } ≡ coordinates_in spec.now words.old }
{
    coordinate_words::coordinates(spec, words)
}

// As `vinderaz_coordinates`, and refuses a negative coordinate with -224.
pub fn vinderaz_unsigned_coordinates(spec: &[u8], words: &mut [u64]) -> i32
    ensures { record { code = result; words = words.new } ≡ unsigned_in spec.now words.old }
{
    coordinate_words::unsigned_coordinates(spec, words)
}
