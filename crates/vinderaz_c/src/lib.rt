// The exports of the C interface: each is the function of `vinderaz` of that name, and promises the same. include/vinderaz.h says it to a C
// programmer.
#![tactic(auto)]

ghost use Rattle.std.specs.Prelude.{◌≡◌, pos};
ghost use Rattle.mnemonic.specs.Mnemonic.{matches, compares};
ghost use Rattle.record.specs.Word.{bit};
ghost use Rattle.tree.specs.Alone.{Resolves, ResolvesAlone};
ghost use Rattle.message.specs.Message.{Message, CheckedMessage};
ghost use Rattle.words.specs.Outcome.{Outcome};
ghost use Rattle.coordinate_words.specs.Coordinates.{coordinates_in, unsigned_in};
ghost use Rattle.vinderaz.specs.Tree.{Checks, Resolving, Walking};
ghost use Rattle.vinderaz.specs.Steps.{token_step, open_step, channel_step, numeric_step};

// 0 for an accepted table, or its fault.
#[unsafe(no_mangle)]
pub extern "C" fn vinderaz_check(nodes: &[u64], names: &[u8]) -> i32
    ensures { Checks nodes.now names.now result }
{
    vinderaz::vinderaz_check(nodes, names)
}

// Whether the word spells the name: 1, or else 0.
#[unsafe(no_mangle)]
pub extern "C" fn vinderaz_mnemonic_match(name: &[u8], word: &[u8]) -> i32
    ensures { result ≡ pos (bit (matches name.now word.now)) }
{
    vinderaz::vinderaz_mnemonic_match(name, word)
}

// Whether the mnemonic is the name in its long or its short form, digits and all: 1, or else 0.
#[unsafe(no_mangle)]
pub extern "C" fn vinderaz_mnemonic_compare(name: &[u8], mnemonic: &[u8]) -> i32
    ensures { result ≡ pos (bit (compares name.now mnemonic.now)) }
{
    vinderaz::vinderaz_mnemonic_compare(name, mnemonic)
}

// Resolves one header; its word goes to the first slot.
#[unsafe(no_mangle)]
pub extern "C" fn vinderaz_resolve(
    nodes: &[u64],
    names: &[u8],
    start: usize,
    text: &[u8],
    slots: &mut [u64],
) -> i32
    ensures { Resolving (ResolvesAlone nodes.now names.now start text.now) slots.old result slots.new }
{
    vinderaz::vinderaz_resolve(nodes, names, start, text, slots)
}

// As `vinderaz_resolve`, without the check of the table.
#[unsafe(no_mangle)]
pub extern "C" fn vinderaz_resolve_accepted(
    nodes: &[u64],
    names: &[u8],
    start: usize,
    text: &[u8],
    slots: &mut [u64],
) -> i32
    ensures { Resolving (Resolves nodes.now names.now start text.now) slots.old result slots.new }
{
    vinderaz::vinderaz_resolve_accepted(nodes, names, start, text, slots)
}

// Walks a message; its units go to the slots, and their number to the first word of `units`.
#[unsafe(no_mangle)]
pub extern "C" fn vinderaz_walk(
    nodes: &[u64],
    names: &[u8],
    start: usize,
    text: &[u8],
    slots: &mut [u64],
    units: &mut [u64],
) -> i32
    ensures { Walking (CheckedMessage nodes.now names.now start text.now) slots.old units.old result slots.new units.new }
{
    vinderaz::vinderaz_walk(nodes, names, start, text, slots, units)
}

// As `vinderaz_walk`, without the check of the table.
#[unsafe(no_mangle)]
pub extern "C" fn vinderaz_walk_accepted(
    nodes: &[u64],
    names: &[u8],
    start: usize,
    text: &[u8],
    slots: &mut [u64],
    units: &mut [u64],
) -> i32
    ensures { Walking (Message nodes.now names.now start text.now) slots.old units.old result slots.new units.new }
{
    vinderaz::vinderaz_walk_accepted(nodes, names, start, text, slots, units)
}

// The next token of a message or of data alone.
#[unsafe(no_mangle)]
pub extern "C" fn vinderaz_token(text: &[u8], words: &mut [u64]) -> i32
    ensures { record { code = result; words = words.new } ≡ token_step text.now words.old }
{
    vinderaz::vinderaz_token(text, words)
}

// Opens a channel list.
#[unsafe(no_mangle)]
pub extern "C" fn vinderaz_channel_list(text: &[u8], words: &mut [u64]) -> i32
    ensures { record { code = result; words = words.new } ≡ open_step text.now words.old }
{
    vinderaz::vinderaz_channel_list(text, words)
}

// The next item of a channel list.
#[unsafe(no_mangle)]
pub extern "C" fn vinderaz_channel(text: &[u8], words: &mut [u64]) -> i32
    ensures { record { code = result; words = words.new } ≡ channel_step text.now words.old }
{
    vinderaz::vinderaz_channel(text, words)
}

// The next item of a numeric list.
#[unsafe(no_mangle)]
pub extern "C" fn vinderaz_numeric(text: &[u8], words: &mut [u64]) -> i32
    ensures { record { code = result; words = words.new } ≡ numeric_step text.now words.old }
{
    vinderaz::vinderaz_numeric(text, words)
}

// The coordinates of a channel spec, as many as there are words.
#[unsafe(no_mangle)]
pub extern "C" fn vinderaz_coordinates(spec: &[u8], words: &mut [i64]) -> i32
    ensures { record { code = result; words = words.new } ≡ coordinates_in spec.now words.old }
{
    vinderaz::vinderaz_coordinates(spec, words)
}

// As `vinderaz_coordinates`, and refuses a negative coordinate with -224.
#[unsafe(no_mangle)]
pub extern "C" fn vinderaz_unsigned_coordinates(spec: &[u8], words: &mut [u64]) -> i32
    ensures { record { code = result; words = words.new } ≡ unsigned_in spec.now words.old }
{
    vinderaz::vinderaz_unsigned_coordinates(spec, words)
}
