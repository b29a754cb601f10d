// The nodes of a command tree, each a word of 64 bits. `Node` of tree/mod.rs of the original. Each field is one shift and one remainder, so that one
// function of their numbers would be no plainer, and the names would stand at its calls.
#![tactic(auto)]

ghost use Rattle.std.specs.Prelude.{◌≡◌};
ghost use Rattle.node.specs.Word.{is_branch, is_default, name_length, name_start, first_child, command_number, child_count, spare_bits, name_in, initial_in};

// Whether a node has children; a leaf has a command.
pub fn is_branch(word: u64) -> bool
    ensures { result ≡ is_branch word }
{
    (word >> 63) % 2 == 1
}

// Whether a node may be left unsaid.
pub fn is_default(word: u64) -> bool
    ensures { result ≡ is_default word }
{
    (word >> 62) % 2 == 1
}

// How many bytes a node's name has.
pub fn name_length(word: u64) -> usize
    ensures { result ≡ name_length word }
{
    ((word >> 58) % 16) as usize
}

// Where a node's name begins in the text of names.
pub fn name_start(word: u64) -> usize
    ensures { result ≡ name_start word }
{
    ((word >> 42) % 65536) as usize
}

// The index of a branch's first child.
pub fn first_child(word: u64) -> usize
    ensures { result ≡ first_child word }
{
    ((word >> 26) % 65536) as usize
}

// A leaf's command number.
pub fn command_number(word: u64) -> u16
    ensures { result ≡ command_number word }
{
    ((word >> 26) % 65536) as u16
}

// How many children a branch has; they stand one behind the other.
pub fn child_count(word: u64) -> usize
    ensures { result ≡ child_count word }
{
    ((word >> 10) % 65536) as usize
}

// The bits of a word that have no meaning.
pub fn spare_bits(word: u64) -> u64
    ensures { result ≡ spare_bits word }
{
    word % 1024
}

// The name of a node, a part of the text of names; an empty one where it does not lie in the text.
pub fn name(names: &[u8], word: u64) -> &[u8]
    ensures { result.now ≡ name_in names.now word }
{
    let start = name_start(word);
    let end = start + name_length(word);
    if names.len() < end {
        return &names[..0];
    }
    &names[start..end]
}

// The first byte of a node's name, or 0 where the name begins outside the text of names.
pub fn initial(names: &[u8], word: u64) -> u8
    ensures { result ≡ initial_in names.now word }
{
    let start = name_start(word);
    if start < names.len() {
        return names[start];
    }
    0
}
