// The mnemonic at a place and the names of nodes: which of some nodes it spells. Letters and digits are compared in place; the end of the
// mnemonic is looked for only where these do not decide, which for a name of an accepted table is all but never. `Token::match_program_header`
// of tokenizer/token.rs of the original.
#![tactic(auto)]

ghost use Rattle.std.specs.Prelude.{◌+◌, ◌≤◌, ◌<◌, ◌≡◌, true, false, length, get_or, drop};
ghost use Rattle.util.specs.Run.{run_end};
ghost use Rattle.node.specs.Word.{name_in};
ghost use Rattle.spoken.specs.Spoken.{is_letter_at, spelled_at, Spells};
ghost use Rattle.spoken.specs.Internal.{agrees, begin_alike, common, goes_on_at, departs_at, one_added, Reached, Missing};

// The first of the nodes of a block that the mnemonic at a place spells, and the place after the mnemonic. No index is counted:
// `branch::next_child` alone knows which child is next.
pub fn spelled_in(
    nodes: &[u64],
    names: &[u8],
    s: &[u8],
    from: usize,
    to: usize,
    at: usize,
) -> Option<(usize, usize)>
    ensures { Spells nodes.now names.now s.now from to at result }
{
    let first = byte_at(s, at);
    let end = util::least(to, nodes.len());
    let mut k = from;
    while k < end {
        if let Some(next) = node_spelled(names, nodes[k], s, at, first) {
            return Some((k, next));
        }
        k = branch::next_child(nodes, k);
    }
    None
}

// The byte at a place, or 0 past the end of the text.
fn byte_at(s: &[u8], at: usize) -> u8
    ensures { result ≡ get_or s.now at 0 }
{
    if at < s.len() {
        return s[at];
    }
    0
}

// Whether the mnemonic at a place, whose first byte is given, spells the name of a node. Most names are passed over at their first byte.
fn node_spelled(names: &[u8], word: u64, s: &[u8], at: usize, first: u8) -> Option<usize>
    requires { first ≡ get_or s.now at 0 }
    ensures { result ≡ spelled_at (name_in names.now word) s.now at }
{
    if node::initial(names, word) % 32 != first % 32 {
        return None;
    }
    let name = node::name(names, word);
    if name.len() == 0 {
        return None;
    }
    if item::LONGEST_MNEMONIC < name.len() {
        return matched(name, s, at);
    }
    if !begins_alike(name[0], first) {
        return matched(name, s, at);
    }
    name_spelled(name, s, at)
}

// Whether two first bytes are a capital and the same letter in either case, or two stars.
fn begins_alike(c: u8, d: u8) -> bool
    ensures { result ≡ begin_alike c d }
{
    if is_said(c, d, false) {
        return true;
    }
    if c != b'*' {
        return false;
    }
    d == b'*'
}

// Whether the mnemonic at a place spells a name that begins with the same character: in its short form, or in its long one.
fn name_spelled(name: &[u8], s: &[u8], at: usize) -> Option<usize>
    requires { (length name.now ≤ 12) × (begin_alike (get_or name.now 0 0) (get_or s.now at 0) ≡ true) }
    ensures { result ≡ spelled_at name.now s.now at }
{
    let p = letters(name, s, at, 1, false);
    let mut i = p;
    let mut place = at + p;
    if has_letter(s, place) {
        let q = letters(name, s, at, p, true);
        i = q;
        place = at + q;
        if has_letter(s, place) {
            if departs(name, q, s[place]) {
                return None;
            }
            return matched(name, s, at);
        }
    } else {
        i = util::skip_small(name, p);
    }
    tail(name, s, at, i, place)
}

// How far a name, from an index on, and the text from a place on have the same letters: capitals or small letters of the name, in either case in
// the text.
fn letters(name: &[u8], s: &[u8], at: usize, from: usize, small: bool) -> usize
    requires { at + from ≤ length s.now }
    ensures { result ≡ from + common (agrees small) (drop from name.now) (drop (at + from) s.now) }
{
    let end = util::least(name.len(), s.len() - at);
    for i in from..end {
        if !is_said(name[i], s[at + i], small) {
            return i;
        }
    }
    from.max(end)
}

// Whether a byte is a letter of the case, and another one the same letter in either case.
fn is_said(c: u8, d: u8, small: bool) -> bool
    ensures { result ≡ agrees small c d }
{
    if small {
        if !kind::is_small(c) {
            return false;
        }
        if c == d {
            return true;
        }
        return c - 32 == d;
    }
    if !kind::is_capital(c) {
        return false;
    }
    if c == d {
        return true;
    }
    c + 32 == d
}

// Whether a name ends at an index, or has another character there than this letter.
fn departs(name: &[u8], at: usize, b: u8) -> bool
    ensures { result ≡ departs_at name.now at b }
{
    if name.len() <= at {
        return true;
    }
    name[at] % 32 != b % 32
}

// Whether the mnemonic at `at`, whose letters up to `place` are those of the name up to `from`, spells the name: what is left of the name is at
// the place too, or one of the two is a `1` and the other is empty.
fn tail(name: &[u8], s: &[u8], at: usize, from: usize, place: usize) -> Option<usize>
    requires { Reached name.now s.now at from place }
    ensures { result ≡ spelled_at name.now s.now at }
{
    let mut i = from;
    let mut next = place;
    while i < name.len() {
        let c = name[i];
        if !kind::is_digit(c) {
            if from == i {
                if kind::is_letter(c) {
                    return None;
                }
            }
            return matched(name, s, at);
        }
        if !util::stands(s, next, c) {
            return left_out(name, s, at, from, i, next);
        }
        i += 1;
        next += 1;
    }
    if !goes_on_at(s, next) {
        return Some(next);
    }
    if from < name.len() {
        return None;
    }
    added(s, at, next)
}

// Whether the mnemonic at `at` spells a name that has a digit at `i` and another byte than that at `place`: a `1` may be left out.
fn left_out(name: &[u8], s: &[u8], at: usize, from: usize, i: usize, place: usize) -> Option<usize>
    requires { Missing name.now s.now at from i place }
    ensures { result ≡ spelled_at name.now s.now at }
{
    if from < i {
        return None;
    }
    if goes_on_at(s, place) {
        return None;
    }
    if name.len() != i + 1 {
        return None;
    }
    if name[i] == b'1' {
        return Some(place);
    }
    None
}

// Whether the mnemonic at `at` ends after a `1` at `place`, which may be added to a name without digits.
fn added(s: &[u8], at: usize, place: usize) -> Option<usize>
    requires { (place < length s.now) × (at ≤ place) }
    ensures { result ≡ one_added s.now at place }
{
    if s[place] != b'1' {
        return None;
    }
    if goes_on_at(s, place + 1) {
        return None;
    }
    if item::LONGEST_MNEMONIC <= place - at {
        return None;
    }
    Some(place + 1)
}

// Whether the mnemonic at a place spells a name, for any name at all: the whole mnemonic is read and compared.
fn matched(name: &[u8], s: &[u8], at: usize) -> Option<usize>
    ensures { result ≡ spelled_at name.now s.now at }
{
    match item::read_mnemonic(s, at) {
        Err(_) => None,
        Ok((_, next)) => {
            if next <= at {
                return None;
            }
            if mnemonic::mnemonic_match(name, &s[at..next]) {
                return Some(next);
            }
            None
        }
    }
}

// Whether a mnemonic goes on at a place.
fn goes_on_at(s: &[u8], at: usize) -> bool
    ensures { result ≡ goes_on_at s.now at }
{
    if s.len() <= at {
        return false;
    }
    let b = s[at];
    if b < b'0' {
        return false;
    }
    if b <= b'9' {
        return true;
    }
    if b < b'A' {
        return false;
    }
    kind::in_mnemonic(b)
}

// Whether a letter is at a place.
pub fn has_letter(s: &[u8], at: usize) -> bool
    ensures { result ≡ is_letter_at s.now at }
{
    if s.len() <= at {
        return false;
    }
    kind::is_letter(s[at])
}
