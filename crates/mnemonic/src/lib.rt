// Mnemonics: which spoken word is which name. tokenizer/util.rs of the original.
#![tactic(auto)]

ghost use Rattle.std.specs.Prelude.{◌≡◌, ℕ, Bool, eqb};
ghost use Rattle.kind.specs.Text.{ascii};
ghost use Rattle.util.specs.Run.{every};
ghost use Rattle.mnemonic.specs.Mnemonic.{either_case, same, not_small, may_leave_out, compares, numeric_suffix_start, same_numeric_suffix, matches_parts, begins_otherwise, matches, pairs};

use kind::Class;

// The same character, whichever case a letter is in.
fn is_either_case(c: u8, d: u8) -> bool
    ensures { result ≡ either_case c d }
{
    if c == d {
        return true;
    }
    if kind::is_capital(c) {
        return c + 32 == d;
    }
    if kind::is_capital(d) {
        return c == d + 32;
    }
    false
}

// A relation of two characters.
trait Relation {
    ghost relation: { ℕ → ℕ → Bool };

    fn holds(c: u8, d: u8) -> bool
        ensures { result ≡ relation c d };
}

// The same character.
struct Equal;

impl Relation for Equal {
    ghost relation = { eqb };

    fn holds(c: u8, d: u8) -> bool {
        c == d
    }
}

// The same character in either case.
struct EitherCase;

impl Relation for EitherCase {
    ghost relation = { either_case };

    fn holds(c: u8, d: u8) -> bool {
        is_either_case(c, d)
    }
}

// Whether two texts have one length, and the relation at each place. For equality too: the library's `==` of slices takes a kilobyte more, and a
// third more instructions where the texts are short.
fn are_pairs<R: Relation>(x: &[u8], y: &[u8]) -> bool
    ensures { result ≡ pairs R.relation x.now y.now }
{
    if x.len() != y.len() {
        return false;
    }
    for i in 0..x.len() {
        if !R::holds(x[i], y[i]) {
            return false;
        }
    }
    true
}

// What may stand in a short form.
struct NotSmall;

impl Class for NotSmall {
    ghost class = { not_small };

    fn has(b: u8) -> bool {
        !kind::is_small(b)
    }
}

// What a short form may leave out.
struct MayLeaveOut;

impl Class for MayLeaveOut {
    ghost class = { may_leave_out };

    fn has(b: u8) -> bool {
        may_leave_out(b)
    }
}

// A character that a short form may leave out.
fn may_leave_out(b: u8) -> bool
    ensures { result ≡ may_leave_out b }
{
    if kind::is_small(b) {
        return true;
    }
    if kind::is_capital(b) {
        return false;
    }
    !kind::is_digit(b)
}

// Whether every character of a text is of the class.
fn is_every<C: Class>(s: &[u8]) -> bool
    ensures { result ≡ every C.class s.now }
{
    for b in s {
        if !C::has(*b) {
            return false;
        }
    }
    true
}

// Whether the word is the mnemonic in its long or its short form, as `TRIG` and `trigger` are `TRIGger`.
pub fn mnemonic_compare(mnemonic: &[u8], s: &[u8]) -> bool
    ensures { result ≡ compares mnemonic.now s.now }
{
    let n = s.len();
    if mnemonic.len() < n {
        return false;
    }
    if !are_pairs::<EitherCase>(&mnemonic[..n], s) {
        return false;
    }
    if mnemonic.len() == n {
        return true;
    }
    if !is_every::<NotSmall>(&mnemonic[..n]) {
        return false;
    }
    is_every::<MayLeaveOut>(&mnemonic[n..])
}

// The place where the digits that end a mnemonic begin: 3 in `ABC123`. Its length where there are none, or nothing else.
pub fn mnemonic_split_index(mnemonic: &[u8]) -> usize
    ensures { result ≡ numeric_suffix_start mnemonic.now }
{
    for i in (0..mnemonic.len()).rev() {
        if !kind::is_digit(mnemonic[i]) {
            return i + 1;
        }
    }
    mnemonic.len()
}

// The numeric suffix that means the same as none.
fn is_one(s: &[u8]) -> bool
    ensures { result ≡ same s.now (ascii "1") }
{
    are_pairs::<Equal>(s, b"1")
}

// Whether two numeric suffixes say the same; none says 1.
pub fn is_same_numeric_suffix(x: &[u8], y: &[u8]) -> bool
    ensures { result ≡ same_numeric_suffix x.now y.now }
{
    if x.is_empty() {
        if y.is_empty() {
            return true;
        }
        return is_one(y);
    }
    if y.is_empty() {
        return is_one(x);
    }
    are_pairs::<Equal>(x, y)
}

// Whether the stem of a word is a form of the mnemonic's, and their numeric suffixes say the same.
fn match_parts(stem: &[u8], suffix: &[u8], word: &[u8], number: &[u8]) -> bool
    ensures { result ≡ matches_parts stem.now suffix.now word.now number.now }
{
    if !is_same_numeric_suffix(suffix, number) {
        return false;
    }
    mnemonic_compare(stem, word)
}

// Whether the first characters of the texts have different remainders by 32. A letter has the same one in either case, so that then the word
// does not spell the mnemonic.
fn begins_otherwise(mnemonic: &[u8], s: &[u8]) -> bool
    ensures { result ≡ begins_otherwise mnemonic.now s.now }
{
    if mnemonic.is_empty() {
        return false;
    }
    if s.is_empty() {
        return false;
    }
    mnemonic[0] % 32 != s[0] % 32
}

// Whether the word spells the mnemonic, its numeric suffix with it, as `TRIG1` spells `TRIGger`.
pub fn mnemonic_match(mnemonic: &[u8], s: &[u8]) -> bool
    ensures { result ≡ matches mnemonic.now s.now }
{
    if begins_otherwise(mnemonic, s) {
        return false;
    }
    if mnemonic_compare(mnemonic, s) {
        return true;
    }
    let m = mnemonic_split_index(mnemonic);
    let n = mnemonic_split_index(s);
    if m == mnemonic.len() {
        if n == s.len() {
            return false;
        }
        return match_parts(mnemonic, &mnemonic[m..], &s[..n], &s[n..]);
    }
    match_parts(&mnemonic[..m], &mnemonic[m..], &s[..n], &s[n..])
}
