// Names of the node table: which texts are names, and which names share a spelling.
#![tactic(auto)]

ghost use Rattle.std.specs.Prelude.{◌≡◌};
ghost use Rattle.kind.specs.Class.{is_capital};
ghost use Rattle.util.specs.Decides.{Decides};
ghost use Rattle.util.specs.Run.{run, run_end};
ghost use Rattle.mnemonic.specs.Mnemonic.{not_small};
ghost use Rattle.mnemonic.specs.Spelling.{Name};
ghost use Rattle.name.specs.Parts.{names_from};
ghost use Rattle.name.specs.Share.{form_of, shares};

use kind::Capital;

// Whether a text is a name: perhaps a star, then capitals, small letters, and digits that do not start with 0.
pub fn is_name(s: &[u8]) -> bool
    ensures { Decides (Name s.now) result }
{
    if util::stands(s, 0, b'*') {
        return is_name_from(s, 1);
    }
    is_name_from(s, 0)
}

// Whether some word spells both names.
pub fn is_spelling_shared(a: &[u8], b: &[u8]) -> bool
    ensures { result ≡ shares a.now b.now }
{
    let m = mnemonic::mnemonic_split_index(a);
    let n = mnemonic::mnemonic_split_index(b);
    if !mnemonic::is_same_numeric_suffix(&a[m..], &b[n..]) {
        return false;
    }
    has_form(&a[..m], &b[..n])
}

// Whether the letters of a name, or its capitals alone, are a form of the mnemonic.
fn has_form(mnemonic: &[u8], letters: &[u8]) -> bool
    ensures { result ≡ form_of mnemonic.now letters.now }
{
    if mnemonic::mnemonic_compare(mnemonic, letters) {
        return true;
    }
    let short = short_end(letters);
    if short == letters.len() {
        return false;
    }
    mnemonic::mnemonic_compare(mnemonic, &letters[..short])
}

// The place where the small letters begin.
fn short_end(s: &[u8]) -> usize
    ensures { result ≡ run not_small s.now }
{
    for i in 0..s.len() {
        if kind::is_small(s[i]) {
            return i;
        }
    }
    s.len()
}

// Whether capitals, small letters and digits are all that stands from a place on.
fn is_name_from(s: &[u8], at: usize) -> bool
    ensures { result ≡ names_from s.now at }
{
    let capitals = util::run_end::<Capital>(s, at);
    if capitals <= at {
        return false;
    }
    let letters = util::skip_small(s, capitals);
    if util::stands(s, letters, b'0') {
        return false;
    }
    util::skip_digits(s, letters) == s.len()
}
