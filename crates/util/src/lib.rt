// Runs that the readers pass over. tokenizer/util.rs of the original.
#![tactic(auto)]

ghost use Rattle.std.specs.Prelude.{◌≡◌};
ghost use Rattle.kind.specs.Class.{is_white_space, is_digit, is_small};
ghost use Rattle.util.specs.Run.{run_end, sign_end, stands_at, least};

use kind::{Class, Digit, Small, WhiteSpace};

// The place after the characters of a class that begin at a place.
pub fn run_end<C: Class>(s: &[u8], at: usize) -> usize
    ensures { result ≡ run_end C.class s.now at }
{
    for i in at..s.len() {
        if !C::has(s[i]) {
            return i;
        }
    }
    at.max(s.len())
}

// The place behind the white space that begins at a place.
pub fn skip_ws(s: &[u8], at: usize) -> usize
    ensures { result ≡ run_end is_white_space s.now at }
{
    run_end::<WhiteSpace>(s, at)
}

// The place behind the digits that begin at a place.
pub fn skip_digits(s: &[u8], at: usize) -> usize
    ensures { result ≡ run_end is_digit s.now at }
{
    run_end::<Digit>(s, at)
}

// The place behind the small letters that begin at a place.
pub fn skip_small(s: &[u8], at: usize) -> usize
    ensures { result ≡ run_end is_small s.now at }
{
    run_end::<Small>(s, at)
}

// The place behind a sign, where one stands at the place.
pub fn skip_sign(s: &[u8], at: usize) -> usize
    ensures { result ≡ sign_end s.now at }
{
    if s.len() <= at {
        return at;
    }
    if kind::is_sign(s[at]) {
        return at + 1;
    }
    at
}

// Whether a byte stands at a place.
pub fn stands(s: &[u8], at: usize, b: u8) -> bool
    ensures { result ≡ stands_at b s.now at }
{
    at < s.len() && s[at] == b
}

// The smaller of two numbers.
pub fn least(a: usize, b: usize) -> usize
    ensures { result ≡ least a b }
{
    a.min(b)
}
