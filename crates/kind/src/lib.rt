// The kind of a byte, and the classes of characters that the readers ask for.
#![tactic(auto)]

mod kinds;

ghost use Rattle.std.specs.Prelude.{◌≡◌, ℕ, Bool};
ghost use Rattle.kind.specs.Class.{is_white_space, is_capital, is_small, is_digit, is_letter, in_mnemonic, is_sign};
ghost use Rattle.kind.specs.Kind.{kind_of};

use kinds::KINDS;

// The kinds of bytes that the token step distinguishes. White space is the first two, letters the last two, and what may stand in a mnemonic the
// last four.
#[derive(Clone, Copy, PartialEq, Eq)]
pub enum Kind {
    Newline,
    Blank,
    Star,
    Colon,
    Question,
    Semicolon,
    Comma,
    Sign,
    Point,
    Hash,
    Quote,
    Parenthesis,
    Other,
    Beyond,
    Underscore,
    Digit,
    Small,
    Capital,
}

// The kind of a byte.
pub fn kind_of(b: u8) -> Kind
    ensures { result ≡ kind_of b }
{
    KINDS[b as usize]
}

// The classes are comparisons, each of a few instructions.

// Of the library's `is_ascii_whitespace` the compiler makes a test of bits, by which a run of blanks takes 1.4 of the instructions and half as much
// time again.
pub fn is_white_space(b: u8) -> bool
    ensures { result ≡ is_white_space b }
{
    if b' ' < b {
        return false;
    }
    if b == b' ' {
        return true;
    }
    if b < b'\t' {
        return false;
    }
    if b'\r' < b {
        return false;
    }
    b != 11
}

pub fn is_capital(b: u8) -> bool
    ensures { result ≡ is_capital b }
{
    b.is_ascii_uppercase()
}

pub fn is_small(b: u8) -> bool
    ensures { result ≡ is_small b }
{
    b.is_ascii_lowercase()
}

pub fn is_digit(b: u8) -> bool
    ensures { result ≡ is_digit b }
{
    b.is_ascii_digit()
}

pub fn is_letter(b: u8) -> bool
    ensures { result ≡ is_letter b }
{
    is_capital(b) || is_small(b)
}

// What may stand in a mnemonic behind its first letter.
pub fn in_mnemonic(b: u8) -> bool
    ensures { result ≡ in_mnemonic b }
{
    if is_letter(b) {
        return true;
    }
    if is_digit(b) {
        return true;
    }
    b == b'_'
}

pub fn is_sign(b: u8) -> bool
    ensures { result ≡ is_sign b }
{
    if b == b'+' {
        return true;
    }
    b == b'-'
}

// A class of characters, of which a run is made.
pub trait Class {
    ghost class: { ℕ → Bool };

    fn has(b: u8) -> bool
        ensures { result ≡ class b };
}

pub struct WhiteSpace;

impl Class for WhiteSpace {
    ghost class = { is_white_space };

    fn has(b: u8) -> bool {
        is_white_space(b)
    }
}

pub struct Digit;

impl Class for Digit {
    ghost class = { is_digit };

    fn has(b: u8) -> bool {
        is_digit(b)
    }
}

pub struct Small;

impl Class for Small {
    ghost class = { is_small };

    fn has(b: u8) -> bool {
        is_small(b)
    }
}

pub struct Capital;

impl Class for Capital {
    ghost class = { is_capital };

    fn has(b: u8) -> bool {
        is_capital(b)
    }
}
