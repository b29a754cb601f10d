// What the forms of program data share, IEEE 488.2 7.7, and words: the mnemonic of a header, 7.6.1, and character data, 7.7.1.
#![tactic(auto)]

ghost use Rattle.std.specs.Prelude.{◌≡◌};
ghost use Rattle.kind.specs.Class.{in_mnemonic};
ghost use Rattle.item.specs.Follow.{ends_data, followed};
ghost use Rattle.item.specs.Near.{near_end, run_end_among};
ghost use Rattle.item.specs.Word.{star_end, mnemonic, character_data};

use error::ErrorCode;
use kind::Class;
use token::{Token, View};

// Mnemonics, character data and suffixes have at most so many bytes, a star counted.
pub const LONGEST_MNEMONIC: usize = 12;

// So many bytes tell one of the longest from one that is too long.
const NEAR: usize = 13;

// A token and the place behind it, with the white space behind an item of data passed; or a refusal.
pub type Read = Result<(Token, usize), ErrorCode>;

// 7.6.1: a mnemonic, a star before it or not.
pub fn read_mnemonic(s: &[u8], at: usize) -> Read
    ensures { result ≡ mnemonic s.now at }
{
    let end = near_run_end::<InMnemonic>(s, star_end(s, at));
    if LONGEST_MNEMONIC < end - at {
        return Err(ErrorCode::ProgramMnemonicTooLong);
    }
    Ok((Token::ProgramMnemonic(View { start: at, end }), end))
}

// 7.7.1: character data.
pub fn read_character_data(s: &[u8], at: usize) -> Read
    ensures { result ≡ character_data s.now at }
{
    let end = near_run_end::<InMnemonic>(s, at);
    if LONGEST_MNEMONIC < end - at {
        return Err(ErrorCode::CharacterDataTooLong);
    }
    skip_ws_to_separator(
        s,
        end,
        Token::CharacterProgramData(View { start: at, end }),
        ErrorCode::InvalidCharacterData,
    )
}

// A token of data that ends at a place: behind it white space, and then the end of the text, `,` or `;`.
pub fn skip_ws_to_separator(s: &[u8], end: usize, token: Token, otherwise: ErrorCode) -> Read
    ensures { result ≡ followed token otherwise s.now end }
{
    let next = util::skip_ws(s, end);
    if ends_data(s, next) {
        return Ok((token, next));
    }
    Err(otherwise)
}

// Whether an item of data may end before a place.
fn ends_data(s: &[u8], at: usize) -> bool
    ensures { result ≡ ends_data s.now at }
{
    if s.len() <= at {
        return true;
    }
    if s[at] == b',' {
        return true;
    }
    s[at] == b';'
}

// The place behind a star, where one stands at the place.
fn star_end(s: &[u8], at: usize) -> usize
    ensures { result ≡ star_end s.now at }
{
    if s.len() <= at {
        return at;
    }
    if s[at] == b'*' {
        return at + 1;
    }
    at
}

// The class of what may stand in a mnemonic after its first letter.
struct InMnemonic;

impl Class for InMnemonic {
    ghost class = { in_mnemonic };

    fn has(b: u8) -> bool {
        kind::in_mnemonic(b)
    }
}

// The place after the characters of a class that begin at a place, of 13 at most.
pub fn near_run_end<C: Class>(s: &[u8], at: usize) -> usize
    ensures { result ≡ run_end_among 13 C.class s.now at }
{
    let limit = near_end(s, at);
    for end in at..limit {
        if !C::has(s[end]) {
            return end;
        }
    }
    at.max(limit)
}

// The place 13 bytes on, or the end of the text where that comes first.
pub fn near_end(s: &[u8], at: usize) -> usize
    ensures { result ≡ near_end s.now at }
{
    if s.len() <= at {
        return s.len();
    }
    if s.len() - at < NEAR {
        return s.len();
    }
    at + NEAR
}
