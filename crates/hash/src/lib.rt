// What a `#` begins: numbers in another radix, IEEE 488.2 7.7.4, and blocks, 7.7.6.
#![tactic(auto)]

ghost use Rattle.std.specs.Prelude.{◌<◌, ◌≡◌};
ghost use Rattle.hash.specs.Nondecimal.{nondecimal_data};
ghost use Rattle.hash.specs.Block.{payload, definite, indefinite, arbitrary_data, hash_data};

use error::ErrorCode;
use integer::{NumberError, Radix};
use item::Read;
use token::{Token, View};

// What a `#` begins, from the place behind it: a number of another radix, or a block.
pub fn read_hash_data(s: &[u8], at: usize) -> Read
    ensures { result ≡ hash_data s.now at }
{
    if s.len() <= at {
        return Err(ErrorCode::BlockDataError);
    }
    let format = s[at];
    if kind::is_digit(format) {
        return read_arbitrary_data(s, at + 1, format);
    }
    match format {
        b'H' | b'h' => read_nondecimal_data(s, at + 1, Radix::Hexadecimal),
        b'Q' | b'q' => read_nondecimal_data(s, at + 1, Radix::Octal),
        b'B' | b'b' => read_nondecimal_data(s, at + 1, Radix::Binary),
        _ => Err(ErrorCode::NumericDataError),
    }
}

// 7.7.4: the digits of a number in a radix. Inline, so that the compiler reads each radix by a loop of its own.
#[inline(always)]
pub fn read_nondecimal_data(s: &[u8], at: usize, radix: Radix) -> Read
    ensures { result ≡ nondecimal_data radix s.now at }
{
    match integer::read_unsigned(s, at, radix) {
        Ok((value, end)) => item::skip_ws_to_separator(
            s,
            end,
            Token::NonDecimalNumericProgramData(value),
            ErrorCode::SuffixNotAllowed,
        ),
        Err(NumberError::TooLarge) => Err(ErrorCode::DataOutOfRange),
        Err(NumberError::NoDigit) => {
            if s.len() <= at {
                Err(ErrorCode::NumericDataError)
            } else {
                Err(ErrorCode::InvalidCharacterInNumber)
            }
        }
    }
}

// 7.7.6: a block, from the place behind the digit that says its format.
pub fn read_arbitrary_data(s: &[u8], at: usize, format: u8) -> Read
    ensures { result ≡ arbitrary_data format s.now at }
{
    if !kind::is_digit(format) {
        return Err(ErrorCode::InvalidBlockData);
    }
    if format == b'0' {
        return read_indefinite(s, at);
    }
    read_definite(s, at, (format - b'0') as usize)
}

// A block whose length is written in so many digits.
fn read_definite(s: &[u8], at: usize, digits: usize) -> Read
    requires { 0 < digits }
    ensures { result ≡ definite s.now at digits }
{
    if s.len() < at {
        return Err(ErrorCode::InvalidBlockData);
    }
    if s.len() - at < digits {
        return Err(ErrorCode::InvalidBlockData);
    }
    let start = at + digits;
    match integer::read_unsigned(&s[..start], at, Radix::Decimal) {
        Ok((value, end)) => {
            if end != start {
                return Err(ErrorCode::InvalidBlockData);
            }
            read_payload(s, start, value as usize)
        }
        Err(_) => Err(ErrorCode::InvalidBlockData),
    }
}

// So many bytes as a block.
fn read_payload(s: &[u8], start: usize, length: usize) -> Read
    ensures { result ≡ payload s.now start length }
{
    if s.len() < start {
        return Err(ErrorCode::InvalidBlockData);
    }
    if s.len() - start < length {
        return Err(ErrorCode::InvalidBlockData);
    }
    let end = start + length;
    item::skip_ws_to_separator(
        s,
        end,
        Token::ArbitraryBlockData(View { start, end }),
        ErrorCode::SuffixNotAllowed,
    )
}

// The rest of the text as a block, its last byte a newline.
fn read_indefinite(s: &[u8], at: usize) -> Read
    ensures { result ≡ indefinite s.now at }
{
    if s.len() <= at {
        return Err(ErrorCode::InvalidBlockData);
    }
    let end = s.len() - 1;
    if s[end] != b'\n' {
        return Err(ErrorCode::InvalidBlockData);
    }
    Ok((Token::ArbitraryBlockData(View { start: at, end }), s.len()))
}
