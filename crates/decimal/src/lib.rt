// Decimal numbers, IEEE 488.2 7.7.2, and their suffixes, 7.7.3.
#![tactic(auto)]

ghost use Rattle.std.specs.Prelude.{◌≡◌};
ghost use Rattle.decimal.specs.Decimal.{fraction_end, mantissa, begins_exponent, exponent, number, nrf, in_suffix, begins_suffix, suffix_data, numeric_data};

use error::ErrorCode;
use item::Read;
use kind::Class;
use token::{Token, View};

// 7.7.2: a decimal number, without what may follow it.
pub fn read_nrf(s: &[u8], at: usize) -> Read
    ensures { result ≡ nrf s.now at }
{
    let end = number_end(s, at).ok_or(ErrorCode::NumericDataError)?;
    Ok((
        Token::DecimalNumericProgramData(View { start: at, end }),
        end,
    ))
}

// 7.7.2, 7.7.3: a decimal number with an optional suffix.
pub fn read_numeric_data(s: &[u8], at: usize) -> Read
    ensures { result ≡ numeric_data s.now at }
{
    let end = number_end(s, at).ok_or(ErrorCode::NumericDataError)?;
    read_suffix_data(s, View { start: at, end })
}

// 7.7.3: what follows a number: white space and a suffix, where there is one.
fn read_suffix_data(s: &[u8], number: View) -> Read
    ensures { result ≡ suffix_data s.now number }
{
    let at = util::skip_ws(s, number.end);
    if !begins_suffix(s, at) {
        return item::skip_ws_to_separator(
            s,
            at,
            Token::DecimalNumericProgramData(number),
            ErrorCode::InvalidSuffix,
        );
    }
    let end = item::near_run_end::<InSuffix>(s, at);
    if item::LONGEST_MNEMONIC < end - at {
        return Err(ErrorCode::SuffixTooLong);
    }
    item::skip_ws_to_separator(
        s,
        end,
        Token::DecimalNumericSuffixProgramData(number, View { start: at, end }),
        ErrorCode::InvalidSuffix,
    )
}

// The class of what may stand in a suffix.
struct InSuffix;

impl Class for InSuffix {
    ghost class = { in_suffix };

    fn has(b: u8) -> bool {
        in_suffix(b)
    }
}

// What may stand in a suffix.
fn in_suffix(b: u8) -> bool
    ensures { result ≡ in_suffix b }
{
    if kind::is_letter(b) {
        return true;
    }
    if kind::is_digit(b) {
        return true;
    }
    if b == b'-' {
        return true;
    }
    if b == b'/' {
        return true;
    }
    b == b'.'
}

// Whether a suffix begins at a place.
fn begins_suffix(s: &[u8], at: usize) -> bool
    ensures { result ≡ begins_suffix s.now at }
{
    if s.len() <= at {
        return false;
    }
    if s[at] == b'/' {
        return true;
    }
    kind::is_letter(s[at])
}

// The place behind a number, where a good one begins at the place.
fn number_end(s: &[u8], at: usize) -> Option<usize>
    ensures { result ≡ number s.now at }
{
    exponent_end(s, mantissa_end(s, at)?)
}

// The place behind a sign, digits, a point and digits; nowhere, where there is no digit.
fn mantissa_end(s: &[u8], at: usize) -> Option<usize>
    ensures { result ≡ mantissa s.now at }
{
    let whole = util::skip_sign(s, at);
    let point = util::skip_digits(s, whole);
    let end = fraction_end(s, point);
    if whole < point {
        return Some(end);
    }
    if 1 < end - point {
        return Some(end);
    }
    None
}

// The place behind a point and digits, where a point stands at the place.
fn fraction_end(s: &[u8], at: usize) -> usize
    ensures { result ≡ fraction_end s.now at }
{
    if s.len() <= at {
        return at;
    }
    if s[at] != b'.' {
        return at;
    }
    util::skip_digits(s, at + 1)
}

// The place behind an exponent, where one begins at the place; nowhere, where it has no digit.
fn exponent_end(s: &[u8], at: usize) -> Option<usize>
    ensures { result ≡ exponent s.now at }
{
    if s.len() <= at {
        return Some(at);
    }
    if !begins_exponent(s[at]) {
        return Some(at);
    }
    let digits = util::skip_sign(s, at + 1);
    let end = util::skip_digits(s, digits);
    if end == digits {
        return None;
    }
    Some(end)
}

// An E of either case.
fn begins_exponent(b: u8) -> bool
    ensures { result ≡ begins_exponent b }
{
    if b == b'E' {
        return true;
    }
    b == b'e'
}
