// Whole numbers in the four radices of the standard. They are read by value, so that leading zeros never make one too large.
ghost use Rattle.std.specs.Prelude.{◌≡◌, true, false, Ok, ◌+◌, ◌-◌, ◌*◌, ◌/◌, ◌^◌, ◌<◌, nat_abs};
ghost use Rattle.integer.specs.Digit.{digit_of};
ghost use Rattle.integer.specs.Number.{base_of, found_at, longer, unsigned_at, signed_of, signed_at};

// How a number is written.
#[derive(Clone, Copy)]
pub enum Radix {
    Binary,
    Octal,
    Decimal,
    Hexadecimal,
}

// Why no number was read: there is no digit, or it does not fit 64 bits.
#[derive(Clone, Copy)]
pub enum NumberError {
    NoDigit,
    TooLarge,
}

// The number whose digits begin at a place, as far as they go, and the place after them.
pub fn read_unsigned(s: &[u8], at: usize, radix: Radix) -> Result<(u64, usize), NumberError>
    ensures { result ≡ unsigned_at radix s.now at }
{
    let base = base_of(radix);
    let limit = u64::MAX / base;
    let mut value = 0;
    for end in at..s.len() {
        let digit = digit_value(s[end]) as u64;
        if base <= digit {
            return found(value, at, end);
        }
        let Some(longer) = with_digit(value, digit, base, limit) else {
            return Err(NumberError::TooLarge);
        };
        value = longer;
    }
    found(value, at, at.max(s.len()))
}

// A value whose digits stand from a place up to their end.
fn found(value: u64, at: usize, end: usize) -> Result<(u64, usize), NumberError>
    ensures { result ≡ found_at value at end }
{
    if end == at {
        return Err(NumberError::NoDigit);
    }
    Ok((value, end))
}

// A value with one more digit after it, where that fits 64 bits; the limit is the largest value that has room for a digit 0.
fn with_digit(value: u64, digit: u64, base: u64, limit: u64) -> Option<u64>
    requires { (0 < base) × (limit ≡ (2 ^ 64 - 1) / base) }
    ensures { result ≡ longer (value * base + digit) }
{
    if limit < value {
        return None;
    }
    if u64::MAX - value * base < digit {
        return None;
    }
    Some(value * base + digit)
}

// The decimal number that begins at a place, with an optional sign before its digits.
pub fn read_signed(s: &[u8], at: usize) -> Result<(i64, usize), NumberError>
    ensures { result ≡ signed_at s.now at }
{
    let (value, end) = read_unsigned(s, util::skip_sign(s, at), Radix::Decimal)?;
    if util::stands(s, at, b'-') {
        negative(value, end)
    } else {
        positive(value, end)
    }
}

// A number that has no minus.
fn positive(value: u64, end: usize) -> Result<(i64, usize), NumberError>
    ensures { result ≡ signed_of false (Ok (value, end)) }
{
    match i64::try_from(value) {
        Ok(value) => Ok((value, end)),
        Err(_) => Err(NumberError::TooLarge),
    }
}

// A number that has a minus.
fn negative(value: u64, end: usize) -> Result<(i64, usize), NumberError>
    ensures { result ≡ signed_of true (Ok (value, end)) }
{
    let value = 0i64
        .checked_sub_unsigned(value)
        .ok_or(NumberError::TooLarge)?;
    Ok((value, end))
}

// A number without its sign.
pub fn magnitude(value: i64) -> u64
    ensures { result ≡ nat_abs value }
{
    value.unsigned_abs()
}

// How many digits the radix has.
fn base_of(radix: Radix) -> u64
    ensures { result ≡ base_of radix }
{
    match radix {
        Radix::Binary => 2,
        Radix::Octal => 8,
        Radix::Decimal => 10,
        Radix::Hexadecimal => 16,
    }
}

// The value of a digit of either case, and 16 for a byte that is none.
pub fn digit_value(b: u8) -> u8
    ensures { result ≡ digit_of b }
{
    if b < b'0' {
        16
    } else if b <= b'9' {
        b - b'0'
    } else if b < b'A' {
        16
    } else if b <= b'F' {
        b - b'A' + 10
    } else if b < b'a' {
        16
    } else if b <= b'f' {
        b - b'a' + 10
    } else {
        16
    }
}
