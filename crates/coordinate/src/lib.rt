// The coordinates of a channel, SCPI-99 8.3.2. A spec is given as its part of the text, and its `!` are counted there.
// expression/channel_list.rs of the original.
#![tactic(auto)]

ghost use Rattle.std.specs.Prelude.{◌≡◌, ltb, drop};
ghost use Rattle.channel_spec.specs.Spec.{bangs};
ghost use Rattle.coordinate.specs.Coordinate.{coordinate_of, written, pair_of, triple_of};
ghost use Rattle.coordinate.specs.Reading.{no_coordinate, joined_at, last_of};

use error::ErrorCode;

// The one coordinate of a spec. One is no row of one: it may be followed by what no integer has, and is refused by other numbers, so that no
// function of their count reads all three.
pub fn read_coordinate(spec: &[u8]) -> Result<i64, ErrorCode>
    ensures { result ≡ coordinate_of spec.now }
{
    match integer::read_signed(spec, 0) {
        Ok((value, end)) => {
            if has_bang(spec, end) {
                return Err(ErrorCode::InvalidExpression);
            }
            Ok(value)
        }
        Err(_) => no_coordinate(spec),
    }
}

// What is said of a spec that begins with no integer.
fn no_coordinate(spec: &[u8]) -> Result<i64, ErrorCode>
    ensures { result ≡ no_coordinate spec.now }
{
    if has_bang(spec, 0) {
        return Err(ErrorCode::InvalidExpression);
    }
    Err(ErrorCode::ExpressionError)
}

// Whether a `!` stands at a place or behind it.
fn has_bang(spec: &[u8], at: usize) -> bool
    ensures { result ≡ ltb 0 (bangs (drop at spec.now)) }
{
    for i in at..spec.len() {
        if spec[i] == b'!' {
            return true;
        }
    }
    false
}

// The two coordinates of a spec.
pub fn read_pair(spec: &[u8]) -> Result<(i64, i64), ErrorCode>
    ensures { result ≡ pair_of (written spec.now) }
{
    read_pair_from(spec, 0)
}

// The three coordinates of a spec.
pub fn read_triple(spec: &[u8]) -> Result<(i64, i64, i64), ErrorCode>
    ensures { result ≡ triple_of (written spec.now) }
{
    let (first, next) = read_joined(spec, 0).ok_or(ErrorCode::ExpressionError)?;
    let (second, third) = read_pair_from(spec, next)?;
    Ok((first, second, third))
}

// Two integers joined by `!`, from a place up to the end of the text.
fn read_pair_from(spec: &[u8], at: usize) -> Result<(i64, i64), ErrorCode>
    ensures { result ≡ pair_of (written (drop at spec.now)) }
{
    let (first, next) = read_joined(spec, at).ok_or(ErrorCode::ExpressionError)?;
    let second = read_last(spec, next).ok_or(ErrorCode::ExpressionError)?;
    Ok((first, second))
}

// The integer that begins at a place, where a `!` follows it, and the place after that.
fn read_joined(spec: &[u8], at: usize) -> Option<(i64, usize)>
    ensures { result ≡ joined_at spec.now at }
{
    let (value, end) = integer::read_signed(spec, at).ok()?;
    if util::stands(spec, end, b'!') {
        return Some((value, end + 1));
    }
    None
}

// The integer that begins at a place, where the text ends behind it.
fn read_last(spec: &[u8], at: usize) -> Option<i64>
    ensures { result ≡ last_of (written (drop at spec.now)) }
{
    let (value, end) = integer::read_signed(spec, at).ok()?;
    if end < spec.len() {
        return None;
    }
    Some(value)
}
