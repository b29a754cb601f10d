// The unsigned forms of a channel's coordinates: those of `coordinate`, none a negative. expression/channel_list.rs of the original.
// One, two and three are read by three functions, as there.
#![tactic(auto)]

ghost use Rattle.std.specs.Prelude.{◌≡◌, Ok};
ghost use Rattle.coordinate.specs.Coordinate.{coordinate_of, written, pair_of, triple_of};
ghost use Rattle.unsigned_coordinate.specs.Unsigned.{unsigned_of, unsigned_pair_of, unsigned_triple_of};

use error::ErrorCode;

// The one coordinate of a spec, which is no negative.
pub fn read_unsigned_coordinate(spec: &[u8]) -> Result<u64, ErrorCode>
    ensures { result ≡ unsigned_of (coordinate_of spec.now) }
{
    unsigned(coordinate::read_coordinate(spec)?)
}

// The two coordinates of a spec, neither a negative.
pub fn read_unsigned_pair(spec: &[u8]) -> Result<(u64, u64), ErrorCode>
    ensures { result ≡ unsigned_pair_of (pair_of (written spec.now)) }
{
    let (first, second) = coordinate::read_pair(spec)?;
    Ok((unsigned(first)?, unsigned(second)?))
}

// The three coordinates of a spec, none a negative.
pub fn read_unsigned_triple(spec: &[u8]) -> Result<(u64, u64, u64), ErrorCode>
    ensures { result ≡ unsigned_triple_of (triple_of (written spec.now)) }
{
    let (first, second, third) = coordinate::read_triple(spec)?;
    Ok((unsigned(first)?, unsigned(second)?, unsigned(third)?))
}

// A coordinate that is no negative.
fn unsigned(value: i64) -> Result<u64, ErrorCode>
    ensures { result ≡ unsigned_of (Ok value) }
{
    match u64::try_from(value) {
        Ok(value) => Ok(value),
        Err(_) => Err(ErrorCode::IllegalParameterValue),
    }
}
