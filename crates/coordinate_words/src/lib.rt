// The coordinates of a channel spec, written into as many lent words. Two functions, for words of either type, since C has
// both.
#![tactic(auto)]

ghost use Rattle.std.specs.Prelude.{◌≡◌};
ghost use Rattle.words.specs.Outcome.{Outcome};
ghost use Rattle.coordinate_words.specs.Coordinates.{coordinates_in, unsigned_in};

use error::ErrorCode;

// The coordinates of a spec, as many as there are words: one, two or three.
pub fn coordinates(spec: &[u8], words: &mut [i64]) -> i32
    ensures { record { code = result; words = words.new } ≡ coordinates_in spec.now words.old }
{
    if words.len() == 1 {
        match coordinate::read_coordinate(spec) {
            Ok(first) => {
                words[0] = first;
                return 0;
            }
            Err(e) => return e.get_code(),
        }
    }
    if words.len() == 2 {
        match coordinate::read_pair(spec) {
            Ok((first, second)) => {
                words[0] = first;
                words[1] = second;
                return 0;
            }
            Err(e) => return e.get_code(),
        }
    }
    if words.len() == 3 {
        match coordinate::read_triple(spec) {
            Ok((first, second, third)) => {
                words[0] = first;
                words[1] = second;
                words[2] = third;
                return 0;
            }
            Err(e) => return e.get_code(),
        }
    }
    ErrorCode::NoSlotLeft.get_code()
}

// As `coordinates`, and refuses a negative coordinate with -224.
pub fn unsigned_coordinates(spec: &[u8], words: &mut [u64]) -> i32
    ensures { record { code = result; words = words.new } ≡ unsigned_in spec.now words.old }
{
    if words.len() == 1 {
        match unsigned_coordinate::read_unsigned_coordinate(spec) {
            Ok(a) => {
                words[0] = a;
                return 0;
            }
            Err(e) => return e.get_code(),
        }
    }
    if words.len() == 2 {
        match unsigned_coordinate::read_unsigned_pair(spec) {
            Ok((a, b)) => {
                words[0] = a;
                words[1] = b;
                return 0;
            }
            Err(e) => return e.get_code(),
        }
    }
    if words.len() == 3 {
        match unsigned_coordinate::read_unsigned_triple(spec) {
            Ok((a, b, c)) => {
                words[0] = a;
                words[1] = b;
                words[2] = c;
                return 0;
            }
            Err(e) => return e.get_code(),
        }
    }
    ErrorCode::NoSlotLeft.get_code()
}
