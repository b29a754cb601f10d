// Reading a request line: its fields, and the bytes that a field in hex says.
#![tactic(auto)]

ghost use Rattle.std.specs.Prelude.{◌≡◌, ◌↔◌, true, ◌+◌, ◌/◌, ◌<◌, ◌≤◌, All, IsTrue, length};
ghost use Rattle.integer.specs.Digit.{digit_of};
ghost use Rattle.request.specs.Field.{is_ink, field_at};
ghost use Rattle.request.specs.Hex.{are_pairs, bytes_of, is_dash};
ghost use Rattle.request.specs.Unhex.{Outcome, unhexed, written};

mod table_text;

use integer::digit_value;
use kind::{Class, is_white_space};
pub use table_text::{read_number, read_words, slash};
use util::{run_end, skip_ws};

// A part of a line, from its start up to its end.
#[derive(Clone, Copy)]
pub struct Part {
    pub start: usize,
    pub end: usize,
}

// The next field from a place on, up to the white space behind it or the end of the line. Where no field is
// left, it is empty.
pub fn field(line: &[u8], at: usize) -> Part
    ensures { result ≡ field_at line.now at }
{
    let start = skip_ws(line, at);
    Part {
        start,
        end: run_end::<Ink>(line, start),
    }
}

// The class of what is no white space.
struct Ink;

impl Class for Ink {
    ghost class = { is_ink };

    fn has(b: u8) -> bool {
        !is_white_space(b)
    }
}

// Writes the bytes that the hex digits of a part of the line say into a buffer, from a place on, and answers the
// place after them. `-` is the empty text. What is no part of the line, no hex, or too long for the buffer writes
// nothing.
pub fn unhex(line: &[u8], part: Part, out: &mut [u8], at: usize) -> Option<usize>
    ensures { (record { says = result; slots = out.new }) ≡ unhexed line.now part.start part.end out.old at }
{
    let hex = line.get(part.start..part.end)?;
    let room = out.len().checked_sub(at)?;
    if is_dash(hex) {
        return Some(at);
    }
    if !are_pairs(hex) || room < hex.len() / 2 {
        return None;
    }
    Some(write_bytes(hex, out, at))
}

// Whether a text is `-` alone.
fn is_dash(s: &[u8]) -> bool
    ensures { result ≡ is_dash s.now }
{
    s == b"-".as_slice()
}

// Whether a text is pairs of hex digits.
fn are_pairs(hex: &[u8]) -> bool
    ensures { result ≡ are_pairs hex.now }
{
    hex.len() % 2 == 0 && are_digits(hex)
}

// Whether a text is hex digits.
fn are_digits(hex: &[u8]) -> bool
    ensures { IsTrue result ↔ All (λ b. digit_of b < 16) hex.now }
{
    hex.iter().all(|b| digit_value(*b) < 16)
}

// Writes the byte of each pair, and answers the place behind the last.
fn write_bytes(hex: &[u8], out: &mut [u8], at: usize) -> usize
    requires { (at + length hex.now / 2 ≤ length out.old) × (are_pairs hex.now ≡ true) }
    ensures { (record { says = Some result; slots = out.new }) ≡ written out.old at (bytes_of hex.now) }
{
    let end = at + hex.len() / 2;
    for (i, slot) in out[at..end].iter_mut().enumerate() {
        *slot = digit_value(hex[2 * i]) * 16 + digit_value(hex[2 * i + 1]);
    }
    end
}
