// Reading the table of a request line, and the numbers of its other fields.
ghost use Rattle.std.specs.Prelude.{◌≡◌};
ghost use Rattle.request.specs.Slash.{is_other, slash_at};
ghost use Rattle.request.specs.Number.{number_of, number_in};
ghost use Rattle.request.specs.Words.{pieces, written, words_in};

use crate::{Part, is_dash};
use integer::Radix;
use kind::Class;
use util::run_end;

// The place of the first `/` of a part of the line. Where there is none, the end of what was looked through.
pub fn slash(line: &[u8], part: Part) -> usize
    ensures { result ≡ slash_at line.now part.start part.end }
{
    let end = part.end.min(line.len());
    run_end::<NotSlash>(&line[..end], part.start)
}

// The class of any byte but `/`.
struct NotSlash;

impl Class for NotSlash {
    ghost class = { is_other 47 };

    fn has(b: u8) -> bool {
        b != b'/'
    }
}

// The decimal number that a part of the line is.
pub fn read_number(line: &[u8], part: Part) -> Option<u64>
    ensures { result ≡ number_in line.now part.start part.end }
{
    whole_number(line.get(part.start..part.end)?)
}

// The decimal number that a text is.
fn whole_number(s: &[u8]) -> Option<u64>
    ensures { result ≡ number_of s.now }
{
    let (value, end) = integer::read_unsigned(s, 0, Radix::Decimal).ok()?;
    if end < s.len() {
        return None;
    }
    Some(value)
}

// Writes the decimal numbers that a part of the line joins by commas into a buffer, from its front on, and answers
// how many there are. `-` says no word. Words that find no room are counted and not kept. Of what is bad, the words
// before its first fault are written.
pub fn read_words(line: &[u8], part: Part, out: &mut [u64]) -> Option<usize>
    ensures { (record { says = result; slots = out.new }) ≡ words_in line.now part.start part.end out.old }
{
    let words = line.get(part.start..part.end)?;
    if is_dash(words) {
        return Some(0);
    }
    write_words(words, out)
}

// Writes the words of a text, one after the other.
fn write_words(s: &[u8], out: &mut [u64]) -> Option<usize>
    ensures { (record { says = result; slots = out.new }) ≡ written out.old (pieces s.now) }
{
    let mut n = 0;
    for piece in s.split(|b| *b == b',') {
        let word = whole_number(piece)?;
        if n < out.len() {
            out[n] = word;
        }
        n += 1;
    }
    Some(n)
}
