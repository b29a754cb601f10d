// What is taken from a request line, one field after the other.
ghost use Rattle.std.specs.Prelude.{◌≤◌, length, IfSome};

use request::Part;

// A line, and how far it is read.
#[derive(Clone, Copy)]
pub(crate) struct Fields<'a> {
    line: &'a [u8],
    at: usize,
}

impl<'a> Fields<'a> {
    // Nothing of the line is read yet.
    pub(crate) fn new(line: &'a [u8]) -> Self {
        Fields { line, at: 0 }
    }

    // The next field, where one is left.
    fn next(&mut self) -> Option<Part> {
        let part = request::field(self.line, self.at);
        self.at = part.end;
        if part.start == part.end {
            return None;
        }
        Some(part)
    }

    // The next field, where it is one byte.
    pub(crate) fn letter(&mut self) -> Option<u8> {
        let part = self.next()?;
        match self.line.get(part.start..part.end)? {
            [letter] => Some(*letter),
            _ => None,
        }
    }

    // The next field as a decimal number.
    pub(crate) fn number(&mut self) -> Option<u64> {
        request::read_number(self.line, self.next()?)
    }

    // The next field as a text in hex, which is written into a buffer from a place on: the place after it there.
    pub(crate) fn text(&mut self, out: &mut [u8], from: usize) -> Option<usize>
        ensures { IfSome result (λ end. (from ≤ end) × (end ≤ length out.new)) }
    {
        request::unhex(self.line, self.next()?, out, from)
    }

    // The next field as a table: its words, `/` and its names in hex, which are written to the front of two buffers. How
    // many words are kept, and the place after the names. Of more words than there is room for, those that fill their
    // buffer are kept.
    pub(crate) fn table(&mut self, words: &mut [u64], text: &mut [u8]) -> Option<(usize, usize)>
        ensures { IfSome result (λ t. (t.0 ≤ length words.new) × (t.1 ≤ length text.new)) }
    {
        let part = self.next()?;
        let slash = request::slash(self.line, part);
        if part.end <= slash || slash + 1 == part.end {
            return None;
        }
        let numbers = Part { end: slash, ..part };
        let names = Part {
            start: slash + 1,
            ..part
        };
        let count = request::read_words(self.line, numbers, words)?;
        let end = request::unhex(self.line, names, text, 0)?;
        Some((count.min(words.len()), end))
    }

    // Whether no field is left.
    pub(crate) fn is_done(mut self) -> bool {
        self.next().is_none()
    }

    // All that is left, as a text in hex, which is written to the front of a buffer: the place after it there.
    pub(crate) fn only_text(mut self, text: &mut [u8]) -> Option<usize>
        ensures { IfSome result (λ end. end ≤ length text.new) }
    {
        let end = self.text(text, 0)?;
        if !self.is_done() {
            return None;
        }
        Some(end)
    }

    // All that is left, as two texts in hex, the second of which is written after the first: the places after both.
    pub(crate) fn names(mut self, text: &mut [u8]) -> Option<(usize, usize)>
        ensures { IfSome result (λ t. (t.0 ≤ t.1) × (t.1 ≤ length text.new)) }
    {
        let first = self.text(text, 0)?;
        let second = self.text(text, first)?;
        if !self.is_done() {
            return None;
        }
        Some((first, second))
    }
}
