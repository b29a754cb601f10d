// Texts written to a line, each behind the one before it.
ghost use Rattle.std.specs.Prelude.{◌≡◌, ◌+◌, ◌≤◌, length};
ghost use Rattle.report.specs.Added.{Adds};
ghost use Rattle.report.specs.Number.{decimal, signed};

// A line that is written to a buffer from its front on, and how many bytes it has.
#[derive(Drop)]
pub(crate) struct Line<'a> {
    pub(crate) bytes: &'a mut [u8; 128],
    pub(crate) len: usize,
}

impl Line<'_> {
    // Adds a text.
    pub(crate) fn add(&mut self, text: &[u8])
        requires { self.old.len + length text.now ≤ 128 }
        ensures { Adds self.old text.now self.new × (self.new.len ≡ self.old.len + length text.now) }
    {
        let end = self.len + text.len();
        let bytes = &mut *self.bytes;
        bytes[self.len..end].copy_from_slice(text);
        self.len = end;
    }

    // Adds a number in decimal, of 20 digits at most; by `io::decimal`, since the exact bytes are promised.
    pub(crate) fn add_number(&mut self, n: u64)
        requires { self.old.len + 20 ≤ 128 }
        ensures { Adds self.old (decimal n) self.new × (self.new.len ≤ self.old.len + 20) }
    {
        let mut digits = [0u8; 20];
        let count = io::decimal(n, &mut digits);
        self.add(&digits[..count]);
    }

    // Adds a number in decimal, with a minus in front where it is below zero.
    pub(crate) fn add_signed(&mut self, n: i32)
        requires { self.old.len + 21 ≤ 128 }
        ensures { Adds self.old (signed n) self.new × (self.new.len ≤ self.old.len + 21) }
    {
        if n < 0 {
            self.add(b"-");
        }
        self.add_number(integer::magnitude(i64::from(n)));
    }
}
