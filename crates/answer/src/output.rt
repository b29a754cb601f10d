// The answers on their way to standard output.
ghost use Rattle.std.specs.Prelude.{◌≡◌, ◌≤◌};

use std::io;
use std::io::{Print, Stdout, Write};

// The answers that wait, at the front of a buffer, and where they go.
#[derive(Drop)]
pub(crate) struct Output {
    waiting: [u8; 65536],
    used: usize,
    to: Stdout,
    ghost fits: { used ≤ 65536 },
}

impl Output {
    // Nothing waits yet.
    pub(crate) fn new(to: Stdout) -> Self {
        Output {
            waiting: [0; 65536],
            used: 0,
            to,
        }
    }
}

impl Write for Output {
    // Adds all of an answer, or of a part of one, to what waits.
    fn write(&mut self, answer: &[u8]) -> io::Result<usize> {
        self.write_all(answer)?;
        Ok(answer.len())
    }

    // Writes out what waits.
    fn flush(&mut self) -> io::Result<()> {
        let used = self.used;
        self.used = 0;
        let waiting = &self.waiting[..];
        self.to.write_all(&waiting[..used])
    }

    // What waits is written out first where there is no room for the answer.
    fn write_all(&mut self, answer: &[u8]) -> io::Result<()> {
        if self.waiting.len() - self.used < answer.len() {
            self.flush()?;
        }
        let used = self.used;
        if self.waiting.len() - used < answer.len() {
            return self.to.write_all(answer);
        }
        let end = used + answer.len();
        let waiting = &mut self.waiting[..];
        waiting[used..end].copy_from_slice(answer);
        self.used = end;
        Ok(())
    }
}
