// The answers of the message walk as text.
ghost use Rattle.std.specs.Prelude.{◌≡◌, ◌+◌, ◌≤◌, take, drop};
ghost use Rattle.io.specs.Counts.{IsPrefixLen};
ghost use Rattle.report.specs.Added.{Adds};
ghost use Rattle.report.specs.Units.{pair_text, form_text, unit_text, stop_text, total_text, line_text};

use crate::write::Line;
use error::ErrorCode;
use record::Record;

// A line: a unit that was read, by its number in the message; the one that is refused; or the end, with the number of units.
#[derive(Clone, Copy)]
pub enum Told {
    Unit { number: usize, unit: Record },
    Refused { number: usize, error: ErrorCode },
    End(usize),
}

// Writes a line to the front of a buffer, and answers how many bytes it has. The rest of the buffer stays as it was.
pub fn walk_line(told: Told, line: &mut [u8; 128]) -> usize
    ensures { (IsPrefixLen result line.new) × (take result line.new ≡ line_text told) × (drop result line.new ≡ drop result line.old) }
{
    let mut text = Line {
        bytes: line,
        len: 0,
    };
    text.add_told(told);
    text.len
}

impl Line<'_> {
    // Adds the text of a line.
    fn add_told(&mut self, told: Told)
        requires { self.old.len ≡ 0 }
        ensures { Adds self.old (line_text told) self.new }
    {
        match told {
            Told::Unit { number, unit } => self.add_unit(number, unit),
            Told::Refused { number, error } => self.add_stop(number, error),
            Told::End(units) => self.add_total(units),
        }
    }

    // Adds a unit that was read.
    fn add_unit(&mut self, number: usize, unit: Record)
        requires { self.old.len ≡ 0 }
        ensures { Adds self.old (unit_text number unit) self.new }
    {
        self.add_pair(number as u64, u64::from(unit.command));
        self.add_form(unit.query);
        self.add_pair(unit.items as u64, unit.branch as u64);
        self.add(b"\n");
    }

    // Adds the unit that is refused.
    fn add_stop(&mut self, number: usize, e: ErrorCode)
        requires { self.old.len ≡ 0 }
        ensures { Adds self.old (stop_text number e) self.new }
    {
        self.add_number(number as u64);
        self.add(b" refused ");
        self.add_signed(e.get_code());
        self.add(b"\n");
    }

    // Adds the end of a message.
    fn add_total(&mut self, units: usize)
        requires { self.old.len ≡ 0 }
        ensures { Adds self.old (total_text units) self.new }
    {
        self.add(b"end ");
        self.add_number(units as u64);
        self.add(b"\n");
    }

    // Adds two numbers with a blank between them.
    fn add_pair(&mut self, first: u64, second: u64)
        requires { self.old.len + 41 ≤ 128 }
        ensures { Adds self.old (pair_text first second) self.new × (self.new.len ≤ self.old.len + 41) }
    {
        self.add_number(first);
        self.add(b" ");
        self.add_number(second);
    }

    // Adds the form of a unit.
    fn add_form(&mut self, query: bool)
        requires { self.old.len + 7 ≤ 128 }
        ensures { Adds self.old (form_text query) self.new × (self.new.len ≤ self.old.len + 7) }
    {
        if query {
            self.add(b" query ");
        } else {
            self.add(b" event ");
        }
    }
}
