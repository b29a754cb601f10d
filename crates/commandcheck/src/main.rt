// Reads a message from standard input, and prints a line for each of its units.
#![tactic(auto)]

mod nodes;

ghost use Rattle.std.specs.Prelude.{◌≤◌, length, IfOk};

use error::ErrorCode;
use nodes::{names, nodes};
use report::Told;
use std::io;
use std::io::{Print, Read, Stdin, Stdout};

// The buffer of a message, and the slots of its records.
type Text = [u8; 4096];

type Slots = [u64; 2048];

fn main(rt: HostRuntime) {
    let mut text = [0u8; 4096];
    let mut slots = [0u64; 2048];
    if check(rt, &mut text, &mut slots).is_err() {
        // The program ends here, also where this can not be written.
        let _ = put_error(rt, b"commandcheck: standard output can not be written\n");
    }
}

// Writes to standard error.
fn put_error(rt: HostRuntime, line: &[u8]) -> io::Result<()> {
    rt.stderr().write_all(line)
}

// Fails where a write does.
fn check(rt: HostRuntime, text: &mut Text, slots: &mut Slots) -> io::Result<()> {
    let out = rt.stdout();
    match read_text(rt.stdin(), text) {
        Ok(n) => put_message(out, &text[..n], slots),
        Err(InputError::TooLong) => put_too_long(out),
        Err(InputError::Failed) => {
            put_error(rt, b"commandcheck: standard input can not be read\n")
        }
    }
}

// Why standard input gives no message.
#[derive(Clone, Copy)]
enum InputError {
    TooLong,
    Failed,
}

impl From<io::Error> for InputError {
    fn from(_e: io::Error) -> InputError {
        InputError::Failed
    }
}

// Reads until the input ends or the buffer is full, and answers how many bytes the message has.
fn read_text(mut input: Stdin, text: &mut [u8]) -> Result<usize, InputError>
    ensures { IfOk result (λ n. n ≤ length text.new) }
{
    let mut held = 0;
    while held < text.len() {
        let n = input.read(&mut text[held..])?;
        if n == 0 {
            return Ok(held);
        }
        held += n;
    }
    end(input)?;
    Ok(held)
}

// Behind a full buffer the input ends, or is too long.
fn end(mut input: Stdin) -> Result<(), InputError> {
    let mut beyond = [0u8; 1];
    if input.read(&mut beyond)? == 0 {
        Ok(())
    } else {
        Err(InputError::TooLong)
    }
}

// Walks the message from the root of the table.
fn put_message(out: Stdout, text: &[u8], slots: &mut Slots) -> io::Result<()> {
    let walked = message::walk(&nodes(), &names(), 0, text, slots);
    put_title(out)?;
    match walked {
        Ok(units) => {
            put_units(out, &slots[..units])?;
            put_line(out, Told::End(units))
        }
        Err(stopped) => {
            put_units(out, &slots[..stopped.units])?;
            put_line(
                out,
                Told::Refused {
                    number: stopped.units + 1,
                    error: stopped.error,
                },
            )
        }
    }
}

fn put_too_long(out: Stdout) -> io::Result<()> {
    put_title(out)?;
    put_line(
        out,
        Told::Refused {
            number: 1,
            error: ErrorCode::MessageTooLong,
        },
    )
}

fn put_title(out: Stdout) -> io::Result<()> {
    out.write_all(b"unit command kind items branch\n")
}

// A line for each unit that was read.
fn put_units(out: Stdout, slots: &[u64]) -> io::Result<()> {
    for (i, slot) in slots.iter().enumerate() {
        put_line(
            out,
            Told::Unit {
                number: i + 1,
                unit: record::unpack(*slot),
            },
        )?;
    }
    Ok(())
}

// Writes one line.
fn put_line(out: Stdout, told: Told) -> io::Result<()> {
    let mut line = [0u8; 128];
    let n = report::walk_line(told, &mut line);
    out.write_all(&line[..n])
}
