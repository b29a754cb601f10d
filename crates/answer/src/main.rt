// Answers requests: a line of standard input each, and for each a line of standard output.
#![tactic(auto)]

mod fields;
mod lists;
mod messages;
mod output;
mod tables;

ghost use Rattle.std.specs.Prelude.{◌<◌, length, IfSome};
ghost use Rattle.io.specs.Counts.{IsPrefixLen};

use fields::Fields;
use lists::{put_channels, put_numbers};
use messages::walk_message;
use output::Output;
use std::io;
use std::io::{Read, Stdin, Write};
use tables::{check_table, resolve_alone};
use tokenizer::{Answer, State};

// The line that is read, up to the end of what was read of it: none where it is too long.
#[derive(Drop)]
struct Line {
    bytes: [u8; 600000],
    end: Option<usize>,
}

// What is taken from a line: the words of its table, and its texts.
#[derive(Drop)]
pub(crate) struct Store {
    pub(crate) words: [u64; 4097],
    pub(crate) text: [u8; 300000],
}

// What is kept between two reads: the line so far, room for what is taken from it, and the answers that wait.
#[derive(Drop)]
struct Session {
    line: Line,
    store: Store,
    out: Output,
}

fn main(rt: HostRuntime) {
    let mut session = Session {
        line: Line {
            bytes: [0; 600000],
            end: Some(0),
        },
        store: Store {
            words: [0; 4097],
            text: [0; 300000],
        },
        out: Output::new(rt.stdout()),
    };
    // The program ends here: a write that fails changes nothing more.
    let _ = session.answer_all(rt.stdin());
}

impl Session {
    // Nothing says that the input ends, so the turns are counted, up to a number that no run uses up.
    fn answer_all(&mut self, input: Stdin) -> io::Result<()> {
        let mut bytes = [0u8; 65536];
        for _ in 0..u64::MAX {
            let n = fill(input, &mut bytes);
            if n == 0 {
                return self.finish();
            }
            self.take_lines(&bytes[..n])?;
        }
        Ok(())
    }

    // Answers each line that ends in what was read. What follows the last newline is kept for the next time.
    fn take_lines(&mut self, input: &[u8]) -> io::Result<()> {
        let mut rest = input;
        while let Some(end) = line_end(rest) {
            self.line.keep(&rest[..end]);
            self.answer_line()?;
            rest = &rest[end + 1..];
        }
        self.line.keep(rest);
        Ok(())
    }

    // Answers the last line, where it lacks its newline, and writes out what waits.
    fn finish(&mut self) -> io::Result<()> {
        if self.line.end != Some(0) {
            self.answer_line()?;
        }
        self.out.flush()
    }

    // Answers the line, and begins the next. A line that is too long is no request.
    fn answer_line(&mut self) -> io::Result<()> {
        match self.line.text() {
            Some(line) => respond(line, &mut self.store, &mut self.out)?,
            None => refuse(&mut self.out)?,
        }
        self.line.end = Some(0);
        Ok(())
    }
}

// Reads once, and answers how many bytes came: none at the end of the input, and where the read fails.
fn fill(mut from: Stdin, input: &mut [u8]) -> usize
    ensures { IsPrefixLen result input.new }
{
    from.read(input).unwrap_or(0)
}

// The place of the first newline.
fn line_end(input: &[u8]) -> Option<usize>
    ensures { IfSome result (λ end. end < length input.now) }
{
    input.iter().position(|b| *b == b'\n')
}

impl Line {
    // Adds a part.
    fn keep(&mut self, part: &[u8]) {
        self.end = self.end.and_then(|end| copy(part, &mut self.bytes, end));
    }

    // What was read, where it is not too long.
    fn text(&self) -> Option<&[u8]> {
        self.bytes.get(..self.end?)
    }
}

// Copies a part to a place, and answers the place after it, where there is room.
fn copy(part: &[u8], to: &mut [u8], at: usize) -> Option<usize> {
    let room = to.get_mut(at..)?.get_mut(..part.len())?;
    room.copy_from_slice(part);
    Some(at + part.len())
}

// Answers a request line by its letter. The functions differ in what they take, so that no table has them.
fn respond(line: &[u8], store: &mut Store, out: &mut Output) -> io::Result<()> {
    let mut fields = Fields::new(line);
    match fields.letter() {
        Some(b'M') => names(fields, &mut store.text, out),
        Some(b'F') => check_table(fields, store, out),
        Some(b'A') => resolve_alone(fields, store, out),
        Some(b'S') => walk_message(fields, false, store, out),
        Some(b'W') => walk_message(fields, true, store, out),
        Some(letter) => respond_text(letter, fields, &mut store.text, out),
        None => refuse(out),
    }
}

// M, a name and a word: what mnemonic_match and mnemonic_compare say of them.
fn names(fields: Fields, text: &mut [u8], out: &mut Output) -> io::Result<()> {
    let Some((name, word)) = fields.names(text) else {
        return refuse(out);
    };
    let text = &text[..];
    let (name, word) = (&text[..name], &text[name..word]);
    out.write_all(&report::names(
        mnemonic::mnemonic_match(name, word),
        mnemonic::mnemonic_compare(name, word),
    ))
}

// The requests of one text, which is taken here for all of them. T and D: the tokens of a message, and of data alone.
// C and N: the items of a channel list, and of a numeric list.
fn respond_text(letter: u8, fields: Fields, text: &mut [u8], out: &mut Output) -> io::Result<()> {
    let Some(end) = fields.only_text(text) else {
        return refuse(out);
    };
    let text = &text[..end];
    match letter {
        b'T' => put_steps(text, tokenizer::new(), out),
        b'D' => put_steps(text, tokenizer::new_params(), out),
        b'C' => put_channels(text, out),
        b'N' => put_numbers(text, out),
        _ => refuse(out),
    }
}

// Adds the part of each step, up to the end of the text or a refusal. A text of n bytes gives at most n tokens or
// refusals before its end, so n + 1 turns are enough.
fn put_steps(text: &[u8], start: State, out: &mut Output) -> io::Result<()> {
    let mut state = start;
    for _ in 0..=text.len() {
        let step = tokenizer::next(text, state);
        let mut part = [0u8; 128];
        let n = report::token_part(step, &mut part);
        out.write_all(&part[..n])?;
        if !matches!(step.answer, Answer::Token(_)) {
            return Ok(());
        }
        state = step.state;
    }
    Ok(())
}

// The answer to a line that is no request.
pub(crate) fn refuse(out: &mut Output) -> io::Result<()> {
    out.write_all(b"request?\n")
}
