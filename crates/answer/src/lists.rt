// The answers of the list readers as text.
use crate::output::Output;
use channel_spec::{ChannelSpec, Item};
use error::ErrorCode;
use std::fmt::Display;
use std::io;
use std::io::Write;
use token::View;

// The items of a channel list; `none` for a text that is not one. A text of n bytes gives at most n items before the end of
// the list or a refusal, so n + 1 turns are enough.
pub(crate) fn put_channels(text: &[u8], out: &mut Output) -> io::Result<()> {
    let Some(front) = channel_list::new(text) else {
        return out.write_all(b"none\n");
    };
    let mut state = front;
    for _ in 0..=text.len() {
        let step = channel_list::next(text, state);
        state = step.state;
        match step.answer {
            channel_list::Answer::Token(token) => {
                put_channel(text, token, out)?;
                put_place(state.place, out)?;
            }
            channel_list::Answer::End => return writeln!(out, "end @{}", state.place),
            channel_list::Answer::Refused(e) => return put_refused(e, out),
        }
    }
    Ok(())
}

// The items of a numeric list, in as many turns.
pub(crate) fn put_numbers(text: &[u8], out: &mut Output) -> io::Result<()> {
    let mut state = numeric_list::new();
    for _ in 0..=text.len() {
        let step = numeric_list::next(text, state);
        state = step.state;
        match step.answer {
            numeric_list::Answer::Token(token) => {
                put_numeric(token, out)?;
                put_place(state.place, out)?;
            }
            numeric_list::Answer::End => return out.write_all(b"end\n"),
            numeric_list::Answer::Refused(e) => return put_refused(e, out),
        }
    }
    Ok(())
}

// An item of a channel list.
fn put_channel(text: &[u8], token: channel_list::Token, out: &mut Output) -> io::Result<()> {
    match token {
        channel_list::Token::ChannelSpec(spec) => {
            out.write_all(b"spec ")?;
            put_spec(text, spec, out)
        }
        channel_list::Token::ChannelRange(begin, end) => {
            out.write_all(b"range ")?;
            put_spec(text, begin, out)?;
            out.write_all(b" to ")?;
            put_spec(text, end, out)
        }
        channel_list::Token::PathName(view) => put_view(b"path ", view, out),
    }
}

// An item of a numeric list.
fn put_numeric(token: numeric_list::Token, out: &mut Output) -> io::Result<()> {
    match token {
        numeric_list::Token::Numeric(view) => put_view(b"number ", view, out),
        numeric_list::Token::NumericRange(begin, end) => {
            put_view(b"range number ", begin, out)?;
            put_view(b" to number ", end, out)
        }
    }
}

// A word and a view: `start..end`. Here and below words are added as they are, since what is formatted costs more.
fn put_view(word: &[u8], view: View, out: &mut Output) -> io::Result<()> {
    out.write_all(word)?;
    write!(out, "{}..{}", view.start, view.end)
}

// The place after an item, and what comes before the next part.
fn put_place(place: usize, out: &mut Output) -> io::Result<()> {
    write!(out, " @{place} | ")
}

// The last part, at a refusal.
pub(crate) fn put_refused(e: ErrorCode, out: &mut Output) -> io::Result<()> {
    writeln!(out, "refused {}", e.get_code())
}

// All that is said of a spec: `(start,len,dim) items [a,b,..] i X u X ii X uu X iii X uuu X`.
fn put_spec(text: &[u8], spec: ChannelSpec, out: &mut Output) -> io::Result<()> {
    let part = token::part(text, spec.view);
    write!(
        out,
        "({},{},{}) items [",
        spec.view.start,
        part.len(),
        spec.dimension
    )?;
    put_items(part, out)?;
    put_coordinates(part, out)
}

// `a,b,..]`: the walk of a spec, up to its end or a refusal. It takes n + 1 turns, as a list does.
fn put_items(part: &[u8], out: &mut Output) -> io::Result<()> {
    let mut place = 0;
    for _ in 0..=part.len() {
        let step = channel_spec::next(part, place);
        match step.item {
            Item::Value(n) => {
                put_comma(place, out)?;
                write!(out, "{n}")?;
                place = step.place;
            }
            Item::End => return out.write_all(b"]"),
            Item::Refused(e) => {
                put_comma(place, out)?;
                put_refusal(e, out)?;
                return out.write_all(b"]");
            }
        }
    }
    Ok(())
}

// A comma, but none before the first item of a walk.
fn put_comma(place: usize, out: &mut Output) -> io::Result<()> {
    if place == 0 {
        return Ok(());
    }
    out.write_all(b",")
}

// A spec taken as one, two and three coordinates.
fn put_coordinates(part: &[u8], out: &mut Output) -> io::Result<()> {
    put_one(b" i ", coordinate::read_coordinate(part), out)?;
    put_one(
        b" u ",
        unsigned_coordinate::read_unsigned_coordinate(part),
        out,
    )?;
    put_two(b" ii ", coordinate::read_pair(part), out)?;
    put_two(b" uu ", unsigned_coordinate::read_unsigned_pair(part), out)?;
    put_three(b" iii ", coordinate::read_triple(part), out)?;
    put_three(
        b" uuu ",
        unsigned_coordinate::read_unsigned_triple(part),
        out,
    )
}

// A word, and the coordinate that was read.
fn put_one<T: Display + Drop>(
    word: &[u8],
    read: Result<T, ErrorCode>,
    out: &mut Output,
) -> io::Result<()> {
    out.write_all(word)?;
    match read {
        Ok(a) => write!(out, "{a}"),
        Err(e) => put_refusal(e, out),
    }
}

// A word, and the two coordinates that were read.
fn put_two<T: Display + Drop>(
    word: &[u8],
    read: Result<(T, T), ErrorCode>,
    out: &mut Output,
) -> io::Result<()> {
    out.write_all(word)?;
    match read {
        Ok((a, b)) => write!(out, "({a},{b})"),
        Err(e) => put_refusal(e, out),
    }
}

// A word, and the three coordinates that were read.
fn put_three<T: Display + Drop>(
    word: &[u8],
    read: Result<(T, T, T), ErrorCode>,
    out: &mut Output,
) -> io::Result<()> {
    out.write_all(word)?;
    match read {
        Ok((a, b, c)) => write!(out, "({a},{b},{c})"),
        Err(e) => put_refusal(e, out),
    }
}

// The number of a refusal that stands in the place of a value: `!-170`.
fn put_refusal(e: ErrorCode, out: &mut Output) -> io::Result<()> {
    write!(out, "!{}", e.get_code())
}
