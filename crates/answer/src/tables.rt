// The requests that have a table.
ghost use Rattle.std.specs.Prelude.{◌≤◌};

use crate::fields::Fields;
use crate::lists::put_refused;
use crate::output::Output;
use crate::{Store, refuse};
use std::io;
use std::io::Write;

// The slots of a walk, unless the request names fewer.
const SLOTS: usize = 32768;

// F, a table: `accepted`, or `fault` and the number of its fault.
pub(crate) fn check_table(
    mut fields: Fields,
    store: &mut Store,
    out: &mut Output,
) -> io::Result<()> {
    let Some((nodes, names)) = fields.table(&mut store.words, &mut store.text) else {
        return refuse(out);
    };
    if !fields.is_done() {
        return refuse(out);
    }
    match table::check(&store.words[..nodes], &store.text[..names]) {
        Ok(()) => out.write_all(b"accepted\n"),
        Err(e) => writeln!(out, "fault {}", e.get_code()),
    }
}

// A, a table, a start and a header: the command that the header alone names from that branch of the table. It is
// `command N event branch B`, with `query` in the place of `event` for a query; or `refused` and its number.
pub(crate) fn resolve_alone(fields: Fields, store: &mut Store, out: &mut Output) -> io::Result<()> {
    let Some(asked) = take_asked(fields, false, store) else {
        return refuse(out);
    };
    match tree::resolve(asked.nodes, asked.names, asked.start, asked.text) {
        Ok(resolved) => writeln!(
            out,
            "command {} {} branch {}",
            resolved.command,
            form(resolved.query),
            resolved.branch
        ),
        Err(e) => put_refused(e, out),
    }
}

// The form of a command.
pub(crate) fn form(query: bool) -> &'static str {
    if query { "query" } else { "event" }
}

// A table, a start, a text, and how many slots there are.
#[derive(Clone, Copy)]
pub(crate) struct Asked<'a> {
    pub(crate) nodes: &'a [u64],
    pub(crate) names: &'a [u8],
    pub(crate) start: usize,
    pub(crate) text: &'a [u8],
    pub(crate) slots: usize,
    ghost few: { slots ≤ 32768 },
}

// Takes what is left of a line as a table, a start, the number of slots where it is asked for, and a text in hex, which is
// written behind the names.
pub(crate) fn take_asked<'a>(
    mut fields: Fields,
    slotted: bool,
    store: &'a mut Store,
) -> Option<Asked<'a>> {
    let (nodes, names) = fields.table(&mut store.words, &mut store.text)?;
    let start = fields.number()? as usize;
    let slots = if slotted {
        fields.number()? as usize
    } else {
        SLOTS
    };
    if SLOTS < slots {
        return None;
    }
    let end = fields.text(&mut store.text, names)?;
    if !fields.is_done() {
        return None;
    }
    let words = &store.words[..];
    let text = &store.text[..];
    Some(Asked {
        nodes: &words[..nodes],
        names: &text[..names],
        start,
        text: &text[names..end],
        slots,
    })
}
