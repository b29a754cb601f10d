// The requests of messages.
use crate::fields::Fields;
use crate::output::Output;
use crate::tables::{form, take_asked};
use crate::{Store, refuse};
use std::io;
use std::io::Write;

// What a slot holds before a walk. No record has its last bit set.
const UNWRITTEN: u64 = 12297829382473034411;

// S, a table, a start and a message; W, these and how many slots there are before the message: the units of the message from
// that branch of the table. The slots are ones that no walk has written yet.
pub(crate) fn walk_message(
    fields: Fields,
    slotted: bool,
    store: &mut Store,
    out: &mut Output,
) -> io::Result<()> {
    let Some(asked) = take_asked(fields, slotted, store) else {
        return refuse(out);
    };
    let mut slots = [UNWRITTEN; 32768];
    let walked = message::walk(
        asked.nodes,
        asked.names,
        asked.start,
        asked.text,
        &mut slots[..asked.slots],
    );
    match walked {
        Ok(units) => {
            put_slots(units, &slots, out)?;
            writeln!(out, "end {units}")
        }
        Err(stopped) => {
            put_slots(stopped.units, &slots, out)?;
            writeln!(
                out,
                "refused {} {}",
                stopped.error.get_code(),
                stopped.units
            )
        }
    }
}

// The units of the slots that were written. The others hold what they held.
fn put_slots(units: usize, slots: &[u64], out: &mut Output) -> io::Result<()> {
    for slot in slots.iter().take(units) {
        put_unit(*slot, out)?;
    }
    for slot in slots.iter().skip(units) {
        if *slot != UNWRITTEN {
            out.write_all(b"slot? | ")?;
        }
    }
    Ok(())
}

// The unit that a word records. The last 15 bits of a record are zero.
fn put_unit(word: u64, out: &mut Output) -> io::Result<()> {
    if word % 32768 != 0 {
        return out.write_all(b"slot? | ");
    }
    let unit = record::unpack(word);
    write!(
        out,
        "unit {} {} items {} branch {} | ",
        unit.command,
        form(unit.query),
        unit.items,
        unit.branch
    )
}
