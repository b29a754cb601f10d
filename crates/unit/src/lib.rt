// Message units: a header and its items of data. `run_tokens` of tree/mod.rs of the original.
#![tactic(auto)]

ghost use Rattle.std.specs.Prelude.{◌≡◌, true, false};
ghost use Rattle.tokenizer.specs.Step.{state_of};
ghost use Rattle.ahead.specs.Seen.{seen_at};
ghost use Rattle.unit.specs.Unit.{Behind, Reads};

use ahead::Stop;
use error::ErrorCode;
use items::Data;
use record::Record;

// Reads one unit that begins at a place, from a branch: the unit as it is recorded, and the place after it.
pub fn read(
    nodes: &[u64],
    names: &[u8],
    s: &[u8],
    start: usize,
    at: usize,
) -> Result<(Record, usize), ErrorCode>
    ensures { Reads nodes.now names.now s.now start (seen_at s.now (state_of at true false)) result }
{
    let header = header::read(nodes, names, s, start, at)?;
    let data = data_after(s, header.stop, header.place)?;
    let record = Record {
        command: header.command,
        query: header.query,
        branch: header.branch,
        items: data.count,
    };
    Ok((record, data.place))
}

// The data after what ended the header: there are none but after white space.
fn data_after(s: &[u8], stop: Stop, place: usize) -> Result<Data, ErrorCode>
    ensures { Behind s.now stop place result }
{
    match stop {
        Stop::Separator => items::count(s, place),
        Stop::Unit | Stop::Text => Ok(Data { count: 0, place }),
    }
}
