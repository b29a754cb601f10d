// Resolution alone: one header, from a branch of a table down to its command. `Node::run` of tree/mod.rs of the original.
#![tactic(auto)]

ghost use Rattle.std.specs.Prelude.{◌≡◌};
ghost use Rattle.tree.specs.Alone.{alone_with, Resolves, ResolvesAlone};

use ahead::Stop;
use error::ErrorCode;

pub const LONGEST_MESSAGE: usize = 65535;

// The command that a header names, its form and the branch kept.
#[derive(Clone, Copy)]
pub struct Resolved {
    pub command: u16,
    pub query: bool,
    pub branch: usize,
}

// Resolves one header from a branch of a table, which is checked first.
pub fn resolve(nodes: &[u64], names: &[u8], start: usize, s: &[u8]) -> Result<Resolved, ErrorCode>
    ensures { ResolvesAlone nodes.now names.now start s.now result }
{
    table::check(nodes, names)?;
    resolve_accepted(nodes, names, start, s)
}

// Resolves one header from a branch of a table that was accepted before. On a table with faults it answers as well, without looking
// for them.
pub fn resolve_accepted(
    nodes: &[u64],
    names: &[u8],
    start: usize,
    s: &[u8],
) -> Result<Resolved, ErrorCode>
    ensures { Resolves nodes.now names.now start s.now result }
{
    if !branch::is_branch(nodes, start) {
        return Err(ErrorCode::StartIsNoBranch);
    }
    if LONGEST_MESSAGE < s.len() {
        return Err(ErrorCode::MessageTooLong);
    }
    let header = header::read(nodes, names, s, start, 0)?;
    alone(header.command, header.query, header.branch, header.stop)
}

// Behind the header the text ends.
fn alone(command: u16, query: bool, branch: usize, stop: Stop) -> Result<Resolved, ErrorCode>
    ensures { result ≡ alone_with command query branch stop }
{
    match stop {
        Stop::Text => Ok(Resolved {
            command,
            query,
            branch,
        }),
        Stop::Separator | Stop::Unit => Err(ErrorCode::SyntaxError),
    }
}
