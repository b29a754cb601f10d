// Headers: from a branch of the command tree down to the command that one names, by calls from each branch to its child. `run_tokens` and
// `exec` of tree/mod.rs of the original.
#![tactic(auto)]

ghost use Rattle.std.specs.Prelude.{◌<◌, ◌≡◌, true, false, length};
ghost use Rattle.node.specs.Tree.{branch};
ghost use Rattle.ahead.specs.Seen.{seen_at};
ghost use Rattle.tokenizer.specs.Step.{state_of};
ghost use Rattle.header.specs.Header.{query_answer, leaf_answer, Begins};
ghost use Rattle.header.specs.Internal.{ahead_at, begins, goes_on, after_byte, ends_at, front_of, kept_by, is_ending, refused_by, bare, Settles, Arrives, RootLeaf, Empty, Otherwise};

use ahead::{Ahead, Seen, Stop};
use error::ErrorCode;
use tokenizer::State;

// The branch that the next header starts from, the place after what ended the header, its command, its form, and what ended it. The words stand first, so
// that there is no gap between the members: the compiler copies a gap with the answer, in parts that overlap.
#[derive(Clone, Copy)]
pub struct Header {
    pub branch: usize,
    pub place: usize,
    pub command: u16,
    pub query: bool,
    pub stop: Stop,
}

// Where a header begins: the node, the place of its first mnemonic, and whether that has a star.
#[derive(Clone, Copy)]
struct Front {
    node: usize,
    place: usize,
    star: bool,
}

// Resolves the header that begins at a place, from a branch.
pub fn read(
    nodes: &[u64],
    names: &[u8],
    s: &[u8],
    start: usize,
    at: usize,
) -> Result<Header, ErrorCode>
    ensures { Begins nodes.now names.now s.now start (seen_at s.now (state_of at true false)) result }
{
    if !branch::is_branch(nodes, start) {
        return Err(ErrorCode::StartIsNoBranch);
    }
    let Some(front) = front_at(s, start, at) else {
        return other(nodes, s, at);
    };
    let node = front.node;
    let place = front.place;
    let star = front.star;
    let mut kept = node;
    let mut last = place;
    let mut common = star;
    let leaf = lead(
        nodes,
        names,
        s,
        node,
        place,
        &mut kept,
        &mut last,
        &mut common,
    );
    if leaf == nodes.len() {
        return refusal(s, last, common);
    }
    let branch = keep(star, start, kept);
    ending(s, nodes[leaf], branch, last, common)
}

// A leading colon starts at the root, and so does a common command. None: no mnemonic begins there.
fn front_at(s: &[u8], start: usize, at: usize) -> Option<Front>
    ensures { result ≡ front_of s.now start at }
{
    if spoken::has_letter(s, at) {
        return Some(Front {
            node: start,
            place: at,
            star: false,
        });
    }
    if goes_on(s, at) {
        return Some(Front {
            node: 0, // the root
            place: after(s, at, b':'),
            star: false,
        });
    }
    if util::stands(s, at, b'*') {
        return Some(Front {
            node: 0,
            place: at,
            star: true,
        });
    }
    None
}

// A common command leaves the branch as it was.
fn keep(star: bool, start: usize, kept: usize) -> usize
    ensures { result ≡ kept_by star start kept }
{
    if star {
        return start;
    }
    kept
}

// Without a mnemonic: a lone colon is an empty header at the root, and all else is refused, by one token step.
fn other(nodes: &[u64], s: &[u8], at: usize) -> Result<Header, ErrorCode>
    requires { bare s.now at ≡ true }
    ensures { Otherwise nodes.now s.now at result }
{
    let seen = look_at(s, at, false);
    let ahead = seen.ahead;
    let state = seen.state;
    match ahead {
        Ahead::Refused(e) => Err(e),
        Ahead::Stop(_) => Err(ErrorCode::SyntaxError),
        Ahead::Query => Err(ErrorCode::SyntaxError),
        Ahead::Word(_) => Err(ErrorCode::SyntaxError),
        Ahead::Colon => empty(nodes, state.place),
    }
}

// An empty header at the root.
fn empty(nodes: &[u64], place: usize) -> Result<Header, ErrorCode>
    ensures { Empty nodes.now place result }
{
    let leaf = root_leaf(nodes);
    if leaf == nodes.len() {
        return Err(ErrorCode::UndefinedHeader);
    }
    Ok(Header {
        command: node::command_number(nodes[leaf]),
        query: false,
        branch: 0,
        stop: Stop::Text,
        place,
    })
}

fn root_leaf(nodes: &[u64]) -> usize
    ensures { RootLeaf nodes.now result }
{
    if branch::is_branch(nodes, 0) {
        return default_leaf(&nodes, 0);
    }
    0
}

// The leaf that a header leads to from a node, or the number of nodes, here and in the three functions like it: with an Option for the answer the
// compiler makes no loops of the calls, and a chain of 4,000 default branches takes a megabyte of stack.
fn lead(
    nodes: &[u64],
    names: &[u8],
    s: &[u8],
    from: usize,
    at: usize,
    kept: &mut usize,
    place: &mut usize,
    common: &mut bool,
) -> usize
    requires { begins common.old s.now at ≡ true }
    ensures { Arrives nodes.now names.now s.now from at common.old result kept.new place.new common.new }
{
    if !branch::is_branch(nodes, from) {
        *place = at;
        return nodes.len();
    }
    down(&nodes, &names, &s, from, at, kept, place, common)
}

// Goes down from a branch, with a mnemonic at a place: the leaf that is reached, or the number of nodes where there is none. Through the references it
// leaves the branch of the node spoken last; the place after that node's mnemonic, or, where no leaf is reached, the place that decides why; and
// whether that is in a common command.
fn down(
    nodes: &&[u64],
    names: &&[u8],
    s: &&[u8],
    b: usize,
    at: usize,
    kept: &mut usize,
    place: &mut usize,
    common: &mut bool,
) -> usize
    requires { (branch nodes.now.now b ≡ true) × (begins common.old s.now.now at ≡ true) }
    ensures { Arrives nodes.now.now names.now.now s.now.now b at common.old result kept.new place.new common.new }
{
    let table: &[u64] = *nodes;
    let block = branch::children(table, b);
    let from = block.from;
    let to = block.to;
    match spoken::spelled_in(table, *names, *s, from, to, at) {
        Some((child, next)) => {
            *kept = b;
            *place = next;
            if !branch::is_branch(table, child) {
                return child;
            }
            if goes_on(*s, next) {
                if *common {
                    return table.len();
                }
                let first = after(*s, next, b':');
                return down(nodes, names, s, child, first, kept, place, common);
            }
            if ends(*s, next) {
                return default_leaf(nodes, child);
            }
            if util::stands(*s, next, b'*') {
                *common = true;
                return down(nodes, names, s, child, next, kept, place, common);
            }
            if stops(*s, next, *common) {
                return default_leaf(nodes, child);
            }
            table.len()
        }
        None => match branch::default_in(table, from, to) {
            None => {
                *place = at;
                return table.len();
            }
            Some(d) => {
                if !branch::is_branch(table, d) {
                    *place = at;
                    return table.len();
                }
                down(nodes, names, s, d, at, kept, place, common)
            }
        },
    }
}

// The leaf that is reached from a branch by default children alone, or the number of nodes.
fn default_leaf(nodes: &&[u64], b: usize) -> usize
    ensures { Settles nodes.now.now b result }
{
    let table: &[u64] = *nodes;
    let block = branch::children(table, b);
    match branch::default_in(table, block.from, block.to) {
        None => table.len(),
        Some(d) => {
            if !branch::is_branch(table, d) {
                return d;
            }
            default_leaf(nodes, d)
        }
    }
}

// What the token at a place of a header is.
fn look_at(s: &[u8], place: usize, common: bool) -> Seen
    ensures { result ≡ ahead_at s.now place common }
{
    let state = State {
        place,
        in_header: true,
        in_common: common,
    };
    ahead::look(s, state)
}

// Why a header leads to no leaf, by the token at the place where its mnemonics end.
fn refusal(s: &[u8], place: usize, common: bool) -> Result<Header, ErrorCode>
    ensures { result ≡ refused_by (ahead_at s.now place common).ahead }
{
    let seen = look_at(s, place, common);
    let ahead = seen.ahead;
    match ahead {
        Ahead::Refused(e) => Err(e),
        Ahead::Stop(_) => Err(ErrorCode::UndefinedHeader),
        Ahead::Query => Err(ErrorCode::UndefinedHeader),
        Ahead::Word(_) => Err(ErrorCode::UndefinedHeader),
        Ahead::Colon => Err(ErrorCode::CommandHeaderError),
    }
}

// A colon and a letter go on with another mnemonic.
fn goes_on(s: &[u8], at: usize) -> bool
    ensures { result ≡ goes_on s.now at }
{
    if s.len() <= at {
        return false;
    }
    if s[at] != b':' {
        return false;
    }
    spoken::has_letter(s, at + 1)
}

// The place after a byte, where that is at the place.
fn after(s: &[u8], at: usize, b: u8) -> usize
    ensures { result ≡ after_byte b s.now at }
{
    if s.len() <= at {
        return at;
    }
    if s[at] == b {
        return at + 1;
    }
    at
}

// Whether a header ends after a mnemonic, with `?` or without, by one or two bytes.
fn ends(s: &[u8], place: usize) -> bool
    ensures { result ≡ ends_at s.now place }
{
    let at = after(s, place, b'?');
    if s.len() <= at {
        return true;
    }
    if s[at] == b' ' {
        return true;
    }
    s[at] == b';'
}

// Whether a header ends after a mnemonic, by the token there.
fn stops(s: &[u8], place: usize, common: bool) -> bool
    ensures { result ≡ is_ending (ahead_at s.now place common).ahead }
{
    let seen = look_at(s, place, common);
    let ahead = seen.ahead;
    match ahead {
        Ahead::Stop(_) => true,
        Ahead::Query => true,
        Ahead::Refused(_) => false,
        Ahead::Word(_) => false,
        Ahead::Colon => false,
    }
}

// The end of a header at a leaf, by one or two bytes, or by the token there.
fn ending(s: &[u8], leaf: u64, kept: usize, place: usize, common: bool) -> Result<Header, ErrorCode>
    ensures { result ≡ leaf_answer s.now leaf kept (ahead_at s.now place common) }
{
    let command = node::command_number(leaf);
    let query = util::stands(s, place, b'?');
    let at = after(s, place, b'?');
    if s.len() <= at {
        return Ok(Header {
            command,
            query,
            branch: kept,
            stop: Stop::Text,
            place: at,
        });
    }
    match s[at] {
        b' ' => Ok(Header {
            command,
            query,
            branch: kept,
            stop: Stop::Separator,
            place: util::skip_ws(s, at + 1),
        }),
        b';' => Ok(Header {
            command,
            query,
            branch: kept,
            stop: Stop::Unit,
            place: util::skip_ws(s, at + 1),
        }),
        _ => at_leaf(s, leaf, kept, look_at(s, place, common)),
    }
}

// At a leaf the header ends, or it has no command.
fn at_leaf(s: &[u8], leaf: u64, kept: usize, seen: Seen) -> Result<Header, ErrorCode>
    ensures { result ≡ leaf_answer s.now leaf kept seen }
{
    let ahead = seen.ahead;
    let state = seen.state;
    match ahead {
        Ahead::Stop(stop) => Ok(Header {
            command: node::command_number(leaf),
            query: false,
            branch: kept,
            stop,
            place: state.place,
        }),
        Ahead::Query => query(leaf, kept, ahead::look(s, state)),
        Ahead::Refused(e) => Err(e),
        Ahead::Word(_) => Err(ErrorCode::UndefinedHeader),
        Ahead::Colon => Err(ErrorCode::UndefinedHeader),
    }
}

// After a `?` the header ends.
fn query(leaf: u64, kept: usize, seen: Seen) -> Result<Header, ErrorCode>
    ensures { result ≡ query_answer leaf kept seen }
{
    let ahead = seen.ahead;
    let state = seen.state;
    match ahead {
        Ahead::Stop(stop) => Ok(Header {
            command: node::command_number(leaf),
            query: true,
            branch: kept,
            stop,
            place: state.place,
        }),
        Ahead::Refused(e) => Err(e),
        Ahead::Query => Err(ErrorCode::SyntaxError),
        Ahead::Word(_) => Err(ErrorCode::SyntaxError),
        Ahead::Colon => Err(ErrorCode::SyntaxError),
    }
}
