// The check of a node table: its nodes, a lent slice of words, and the lent text of their names.
#![tactic(auto)]

ghost use Rattle.std.specs.Prelude.{◌≡◌, true};
ghost use Rattle.util.specs.Decides.{Decides};
ghost use Rattle.mnemonic.specs.Spelling.{Name};
ghost use Rattle.node.specs.Tree.{branch};
ghost use Rattle.table.specs.Fault.{TwoDefaults, SharedSpelling, Verdict};
ghost use Rattle.table.specs.Internal.{TwoDefaultsIn, OneDefault, DefaultBranch, Blocks, Ready, NamedBlock, SharesIn, ChildrenShare, BlocksShare, NearShares, SharesAt};

use error::ErrorCode;

// Looks for the faults in their order. A table without any is accepted; else it answers the smallest.
pub fn check(nodes: &[u64], names: &[u8]) -> Result<(), ErrorCode>
    ensures { Verdict nodes.now names.now result }
{
    if layout::has_wrong_count(nodes) {
        return Err(ErrorCode::NodeCount);
    }
    if layout::has_wrong_fields(nodes) {
        return Err(ErrorCode::NodeFields);
    }
    if layout::has_wrong_blocks(nodes) {
        return Err(ErrorCode::ChildBlocks);
    }
    if layout::has_wrong_name(nodes, names) {
        return Err(ErrorCode::NodeName);
    }
    if has_two_defaults(nodes) {
        return Err(ErrorCode::TwoDefaults);
    }
    if has_shared_spelling(nodes, names) {
        return Err(ErrorCode::SharedSpelling);
    }
    Ok(())
}

// Fault 5: two default children in a branch.
fn has_two_defaults(nodes: &[u64]) -> bool
    requires { Blocks nodes.now }
    ensures { Decides (TwoDefaults nodes.now) result }
{
    for b in 0..nodes.len() {
        let block = branch::children(nodes, b);
        if has_two_defaults_in(nodes, block.from, block.to) {
            return true;
        }
    }
    false
}

// Whether two nodes of a block are default.
fn has_two_defaults_in(nodes: &[u64], first: usize, end: usize) -> bool
    ensures { Decides (TwoDefaultsIn nodes.now first end) result }
{
    match branch::default_in(nodes, first, end) {
        None => false,
        Some(d) => match branch::default_in(nodes, branch::next_child(nodes, d), end) {
            None => false,
            Some(_) => true,
        },
    }
}

// Fault 6: two near nodes of a branch that share a spelling.
fn has_shared_spelling(nodes: &[u64], names: &[u8]) -> bool
    requires { Ready nodes.now names.now }
    ensures { Decides (SharedSpelling nodes.now names.now) result }
{
    for b in 0..nodes.len() {
        if node::is_branch(nodes[b]) && shares_at(nodes, names, b) {
            return true;
        }
    }
    false
}

// Whether two children share a spelling, or a child and a near node of the default branch.
fn shares_at(nodes: &[u64], names: &[u8], b: usize) -> bool
    requires { Ready nodes.now names.now × (branch nodes.now b ≡ true) }
    ensures { Decides (SharesAt nodes.now names.now b) result }
{
    let block = branch::children(nodes, b);
    let first = block.from;
    let end = block.to;
    if children_share(nodes, names, first, end) {
        return true;
    }
    match default_branch(nodes, first, end) {
        None => false,
        Some(inner) => near_shares(nodes, names, first, end, inner),
    }
}

// Whether a near node of a branch shares a spelling with a node of a block.
fn near_shares(nodes: &[u64], names: &[u8], first: usize, end: usize, b: usize) -> bool
    requires { NamedBlock nodes.now names.now first end × (branch nodes.now b ≡ true) }
    ensures { Decides (NearShares nodes.now names.now first end b) result }
{
    let block = branch::children(nodes, b);
    let from = block.from;
    let to = block.to;
    if blocks_share(nodes, names, first, end, from, to) {
        return true;
    }
    match default_branch(nodes, from, to) {
        None => false,
        Some(inner) => near_shares(nodes, names, first, end, inner),
    }
}

// The default branch in a block.
fn default_branch(nodes: &[u64], first: usize, end: usize) -> Option<usize>
    requires { OneDefault nodes.now first end }
    ensures { DefaultBranch nodes.now first end result }
{
    match branch::default_in(nodes, first, end) {
        None => None,
        Some(d) => {
            if !node::is_branch(nodes[d]) {
                return None;
            }
            Some(d)
        }
    }
}

// Whether two nodes of a block share a spelling. Here and below no index is counted: `branch::next_child` alone knows which child is next.
fn children_share(nodes: &[u64], names: &[u8], first: usize, end: usize) -> bool
    requires { NamedBlock nodes.now names.now first end }
    ensures { Decides (ChildrenShare nodes.now names.now first end) result }
{
    let mut k = first;
    while k < end {
        let next = branch::next_child(nodes, k);
        if block_shares(nodes, names, node::name(names, nodes[k]), next, end) {
            return true;
        }
        k = next;
    }
    false
}

// Whether a node of the block from..to shares a spelling with one of the block first..end.
fn blocks_share(
    nodes: &[u64],
    names: &[u8],
    first: usize,
    end: usize,
    from: usize,
    to: usize,
) -> bool
    requires { NamedBlock nodes.now names.now first end × NamedBlock nodes.now names.now from to }
    ensures { Decides (BlocksShare nodes.now names.now first end from to) result }
{
    let mut k = from;
    while k < to {
        if block_shares(nodes, names, node::name(names, nodes[k]), first, end) {
            return true;
        }
        k = branch::next_child(nodes, k);
    }
    false
}

// Whether a node of a block shares a spelling with the name. Most are told apart by their first byte.
fn block_shares(nodes: &[u64], names: &[u8], name: &[u8], first: usize, end: usize) -> bool
    requires { NamedBlock nodes.now names.now first end × Name name.now }
    ensures { Decides (SharesIn nodes.now names.now name.now first end) result }
{
    let initial = name[0];
    let mut k = first;
    while k < end {
        let word = nodes[k];
        if node::initial(names, word) == initial {
            if name::is_spelling_shared(name, node::name(names, word)) {
                return true;
            }
        }
        k = branch::next_child(nodes, k);
    }
    false
}
