// The layout of a node table, and the names of its nodes: faults 1 to 4, one function a fault.
#![tactic(auto)]

ghost use Rattle.std.specs.Prelude.{◌<◌, ◌≡◌, length};
ghost use Rattle.util.specs.Decides.{Decides};
ghost use Rattle.layout.specs.Layout.{NodeCount, NodeFields, ChildBlocks, BadName, NodeName};
ghost use Rattle.layout.specs.Internal.{is_root, has_fields};

// The most nodes that a table may have.
const MOST_NODES: usize = 4096;

// The most bytes that a name may have.
const LONGEST_NAME: usize = 12;

// Fault 1: no node, or more than 4,096.
pub fn has_wrong_count(nodes: &[u64]) -> bool
    ensures { Decides (NodeCount nodes.now) result }
{
    nodes.is_empty() || MOST_NODES < nodes.len()
}

// Fault 2: fields that a root or a node may not have.
pub fn has_wrong_fields(nodes: &[u64]) -> bool
    ensures { Decides (NodeFields nodes.now) result }
{
    if nodes.is_empty() {
        return true;
    }
    if !is_root(nodes[0]) {
        return true;
    }
    for word in nodes {
        if !has_fields(*word) {
            return true;
        }
    }
    false
}

// A root is a branch that is not default and has no name.
fn is_root(root: u64) -> bool
    ensures { result ≡ is_root root }
{
    if !node::is_branch(root) {
        return false;
    }
    if node::is_default(root) {
        return false;
    }
    if node::name_length(root) != 0 {
        return false;
    }
    node::name_start(root) == 0
}

// A node has no spare bit set, and a leaf no children.
fn has_fields(word: u64) -> bool
    ensures { result ≡ has_fields word }
{
    if node::spare_bits(word) != 0 {
        return false;
    }
    if node::is_branch(word) {
        return true;
    }
    node::child_count(word) == 0
}

// Fault 3: child blocks that do not follow each other from node 1 to the end, or one that starts at or before its branch.
pub fn has_wrong_blocks(nodes: &[u64]) -> bool
    ensures { Decides (ChildBlocks nodes.now) result }
{
    let mut behind = 1;
    for k in 0..nodes.len() {
        let word = nodes[k];
        if node::is_branch(word) {
            let block = branch::block_of(word);
            if block.from != behind {
                return true;
            }
            if block.from <= k {
                return true;
            }
            behind = block.to;
        }
    }
    behind != nodes.len()
}

// Fault 4: a bad name of a node that is not the root.
pub fn has_wrong_name(nodes: &[u64], names: &[u8]) -> bool
    ensures { Decides (NodeName nodes.now names.now) result }
{
    for k in 1..nodes.len() {
        if has_bad_name(nodes, names, k) {
            return true;
        }
    }
    false
}

// Whether the name of a node lies outside the text, has not 1 to 12 bytes, is no name, or has a star that it may not have.
fn has_bad_name(nodes: &[u64], names: &[u8], k: usize) -> bool
    requires { k < length nodes.now }
    ensures { Decides (BadName nodes.now names.now k) result }
{
    let word = nodes[k];
    let length = node::name_length(word);
    if length == 0 {
        return true;
    }
    if LONGEST_NAME < length {
        return true;
    }
    if names.len() < node::name_start(word) + length {
        return true;
    }
    let name = node::name(names, word);
    if !name::is_name(name) {
        return true;
    }
    if !util::stands(name, 0, b'*') {
        return false;
    }
    if node::is_branch(word) {
        return true;
    }
    if node::is_default(word) {
        return true;
    }
    !branch::is_child(nodes, 0, k)
}
