// The branches of a table and their children. What a branch's children are, and how they are gone through, is known here alone. `exec` of
// tree/mod.rs of the original goes through them.
#![tactic(auto)]

ghost use Rattle.std.specs.Prelude.{◌≡◌};
ghost use Rattle.util.specs.Decides.{Decides};
ghost use Rattle.node.specs.Tree.{branch, Child};
ghost use Rattle.branch.specs.Children.{unsaid_in, PicksIn};
ghost use Rattle.branch.specs.Block.{block_of, children_of, next_child};

// The children of a branch: the nodes from one index up to another, and not the one there.
#[derive(Clone, Copy)]
pub struct Block {
    pub from: usize,
    pub to: usize,
}

// Whether a node is a branch of the table.
pub fn is_branch(nodes: &[u64], b: usize) -> bool
    ensures { result ≡ branch nodes.now b }
{
    if b < nodes.len() {
        return node::is_branch(nodes[b]);
    }
    false
}

// The block of children that the word of a branch has, wherever that lies.
pub fn block_of(word: u64) -> Block
    ensures { result ≡ block_of word }
{
    let from = node::first_child(word);
    Block {
        from,
        to: from + node::child_count(word),
    }
}

// The children of a branch. A block that does not lie after its branch and in the table has none.
pub fn children(nodes: &[u64], b: usize) -> Block
    ensures { result ≡ children_of nodes.now b }
{
    if nodes.len() <= b {
        return Block { from: 0, to: 0 };
    }
    let word = nodes[b];
    if !node::is_branch(word) {
        return Block { from: 0, to: 0 };
    }
    let block = block_of(word);
    if block.from <= b {
        return Block { from: 0, to: 0 };
    }
    if nodes.len() < block.to {
        return Block { from: 0, to: 0 };
    }
    block
}

// The child after a child.
pub fn next_child(nodes: &[u64], k: usize) -> usize
    ensures { result ≡ next_child nodes.now k }
{
    if k < nodes.len() {
        return k + 1;
    }
    k
}

// The first default node of a block. No index is counted: `next_child` alone knows which child is next.
pub fn default_in(nodes: &[u64], from: usize, to: usize) -> Option<usize>
    ensures { PicksIn (unsaid_in nodes.now) from to result }
{
    let end = util::least(to, nodes.len());
    let mut d = from;
    while d < end {
        if node::is_default(nodes[d]) {
            return Some(d);
        }
        d = next_child(nodes, d);
    }
    None
}

// Whether a node is a child of a branch.
pub fn is_child(nodes: &[u64], b: usize, k: usize) -> bool
    ensures { Decides (Child nodes.now b k) result }
{
    if nodes.len() <= b {
        return false;
    }
    let word = nodes[b];
    if !node::is_branch(word) {
        return false;
    }
    let block = block_of(word);
    if k < block.from {
        return false;
    }
    k < block.to
}
