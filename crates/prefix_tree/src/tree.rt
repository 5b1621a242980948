//! A tree of prefixes, each with the one before it.

ghost use Rattle.std.specs.Prelude.{◌≡◌, ◌<◌, ◌∷◌, ◌++◌, [], List, IfOk, OnErr, length, reverse, slice_index_or};
ghost use Rattle.std.specs.Bool.{Decides};
ghost use Rattle.symk_task.specs.declared.parts.Mode.{Mode};
ghost use Rattle.task_system.specs.System.{State, System, Listed, trace};
ghost use Rattle.prefix_tree.specs.StateGraph.{AreDistinctStates, numbered_state};
ghost use Rattle.prefix_tree.specs.Tree.{IsTree, AreLinked, path_at};

use std::alloc::{AllocError, Global};

/// A prefix: the place of the one before it, the operator that makes it longer, and the number of the one state where
/// it ends.
///
/// The first of a tree is the empty prefix, of which only the state counts.
#[derive(Clone, Copy, Debug)]
pub struct Node {
    pub parent: usize,
    pub op: u32,
    pub state: usize,
}

/// The prefix at this place.
pub fn node_at(tree: &[Node], at: usize) -> Node
    requires { at < length tree.now }
    ensures { (d : Node) → result ≡ slice_index_or tree.now at d }
{
    tree[at]
}

/// Whether the prefix passes the state of this number.
pub fn passes(tree: &[Node], node: usize, state: usize) -> bool
    requires linked { AreLinked tree.now }
    requires node { node < length tree.now }
    ensures { (y : System) (m : Mode) (states : List State) → IsTree y m states tree.now
        → AreDistinctStates states → state < length states
        → Decides result (Listed (trace y y.initial (path_at tree.now node)) (numbered_state states state)) }
{
    let mut at = node;
    'up: loop {
        let here = node_at(tree, at);
        if here.state == state {
            return true;
        }
        if at == 0 {
            return false;
        }
        at = here.parent;
    }
}

/// The operators of the prefix, the last one first.
fn operators_back(alloc: Global, tree: &[Node], node: usize) -> Result<Vec<u32>, AllocError>
    requires linked { AreLinked tree.now }
    requires node { node < length tree.now }
    ensures { IfOk result (λ operators. path_at tree.now node ≡ reverse operators.items) }
{
    let mut operators = Vec::new(alloc);
    let mut at = node;
    'up: while at != 0 {
        let here = node_at(tree, at);
        operators.push(here.op)?;
        at = here.parent;
    }
    Ok(operators)
}

/// The operators of the prefix.
pub fn operators_to(alloc: Global, tree: &[Node], node: usize) -> Result<Vec<u32>, AllocError>
    requires linked { AreLinked tree.now }
    requires node { node < length tree.now }
    ensures { IfOk result (λ operators. operators.items ≡ path_at tree.now node) }
{
    let mut operators = operators_back(alloc, tree, node)?;
    operators.reverse();
    Ok(operators)
}

/// Adds the prefix that is longer by the operator and ends in the state of this number, and tells its place. Out of
/// memory, it leaves the tree as it was.
pub fn add(tree: &mut Vec<Node>, parent: usize, op: u32, state: usize) -> Result<usize, AllocError>
    ensures place { IfOk result (λ place. place ≡ length tree.old.items) }
    ensures child { IfOk result (λ place. tree.new.items ≡ tree.old.items
        ++ record { parent = parent; op = op; state = state } ∷ []) }
    ensures err { OnErr result (tree.new.items ≡ tree.old.items) }
{
    let place = tree.len();
    tree.push(Node { parent, op, state })?;
    Ok(place)
}
