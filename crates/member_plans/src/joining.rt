//! Whether two prefixes join.

ghost use Rattle.std.specs.Prelude.{◌≡◌, ◌≢◌, ◌<◌, ℕ, List, IsTrue, IfOk, length};
ghost use Rattle.symk_task.specs.declared.parts.Mode.TheVariants.{TopK, Unordered};
ghost use Rattle.symk_task.specs.Plans.{Same};
ghost use Rattle.task_system.specs.System.{State, System};
ghost use Rattle.prefix_tree.specs.Tree.{IsTree, AreLinked, path_at};
ghost use Rattle.member_laws.specs.Nodes.{JoinsAtNode};
ghost use Rattle.member_plans.specs.Joining.{GoesBack, Fork};

use prefix_tree::{Node, node_at};
use std::alloc::{AllocError, Global};

/// Puts the last operator of the prefix, which isn't the empty one, last into the list, and tells the prefix before it.
fn step_back(tree: &[Node], at: usize, operators: &mut Vec<u32>) -> Result<usize, AllocError>
    requires linked { AreLinked tree.now }
    requires within { at < length tree.now }
    requires some { at ≢ 0 }
    ensures nearer { IfOk result (λ before. before < at) }
    ensures back { IfOk result (λ before. GoesBack tree.now at operators.old.items before operators.new.items) }
{
    let here = node_at(tree, at);
    operators.push(here.op)?;
    Ok(here.parent)
}

/// What two prefixes have behind the longest one from which the tree leads to both: the operators of each, the last one
/// first.
fn behind_fork(
    alloc: Global,
    tree: &[Node],
    node: usize,
    other: usize,
) -> Result<(Vec<u32>, Vec<u32>), AllocError>
    requires linked { AreLinked tree.now }
    requires node { node < length tree.now }
    requires other { other < length tree.now }
    ensures { IfOk result (λ ends. Fork tree.now node other ends.0.items ends.1.items) }
{
    let mut one = Vec::new(alloc);
    let mut two = Vec::new(alloc);
    let mut at = node;
    let mut there = other;
    'up: while at != there {
        if there < at {
            at = step_back(tree, at, &mut one)?;
        } else {
            there = step_back(tree, there, &mut two)?;
        }
    }
    Ok((one, two))
}

/// Whether both lists have the same operators, each as often.
fn are_rearranged(one: Vec<u32>, two: Vec<u32>) -> bool
    ensures { IsTrue result → Same Unordered one.items two.items }
{
    let mut one = one;
    let mut two = two;
    one.sort_unstable();
    two.sort_unstable();
    one == two
}

/// Whether two prefixes join. Time: by how far behind a common prefix they are, as the tree has them.
pub(crate) fn do_join(
    alloc: Global,
    tree: &[Node],
    node: usize,
    other: usize,
) -> Result<bool, AllocError>
    requires linked { AreLinked tree.now }
    requires node { node < length tree.now }
    requires other { other < length tree.now }
    ensures { (y : System) (states : List State) → IsTree y TopK states tree.now
        → IfOk result (λ same. IsTrue same → JoinsAtNode y (path_at tree.now node) (path_at tree.now other)) }
{
    if node_at(tree, node).state != node_at(tree, other).state {
        return Ok(false);
    }
    let (one, two) = behind_fork(alloc, tree, node, other)?;
    Ok(are_rearranged(one, two))
}
