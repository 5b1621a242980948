//! What tells prefixes apart that don't join.

ghost use Rattle.std.specs.Prelude.{◌≡◌, ◌<◌, ◌∷◌, ◌++◌, [], List, ℕ, IfOk, OnOk, length};
ghost use Rattle.std.specs.List.Sorted.{IsPermutation, IsNonDecreasing};
ghost use Rattle.prefix_tree.specs.Tree.{AreLinked, path_at};
ghost use Rattle.member_plans.specs.Keys.{IsKeyAt};

use prefix_tree::{Node, node_at, operators_to};
use std::alloc::{AllocError, Global};

/// The operators of the prefix in rising order.
fn sorted_to(alloc: Global, tree: &[Node], node: usize) -> Result<Vec<u32>, AllocError>
    requires linked { AreLinked tree.now }
    requires node { node < length tree.now }
    ensures permutation { IfOk result (λ sorted. IsPermutation (path_at tree.now node) sorted.items) }
    ensures rising { IfOk result (λ sorted. IsNonDecreasing sorted.items) }
{
    let mut operators = operators_to(alloc, tree, node)?;
    operators.sort_unstable();
    Ok(operators)
}

/// The key of the prefix: the number of its last state, and its operators in rising order.
pub(crate) fn key_at(alloc: Global, tree: &[Node], node: usize) -> Result<Vec<usize>, AllocError>
    requires linked { AreLinked tree.now }
    requires node { node < length tree.now }
    ensures { IfOk result (λ key. IsKeyAt tree.now node key.items) }
{
    let operators = sorted_to(alloc, tree, node)?;
    let here = node_at(tree, node);
    let mut key = Vec::new(alloc);
    key.push(here.state)?;
    'operators: for op in operators.iter() {
        key.push(*op as usize)?;
    }
    Ok(key)
}
