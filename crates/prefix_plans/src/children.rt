//! A prefix that is longer by one move.

ghost use Rattle.std.specs.Prelude.{◌≡◌, ◌+◌, ◌<◌, ◌≤◌, ◌*◌, ◌-◌, ◌^◌, OnOk};
ghost use Rattle.symk_task.specs.declared.parts.Mode.TheVariants.{TopK};
ghost use Rattle.space_api.specs.View.{View};
ghost use Rattle.prefix_tree.specs.Tree.{IsTree, GrowsTree, path_at, end_at};
ghost use Rattle.prefix_tree.specs.StateGraph.{states_of, IsStateGraph, IsGraphMove};
ghost use Rattle.cost_to_go.specs.Standing.{IsCostToGo};
ghost use Rattle.prefix_plans.specs.EndChildren.{IsEndEntry, AddsPrefixChild};

use crate::left::{Heuristic, Left};
use crate::ranks::Ranks;
use crate::reach::reach;
use prefix_tree::{Entry, Move, Node, add};
use space_api::{Space, SpaceFault};
use std::alloc::Global;
use std::cmp::Reverse;

/// The entry of a prefix at this place of the tree, of which so much is left.
pub(crate) fn entry_of(cost: u128, left: Left, node: usize, at_goal: bool) -> Entry
    requires cost { cost ≤ (2 ^ 64 - 1) * node }
    requires left { left.cost ≤ 2 ^ 64 }
    ensures bound { result.bound.0 ≡ cost + left.cost }
    ensures cost { result.cost ≡ cost }
    ensures ring { result.ring.0 ≡ left.ring }
    ensures node { result.node ≡ node }
    ensures settled { result.settled ≡ left.ranked }
    ensures at_goal { result.at_goal ≡ at_goal }
    ensures small { result.ring.0 < 2 ^ 64 }
    ensures range { result.bound.0 < 2 ^ 128 }
{
    Entry {
        bound: Reverse(cost + left.cost),
        cost,
        ring: Reverse(left.ring),
        node,
        settled: left.ranked,
        at_goal,
    }
}

impl Ranks {
    /// Adds the child by this move to the tree and to the children, where a plan may go on so. Out of memory, it leaves
    /// the children as they were.
    pub(crate) fn add_child<S: Space>(
        &mut self,
        alloc: Global,
        heuristic: &Heuristic<S>,
        tree: &mut Vec<Node>,
        entry: Entry,
        step: Move,
        children: &mut Vec<Entry>,
    ) -> Result<(), SpaceFault>
        requires search { IsCostToGo (S.view heuristic.now.space.now) heuristic.now.search.now }
        requires graph { IsStateGraph (S.view heuristic.now.space.now).system heuristic.now.graph.now }
        requires tree { IsTree (S.view heuristic.now.space.now).system TopK (states_of heuristic.now.graph.now)
            tree.old.items }
        requires entry { IsEndEntry (S.view heuristic.now.space.now) heuristic.now.search.now tree.old.items entry }
        requires step { IsGraphMove (S.view heuristic.now.space.now).system (states_of heuristic.now.graph.now)
            (end_at (states_of heuristic.now.graph.now) tree.old.items entry.node) step }
        ensures grows { GrowsTree (S.view heuristic.now.space.now).system TopK (states_of heuristic.now.graph.now)
            tree.old.items tree.new.items }
        ensures added { OnOk result (AddsPrefixChild
            (S.view heuristic.now.space.now) heuristic.now.search.now tree.new.items
            (path_at tree.old.items entry.node) step.op children.old.items children.new.items) }
    {
        match reach(alloc, heuristic, self, tree, entry, step)? {
            None => Ok(()),
            Some(to) => {
                let node = add(tree, entry.node, step.op, step.to)?;
                children.push(entry_of(to.cost, to.left, node, to.at_goal))?;
                Ok(())
            }
        }
    }
}
