//! What is known of a state that a prefix may go on to.

ghost use Rattle.std.specs.Prelude.{IfOk};
ghost use Rattle.symk_task.specs.declared.parts.Mode.TheVariants.{TopK};
ghost use Rattle.space_api.specs.View.{View};
ghost use Rattle.prefix_tree.specs.StateGraph.{states_of, IsStateGraph, IsGraphMove};
ghost use Rattle.prefix_tree.specs.Tree.{IsTree, path_at, end_at};
ghost use Rattle.cost_to_go.specs.Standing.{IsCostToGo};
ghost use Rattle.prefix_plans.specs.EndChildren.{IsEndEntry};
ghost use Rattle.prefix_plans.specs.Reach.{IsEndReach};

use crate::left::{Heuristic, Left, left_after, left_from};
use crate::ranks::Ranks;
use prefix_tree::{Entry, Move, Node, goal_after};
use space_api::{Space, SpaceFault};
use std::alloc::Global;

/// What is known of a state that a prefix may go on to.
#[derive(Clone, Copy)]
pub(crate) struct Reached {
    /// What the longer prefix costs.
    pub(crate) cost: u128,
    pub(crate) left: Left,
    pub(crate) at_goal: bool,
}

/// What is known of the state to which the move leads from the end of the entry's prefix; None where no plan goes on so.
pub(crate) fn reach<S: Space>(
    alloc: Global,
    heuristic: &Heuristic<S>,
    ranks: &mut Ranks,
    tree: &[Node],
    entry: Entry,
    step: Move,
) -> Result<Option<Reached>, SpaceFault>
    requires search { IsCostToGo (S.view heuristic.now.space.now) heuristic.now.search.now }
    requires graph { IsStateGraph (S.view heuristic.now.space.now).system heuristic.now.graph.now }
    requires tree { IsTree (S.view heuristic.now.space.now).system TopK (states_of heuristic.now.graph.now) tree.now }
    requires entry { IsEndEntry (S.view heuristic.now.space.now) heuristic.now.search.now tree.now entry }
    requires step { IsGraphMove (S.view heuristic.now.space.now).system (states_of heuristic.now.graph.now)
        (end_at (states_of heuristic.now.graph.now) tree.now entry.node) step }
    ensures { IfOk result (IsEndReach (S.view heuristic.now.space.now) heuristic.now.search.now
        (path_at tree.now entry.node) step.op) }
{
    let next = heuristic.graph.state(step.to);
    let cost = entry.cost + heuristic.space.cost_of(step.op) as u128;
    let low = left_after(entry.bound.0, cost);
    match left_from(heuristic, ranks, next, step.to, cost, 0, low) {
        None => Ok(None),
        Some(left) => {
            let at_goal = goal_after(alloc, heuristic.space, next, left.cost)?;
            Ok(Some(Reached {
                cost,
                left,
                at_goal,
            }))
        }
    }
}
