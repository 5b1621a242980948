//! What is known of a state that a prefix may go on to.

ghost use Rattle.std.specs.Prelude.{◌<◌, ◌++◌, ◌∷◌, [], IfOk, length};
ghost use Rattle.space_api.specs.View.{View};
ghost use Rattle.prefix_tree.specs.StateGraph.{states_of, IsGraphMove};
ghost use Rattle.prefix_tree.specs.Tree.{IsTree, path_at, end_at};
ghost use Rattle.symk_task.specs.declared.parts.Mode.TheVariants.{Loopless};
ghost use Rattle.loopless.specs.Left.{EndsAtLeast};
ghost use Rattle.loopless.specs.Told.{Informs};
ghost use Rattle.loopless.specs.Reach.{IsReach};

use crate::left::{Heuristic, Left, left_from};
use crate::rests::Rests;
use prefix_tree::{Move, Node, goal_after, passes};
use space_api::{Space, SpaceFault};
use std::alloc::Global;

/// What is known of a state that a prefix may go on to.
#[derive(Clone, Copy)]
pub(crate) struct Reached {
    pub(crate) left: Left,
    pub(crate) at_goal: bool,
}

/// What is known of the state to which the move leads from the end of the prefix; None where no loopless plan goes on
/// so. The caller knows that no less than `low` is left there.
pub(crate) fn reach<S: Space>(
    alloc: Global,
    heuristic: &Heuristic<S>,
    rests: &mut Rests,
    tree: &[Node],
    node: usize,
    step: Move,
    low: u64,
) -> Result<Option<Reached>, SpaceFault>
    requires informed { Informs S.view heuristic.now rests.old }
    requires tree { IsTree (S.view heuristic.now.space.now).system Loopless (states_of heuristic.now.graph.now) tree.now }
    requires node { node < length tree.now }
    requires step { IsGraphMove (S.view heuristic.now.space.now).system (states_of heuristic.now.graph.now)
        (end_at (states_of heuristic.now.graph.now) tree.now node) step }
    requires low { EndsAtLeast (S.view heuristic.now.space.now).system (path_at tree.now node ++ step.op ∷ []) low }
    ensures informed { Informs S.view heuristic.now rests.new }
    ensures reach { IfOk result (IsReach (S.view heuristic.now.space.now).system (path_at tree.now node) step.op) }
{
    if passes(tree, node, step.to) {
        return Ok(None);
    }
    match left_from(heuristic, rests, step.to, low) {
        None => Ok(None),
        Some(left) => {
            let next = heuristic.graph.state(step.to);
            let at_goal = goal_after(alloc, heuristic.space, next, left.cost)?;
            Ok(Some(Reached { left, at_goal }))
        }
    }
}
