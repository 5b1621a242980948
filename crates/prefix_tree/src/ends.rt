//! Whether the goal holds where a prefix may end.

ghost use Rattle.std.specs.Prelude.{◌≤◌, ℕ, List, IsTrue, IfOk};
ghost use Rattle.std.specs.Bool.{Decides};
ghost use Rattle.task_system.specs.System.{State, RunsInSystem, cost_in_system};
ghost use Rattle.space_api.specs.View.{View};
ghost use Rattle.space_api.specs.States.{IsReached};

use space_api::{Space, SpaceFault, goal_at};
use std::alloc::Global;
use symk_task::State;

/// Whether the goal holds in the state, which operators reach, where no list from there to the goal costs less than `left`.
/// The state is looked at only where nothing may be left.
pub fn goal_after<S: Space>(
    alloc: Global,
    space: &S,
    state: &State,
    left: u128,
) -> Result<bool, SpaceFault>
    requires reached { IsReached (S.view space.now).system state.now }
    requires left { (p : List ℕ) (t : State) → RunsInSystem (S.view space.now).system state.now p t
        → IsTrue ((S.view space.now).system.goal t) → left ≤ cost_in_system (S.view space.now).system p }
    ensures { IfOk result (λ holds. Decides holds (IsTrue ((S.view space.now).system.goal state.now))) }
{
    if left > 0 {
        return Ok(false);
    }
    goal_at(alloc, space, state)
}
