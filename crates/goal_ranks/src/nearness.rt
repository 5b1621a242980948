//! What the search ahead tells of one state.

ghost use Rattle.std.specs.Prelude.{◌≡◌, ◌<◌, ◌≤◌, ℕ};
ghost use Rattle.space_api.specs.View.{View};
ghost use Rattle.space_api.specs.States.{IsReached};
ghost use Rattle.run_graph.specs.Reached.{ReachedAt};
ghost use Rattle.goal_ranks.specs.Ahead.{IsAhead, bound_of};

use crate::least::LeastCosts;
use crate::telling::bound_ahead;
use cost_search::first_with_state;
use space_api::Space;
use symk_task::State;

/// No run to the state costs less than this: the cost of the ring of the search ahead that has it, and else the bound
/// of that search. It takes no memory.
pub fn ahead_of<S: Space>(space: &S, ahead: &LeastCosts<S::Set>, state: &State) -> u128
    requires ahead { IsAhead (S.view space.now) ahead.now }
    requires state { IsReached (S.view space.now).system state.now }
    ensures least { (a : ℕ) → ReachedAt (S.view space.now).system a state.now → result ≤ a }
    ensures reached { result < bound_of ahead.now → ReachedAt (S.view space.now).system result state.now }
{
    match first_with_state(space, ahead.layers(), 0, state) {
        Some(cost) => cost as u128,
        None => bound_ahead(ahead),
    }
}
