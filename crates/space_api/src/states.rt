//! Single states of the space's task, as values of its variables.

ghost use Rattle.std.specs.Prelude.{◌≡◌, ◌<◌, ◌↔◌, IsTrue, IfOk};
ghost use Rattle.symk_task.specs.Variables.{IsState};
ghost use Rattle.task_run.specs.Values.{Valued};
ghost use Rattle.task_system.specs.System.{State, Listed};
ghost use Rattle.space_api.specs.View.{View, Valid};
ghost use Rattle.space_api.specs.States.{IsReached, GoesTo};

use crate::space::{Space, SpaceFault};
use std::alloc::Global;
use symk_task::State;
use task_run::{Closed, applies_in, closed_by, goal_in, successor_in};

/// The initial state. It is one of the system's.
pub fn start<S: Space>(alloc: Global, space: &S) -> Result<State, SpaceFault>
    ensures is { IfOk result (λ s. s ≡ (S.view space.now).system.initial) }
    ensures state { IfOk result (IsState (S.view space.now).task) }
    ensures listed { IfOk result (λ s. Listed (S.view space.now).system.states s) }
{
    let task = space.task();
    // A task fits, and so it has one initial state.
    let _ = task.parts();
    task.start(alloc)
}

/// The values of all variables in a state that operators reach.
pub fn values_of<S: Space>(alloc: Global, space: &S, state: &State) -> Result<Closed, SpaceFault>
    requires { IsReached (S.view space.now).system state.now }
    ensures { IfOk result (Valued (S.view space.now).task state.now) }
{
    let task = space.task();
    // A task fits, and so operators reach no more than its states.
    let _ = task.parts();
    closed_by(alloc, task, space.rules(), state)
}

/// Whether the goal holds in a state, all of whose values are known.
pub fn is_goal<S: Space>(space: &S, state: &State, values: &Closed) -> bool
    requires { Valued (S.view space.now).task state.now values.now }
    ensures { IsTrue result ↔ IsTrue ((S.view space.now).system.goal state.now) }
{
    let task = space.task();
    // A task fits, and so its system tells the goal.
    let _ = task.parts();
    goal_in(task, state, values)
}

/// The state to which the operator leads, None where it doesn't apply. Operators reach the state, all of whose values
/// are known.
pub fn next_state<S: Space>(
    alloc: Global,
    space: &S,
    op: u32,
    state: &State,
    values: &Closed,
) -> Result<Option<State>, SpaceFault>
    requires op { op < (S.view space.now).system.operators }
    requires state { IsReached (S.view space.now).system state.now }
    requires valued { Valued (S.view space.now).task state.now values.now }
    ensures { IfOk result (GoesTo (S.view space.now) op state.now) }
{
    let task = space.task();
    // A task fits, and so its system steps as it does.
    let _ = task.parts();
    if !applies_in(task, op, state, values) {
        return Ok(None);
    }
    Ok(Some(successor_in(alloc, task, op, state, values)?))
}

/// Whether the goal holds in the state, which operators reach.
pub fn goal_at<S: Space>(alloc: Global, space: &S, state: &State) -> Result<bool, SpaceFault>
    requires { IsReached (S.view space.now).system state.now }
    ensures { IfOk result (λ holds. IsTrue holds ↔ IsTrue ((S.view space.now).system.goal state.now)) }
{
    let values = values_of(alloc, space, state)?;
    Ok(is_goal(space, state, &values))
}

/// Membership: whether the state, which operators reach, is one of the set. It takes no memory.
pub fn has_state<S: Space>(space: &S, set: S::Set, state: &State) -> bool
    requires set { Valid (S.view space.now) set }
    requires state { IsReached (S.view space.now).system state.now }
    ensures { result ≡ (S.view space.now).has set state.now }
{
    let task = space.task();
    // A task fits, and so operators reach no more than its states.
    let _ = task.parts();
    space.has(set, state)
}
