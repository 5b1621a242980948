//! Single states, by the operators that lead to them.

ghost use Rattle.std.specs.Prelude.{Some, IfOk};
ghost use Rattle.symk_task.specs.Variables.{IsState};
ghost use Rattle.task_system.specs.System.{State, Leads, RunsInSystem};
ghost use Rattle.space_api.specs.View.{View};
ghost use Rattle.space_api.specs.States.{IsReached, GoesTo};

use space_api::{Space, SpaceFault, next_state, start, values_of};
use std::alloc::Global;
use symk_task::State;

/// The state to which the operator leads, where it leads on.
fn step_on<S: Space>(alloc: Global, space: &S, op: u32, state: &State) -> Result<State, SpaceFault>
    requires state { IsReached (S.view space.now).system state.now }
    requires leads { (t : State) × Leads (S.view space.now).system op state.now t }
    ensures { IfOk result (λ t. GoesTo (S.view space.now) op state.now (Some t)) }
{
    let values = values_of(alloc, space, state)?;
    match next_state(alloc, space, op, state, &values)? {
        Some(next) => Ok(next),
        None => unreachable!(),
    }
}

/// The one state that the operators reach.
pub(crate) fn reached<S: Space>(
    alloc: Global,
    space: &S,
    operators: &[u32],
) -> Result<State, SpaceFault>
    requires { (t : State) × RunsInSystem (S.view space.now).system (S.view space.now).system.initial operators.now t }
    ensures runs { IfOk result (RunsInSystem (S.view space.now).system
        (S.view space.now).system.initial operators.now) }
    ensures state { IfOk result (IsState (S.view space.now).task) }
{
    let mut state = start(alloc, space)?;
    'operators: for op in operators {
        state = step_on(alloc, space, *op, &state)?;
    }
    Ok(state)
}
