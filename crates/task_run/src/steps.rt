//! Steps from state to state.

ghost use Rattle.std.specs.Prelude.{◌≡◌, ◌<◌, ◌↔◌, ℕ, length, All, IsTrue, IfOk, IfSome, MatchOption, slice_index};
ghost use Rattle.symk_task.specs.Variables.{IsState};
ghost use Rattle.symk_task.specs.Steps.{Holds, Applies, After, Step, ValueAfter};
ghost use Rattle.task_run.specs.Values.{HasValue, Valued, AreBelow, IsOn, FiresBy, AllowsBy, AppliesBy};

use crate::closing::closed;
use crate::values::{Closed, all_have};
use std::alloc::Global;
use symk_task::{Effect, Memory, Operator, State, Task, base_values};

/// Whether the effect asks for no other value than its variable's.
fn allows(effect: &Effect, values: &[u32]) -> bool
    requires { effect.now.var < length values.now }
    ensures { IsTrue result ↔ AllowsBy values.now effect.now }
{
    match effect.pre {
        Some(value) => values[effect.var as usize] == value,
        None => true,
    }
}

/// Whether no effect asks for another value than its variable's.
fn all_allow(effects: &[Effect], values: &[u32]) -> bool
    requires { All (IsOn (length values.now)) effects.now }
    ensures { IsTrue result ↔ All (AllowsBy values.now) effects.now }
{
    for effect in effects {
        if !allows(effect, values) {
            return false;
        }
    }
    true
}

/// Whether all preconditions have their values.
fn applies_by(operator: &Operator, values: &[u32]) -> bool
    requires prevail { AreBelow (length values.now) operator.now.prevail }
    requires effects { All (IsOn (length values.now)) operator.now.effects }
    ensures { IsTrue result ↔ AppliesBy values.now operator.now }
{
    all_have(operator.prevail.as_slice(), values) && all_allow(operator.effects.as_slice(), values)
}

/// Whether the effect changes its variable.
fn fires(effect: &Effect, values: &[u32]) -> bool
    requires { AreBelow (length values.now) effect.now.conds }
    ensures { IsTrue result ↔ FiresBy values.now effect.now }
{
    all_have(effect.conds.as_slice(), values)
}

/// The values after the effects, in order; a later one on the same variable stands.
fn values_after(alloc: Global, effects: &[Effect], values: &[u32]) -> Result<Vec<u32>, Memory>
    requires { All (IsOn (length values.now)) effects.now }
    ensures each { IfOk result (λ next. length next.items ≡ length values.now) }
    ensures values { IfOk result (λ next. (var : ℕ) →
        ValueAfter (FiresBy values.now) effects.now var (slice_index values.now var) (slice_index next.items var)) }
{
    let mut next = Vec::from_slice(alloc, values)?;
    for effect in effects {
        if fires(effect, values) {
            next[effect.var as usize] = effect.post;
        }
    }
    Ok(next)
}

/// Whether the operator applies in the state, all of whose values are known.
pub fn applies_in(task: &Task, operator: u32, state: &State, values: &Closed) -> bool
    requires operator { operator < length task.now.operators }
    requires valued { Valued task.now state.now values.now }
    ensures { IsTrue result ↔ Applies task.now state.now operator }
{
    let parts = task.parts();
    applies_by(
        &parts.operators.as_slice()[operator as usize],
        values.as_slice(),
    )
}

/// The state that the operator leads to from the state, all of whose values are known.
pub fn successor_in(
    alloc: Global,
    task: &Task,
    operator: u32,
    state: &State,
    values: &Closed,
) -> Result<State, Memory>
    requires state { IsState task.now state.now }
    requires applies { Applies task.now state.now operator }
    requires valued { Valued task.now state.now values.now }
    ensures after { IfOk result (After task.now state.now operator) }
    ensures state { IfOk result (IsState task.now) }
{
    let parts = task.parts();
    let operator = &parts.operators.as_slice()[operator as usize];
    let next = values_after(alloc, operator.effects.as_slice(), values.as_slice())?;
    base_values(alloc, parts.variables.as_slice(), &next)
}

/// Whether each goal fact holds in the state, all of whose values are known.
pub fn goal_in(task: &Task, state: &State, values: &Closed) -> bool
    requires { Valued task.now state.now values.now }
    ensures { IsTrue result ↔ All (Holds task.now state.now) task.now.goal }
{
    all_have(task.parts().goal.as_slice(), values.as_slice())
}

/// Applicability: whether the operator applies in the state.
pub fn applies(alloc: Global, task: &Task, operator: u32, state: &State) -> Result<bool, Memory>
    requires operator { operator < length task.now.operators }
    requires state { IsState task.now state.now }
    ensures { IfOk result (λ answer. IsTrue answer ↔ Applies task.now state.now operator) }
{
    let values = closed(alloc, task, state)?;
    Ok(applies_in(task, operator, state, &values))
}

/// Progression: the state that the operator leads to from the state.
pub fn successor(alloc: Global, task: &Task, operator: u32, state: &State) -> Result<State, Memory>
    requires state { IsState task.now state.now }
    requires applies { Applies task.now state.now operator }
    ensures after { IfOk result (After task.now state.now operator) }
    ensures state { IfOk result (IsState task.now) }
{
    let values = closed(alloc, task, state)?;
    successor_in(alloc, task, operator, state, &values)
}

/// The state that the operator leads to from the state, where it applies.
pub fn step(
    alloc: Global,
    task: &Task,
    operator: u32,
    state: &State,
) -> Result<Option<State>, Memory>
    requires operator { operator < length task.now.operators }
    requires state { IsState task.now state.now }
    ensures step { IfOk result (λ next. MatchOption next (¬ Applies task.now state.now operator)
        (Step task.now state.now operator)) }
    ensures state { IfOk result (λ next. IfSome next (IsState task.now)) }
{
    let values = closed(alloc, task, state)?;
    if applies_in(task, operator, state, &values) {
        Ok(Some(successor_in(alloc, task, operator, state, &values)?))
    } else {
        Ok(None)
    }
}

/// Whether each goal fact holds in the state.
pub fn goal_holds(alloc: Global, task: &Task, state: &State) -> Result<bool, Memory>
    requires { IsState task.now state.now }
    ensures { IfOk result (λ answer. IsTrue answer ↔ All (Holds task.now state.now) task.now.goal) }
{
    let values = closed(alloc, task, state)?;
    Ok(goal_in(task, state, &values))
}
