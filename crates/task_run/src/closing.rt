//! The values of all variables in a state.

ghost use Rattle.std.specs.Prelude.{◌≡◌, IfOk};
ghost use Rattle.symk_task.specs.Variables.{IsState};
ghost use Rattle.task_run.specs.Values.{Valued};
ghost use Rattle.task_run.specs.Counted.{AreRulesOf};

use crate::layer::close_layer;
use crate::rules::Rules;
use crate::values::{Closed, start_values};
use crate::work::Work;
use std::alloc::Global;
use symk_task::{Memory, State, Task};

/// Axiom evaluation, the value of each variable in the state, where the task's rules are known.
pub fn closed_by(alloc: Global, task: &Task, rules: &Rules, state: &State) -> Result<Closed, Memory>
    requires rules { AreRulesOf task.now rules.now }
    requires state { IsState task.now state.now }
    ensures { IfOk result (Valued task.now state.now) }
{
    let parts = task.parts();
    let variables = parts.variables.as_slice();
    let counting = rules.as_slice();
    let mut values = start_values(alloc, variables, parts.initial.as_slice(), state.as_slice())?;
    if counting.is_empty() {
        return Ok(Closed::of(values));
    }
    let mut work = Work::of(alloc, variables.len(), parts.rules.as_slice().len())?;
    let mut at = 0;
    'layers: while at < counting.len() {
        let layer = counting[at].layer;
        at = work.stack_layer(counting, layer, at)?;
        close_layer(alloc, parts, layer, &mut values, &mut work)?;
    }
    Ok(Closed::of(values))
}

/// Axiom evaluation: the value of each variable in the state.
pub fn closed(alloc: Global, task: &Task, state: &State) -> Result<Closed, Memory>
    requires { IsState task.now state.now }
    ensures { IfOk result (Valued task.now state.now) }
{
    let rules = Rules::of(alloc, task)?;
    closed_by(alloc, task, &rules, state)
}
