//! All values in a state.

ghost use Rattle.std.specs.Prelude.{◌≡◌, ◌<◌, ◌↔◌, ℕ, List, length, All, IsTrue, IfOk, slice_index, count_by};
ghost use Rattle.symk_task.specs.Variables.{is_base};
ghost use Rattle.task_run.specs.Values.{HasValue, AreBelow};
ghost use Rattle.task_run.specs.Layer.{start_value};

use std::alloc::Global;
use std::marker::Model;
use symk_task::{Fact, Memory, Variable};

/// One value for each variable of a task, derived ones included, in the order of the file.
#[derive(Drop)]
pub struct Closed {
    values: Vec<u32>,
}

impl Model for Closed {
    ghost Value = { List ℕ };

    ghost view = { λ a. a.values.items };
}

impl Closed {
    pub(crate) fn of(values: Vec<u32>) -> Closed
        ensures { result ≡ values.items }
    {
        Closed { values }
    }

    /// The value of each variable, in the order of the task.
    pub fn as_slice(&self) -> &[u32]
        ensures { result.now ≡ self.now }
    {
        &self.values
    }
}

/// Whether each fact has its value.
pub(crate) fn all_have(facts: &[Fact], values: &[u32]) -> bool
    requires { AreBelow (length values.now) facts.now }
    ensures { IsTrue result ↔ All (HasValue values.now) facts.now }
{
    for fact in facts {
        if values[fact.var as usize] != fact.val {
            return false;
        }
    }
    true
}

/// The values of the state, and the default values of the derived variables.
pub(crate) fn start_values(
    alloc: Global,
    variables: &[Variable],
    defaults: &[u32],
    state: &[u32],
) -> Result<Vec<u32>, Memory>
    requires defaults { length defaults.now ≡ length variables.now }
    requires state { length state.now ≡ count_by is_base variables.now }
    ensures each { IfOk result (λ values. length values.items ≡ length variables.now) }
    ensures values { IfOk result (λ values. (var : ℕ) → var < length variables.now →
        slice_index values.items var ≡ start_value variables.now defaults.now state.now var) }
{
    let mut values = Vec::with_capacity(alloc, variables.len())?;
    let mut place = 0;
    for i in 0..variables.len() {
        if variables[i].layer.is_none() {
            values.push(state[place])?;
            place += 1;
        } else {
            values.push(defaults[i])?;
        }
    }
    Ok(values)
}
