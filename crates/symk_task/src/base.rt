//! The values of the base variables.

ghost use Rattle.std.specs.Prelude.{◌≡◌, length, IfOk};
ghost use Rattle.symk_task.specs.Variables.{base_values};

use crate::list::{Memory, State};
use crate::parts::Variable;
use std::alloc::Global;

/// The state of the base variables among the variables, each with its value.
pub fn base_values(alloc: Global, variables: &[Variable], values: &[u32]) -> Result<State, Memory>
    requires { length values.now ≡ length variables.now }
    ensures { IfOk result (λ state. state ≡ base_values variables.now values.now) }
{
    let mut base = Vec::with_capacity(alloc, values.len())?;
    for i in 0..variables.len() {
        if variables[i].layer.is_none() {
            base.push(values[i])?;
        }
    }
    Ok(State::of(base))
}
