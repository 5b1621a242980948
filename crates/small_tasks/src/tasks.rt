//! The tasks.

ghost use Rattle.std.specs.Prelude.{◌≡◌, IfOk};
ghost use Rattle.small_tasks.specs.Tasks.{one_switch, switch_and_back, two_switches, axioms, goal_at_start, no_operator, no_plan, zero_costs, conditional_effects, later_effect_undoes, later_effect_reaches, past_64_bits, near_and_far, same_name_twice};

use crate::stating;
use std::alloc::Global;
use symk_task::{Memory, Task};

/// A switch that is to be on, and an operator that turns it on.
pub fn one_switch(alloc: Global) -> Result<Task, Memory>
    ensures { IfOk result (λ task. task ≡ one_switch) }
{
    Ok(Task::of(stating::one_switch(alloc)?))
}

/// A switch that is to be on, and operators that turn it on and off.
pub fn switch_and_back(alloc: Global) -> Result<Task, Memory>
    ensures { IfOk result (λ task. task ≡ switch_and_back) }
{
    Ok(Task::of(stating::switch_and_back(alloc)?))
}

/// Two switches that are both to be on, and an operator for each that turns it on.
pub fn two_switches(alloc: Global) -> Result<Task, Memory>
    ensures { IfOk result (λ task. task ≡ two_switches) }
{
    Ok(Task::of(stating::two_switches(alloc)?))
}

/// A place that goes on twice, and rules that all is done at the second and the third.
pub fn axioms(alloc: Global) -> Result<Task, Memory>
    ensures { IfOk result (λ task. task ≡ axioms) }
{
    Ok(Task::of(stating::axioms(alloc)?))
}

/// The goal holds at the start, and there is no operator.
pub fn goal_at_start(alloc: Global) -> Result<Task, Memory>
    ensures { IfOk result (λ task. task ≡ goal_at_start) }
{
    Ok(Task::of(stating::goal_at_start(alloc)?))
}

/// The goal doesn't hold, and there is no operator.
pub fn no_operator(alloc: Global) -> Result<Task, Memory>
    ensures { IfOk result (λ task. task ≡ no_operator) }
{
    Ok(Task::of(stating::no_operator(alloc)?))
}

/// The aim is to be on, and operators turn a lamp on and off.
pub fn no_plan(alloc: Global) -> Result<Task, Memory>
    ensures { IfOk result (λ task. task ≡ no_plan) }
{
    Ok(Task::of(stating::no_plan(alloc)?))
}

/// An operator leads to the goal at cost 1, and another changes nothing at cost 0.
pub fn zero_costs(alloc: Global) -> Result<Task, Memory>
    ensures { IfOk result (λ task. task ≡ zero_costs) }
{
    Ok(Task::of(stating::zero_costs(alloc)?))
}

/// Two variables whose values are to be exchanged, and the operator that does it.
pub fn conditional_effects(alloc: Global) -> Result<Task, Memory>
    ensures { IfOk result (λ task. task ≡ conditional_effects) }
{
    Ok(Task::of(stating::conditional_effects(alloc)?))
}

/// An operator whose earlier effect reaches the goal and whose later one undoes that.
pub fn later_effect_undoes(alloc: Global) -> Result<Task, Memory>
    ensures { IfOk result (λ task. task ≡ later_effect_undoes) }
{
    Ok(Task::of(stating::later_effect_undoes(alloc)?))
}

/// An operator whose later effect reaches the goal, and whose earlier one doesn't.
pub fn later_effect_reaches(alloc: Global) -> Result<Task, Memory>
    ensures { IfOk result (λ task. task ≡ later_effect_reaches) }
{
    Ok(Task::of(stating::later_effect_reaches(alloc)?))
}

/// The only plan costs 2^64.
pub fn past_64_bits(alloc: Global) -> Result<Task, Memory>
    ensures { IfOk result (λ task. task ≡ past_64_bits) }
{
    Ok(Task::of(stating::past_64_bits(alloc)?))
}

/// One plan costs a million millions, and the other one more.
pub fn near_and_far(alloc: Global) -> Result<Task, Memory>
    ensures { IfOk result (λ task. task ≡ near_and_far) }
{
    Ok(Task::of(stating::near_and_far(alloc)?))
}

/// Two operators of one name that do the same.
pub fn same_name_twice(alloc: Global) -> Result<Task, Memory>
    ensures { IfOk result (λ task. task ≡ same_name_twice) }
{
    Ok(Task::of(stating::same_name_twice(alloc)?))
}
