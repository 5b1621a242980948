//! One plan as a block of text.

ghost use Rattle.std.specs.Prelude.{◌≡◌, ◌<◌, ◌^◌, ◌++◌, ◌↔◌, All, IfOk, IsTrue, OnOk, length, flat_map};
ghost use Rattle.symk_task.specs.Plans.{IsUnit, cost_of};
ghost use Rattle.plan_out.specs.Texts.{numbered, spaced, ops_line, step_line, cost_line, is_unit, block};

use std::alloc::Global;
use symk_task::{Memory, Plan, Task};
use symk_text::{Text, push_bytes, push_number};

/// The block of the plan, which is the one of this number in its list, counted from 1.
pub fn block(alloc: Global, task: &Task, number: u64, plan: &Plan) -> Result<Vec<u8>, Memory>
    requires operators { All (λ op. op < length task.now.operators) plan.now }
    requires cost { cost_of task.now plan.now < 2 ^ 64 }
    ensures { IfOk result (λ bytes. bytes.items ≡ block task.now number plan.now) }
{
    let cost = task.plan_cost(plan) as u64;
    block_with_cost(alloc, task, number, plan, cost, task.unit())
}

/// The same block, where it is known already what the plan costs, and whether each operator of the task costs 1.
pub fn block_with_cost(
    alloc: Global,
    task: &Task,
    number: u64,
    plan: &Plan,
    cost: u64,
    unit: bool,
) -> Result<Vec<u8>, Memory>
    requires operators { All (λ op. op < length task.now.operators) plan.now }
    requires cost { cost ≡ cost_of task.now plan.now }
    requires unit { IsTrue unit ↔ IsUnit task.now }
    ensures { IfOk result (λ bytes. bytes.items ≡ block task.now number plan.now) }
{
    let mut text = Text::new(alloc);
    push_numbered(&mut text, b"; plan ", number)?;
    push_operators(&mut text, plan.as_slice())?;
    push_steps(&mut text, task, plan.as_slice())?;
    push_cost(&mut text, cost, unit)?;
    Ok(text.into_vec())
}

/// Whether each operator costs 1.
pub fn is_unit(task: &Task) -> bool
    ensures { result ≡ is_unit task.now }
{
    task.unit()
}

/// Appends a line of these bytes and a number.
#[tactic(auto, unfolding(crate::specs::Texts::numbered))]
pub fn push_numbered(text: &mut Text, word: &[u8], number: u64) -> Result<(), Memory>
    ensures { OnOk result (text.new ≡ text.old ++ numbered word.now number) }
{
    push_bytes(text, word)?;
    push_number(text, number)?;
    push_bytes(text, b"\n")
}

/// Appends the line of the operators' numbers.
#[tactic(auto, unfolding(crate::specs::Texts::ops_line))]
fn push_operators(text: &mut Text, operators: &[u32]) -> Result<(), Memory>
    ensures { OnOk result (text.new ≡ text.old ++ ops_line operators.now) }
{
    push_bytes(text, b"; ops")?;
    push_numbers(text, operators)?;
    push_bytes(text, b"\n")
}

/// Appends a space and the number of each operator.
fn push_numbers(text: &mut Text, operators: &[u32]) -> Result<(), Memory>
    ensures { OnOk result (text.new ≡ text.old ++ flat_map spaced operators.now) }
{
    for i in 0..operators.len() {
        push_spaced(text, operators[i])?;
    }
    Ok(())
}

fn push_spaced(text: &mut Text, operator: u32) -> Result<(), Memory>
    ensures { OnOk result (text.new ≡ text.old ++ spaced operator) }
{
    push_bytes(text, b" ")?;
    push_number(text, u64::from(operator))
}

/// Appends a line for each step.
fn push_steps(text: &mut Text, task: &Task, operators: &[u32]) -> Result<(), Memory>
    requires { All (λ op. op < length task.now.operators) operators.now }
    ensures { OnOk result (text.new ≡ text.old ++ flat_map (step_line task.now) operators.now) }
{
    for i in 0..operators.len() {
        push_step(text, task, operators[i])?;
    }
    Ok(())
}

/// Appends the line of one step: the operator's name in parentheses.
#[tactic(auto, unfolding(crate::specs::Texts::step_line))]
fn push_step(text: &mut Text, task: &Task, operator: u32) -> Result<(), Memory>
    requires { operator < length task.now.operators }
    ensures { OnOk result (text.new ≡ text.old ++ step_line task.now operator) }
{
    let parts = task.parts();
    push_bytes(text, b"(")?;
    push_bytes(
        text,
        parts.operators.as_slice()[operator as usize]
            .name
            .as_slice(),
    )?;
    push_bytes(text, b")\n")
}

/// Appends the line of the cost.
#[tactic(auto, unfolding(crate::specs::Texts::cost_line))]
fn push_cost(text: &mut Text, cost: u64, unit: bool) -> Result<(), Memory>
    ensures { OnOk result (text.new ≡ text.old ++ cost_line cost unit) }
{
    push_bytes(text, b"; cost = ")?;
    push_number(text, cost)?;
    if unit {
        push_bytes(text, b" (unit cost)\n")
    } else {
        push_bytes(text, b" (general cost)\n")
    }
}
