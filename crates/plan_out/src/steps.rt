//! What a block's lines say of its steps and its cost.

ghost use Rattle.std.specs.Prelude.{◌≡◌, ℕ, ◌<◌, ◌≤◌, ◌-◌, ◌↔◌, All, IsTrue, MatchOption, length};
ghost use Rattle.task_run.specs.Verdicts.{IsTooLarge};
ghost use Rattle.plan_out.specs.Fails.{name_of, IsStepNamed, IsMisnamed, IsCostLine};

use crate::blocks::ReadBlock;
use crate::print::is_unit;
use symk_task::{Name, Operator, Task};

/// The first step whose number isn't below the number of operators.
pub fn too_large(numbers: &[u32], operators: u32) -> Option<u64>
    ensures { MatchOption result (All (λ op. op < operators) numbers.now) (λ step. (1 ≤ step)
        × IsTooLarge operators numbers.now (step - 1)) }
{
    for i in 0..numbers.len() {
        if numbers[i] >= operators {
            return Some(i as u64 + 1);
        }
    }
    None
}

/// The first step whose name isn't its operator's.
pub fn wrong_name(all: &[Operator], operators: &[u32], names: &[Name]) -> Option<u64>
    requires operators { All (λ op. op < length all.now) operators.now }
    requires names { length names.now ≡ length operators.now }
    ensures { MatchOption result
        ((k : ℕ) → k < length operators.now → IsStepNamed all.now operators.now names.now k)
        (λ step. (1 ≤ step) × IsMisnamed all.now operators.now names.now (step - 1)) }
{
    for i in 0..operators.len() {
        if !is_named(all, operators[i], &names[i]) {
            return Some(i as u64 + 1);
        }
    }
    None
}

/// Whether the name is the operator's.
fn is_named(all: &[Operator], operator: u32, name: &Name) -> bool
    requires { operator < length all.now }
    ensures { IsTrue result ↔ (name.now ≡ name_of all.now operator) }
{
    name.as_slice() == all[operator as usize].name.as_slice()
}

/// Whether the cost line is the one of a plan of this cost.
pub fn cost_fits(task: &Task, block: &ReadBlock, cost: u128) -> bool
    ensures { IsTrue result ↔ IsCostLine task.now block.now cost }
{
    u128::from(block.cost) == cost && block.unit == is_unit(task)
}
