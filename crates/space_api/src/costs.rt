//! The different costs of a task's operators.

ghost use Rattle.std.specs.Prelude.{◌≡◌, ◌<◌, ◌↔◌, ℕ, length, IsTrue, IfOk};
ghost use Rattle.std.specs.Ordering.{nat_cmp};
ghost use Rattle.std.specs.BTreeSet.{contains};
ghost use Rattle.std.specs.List.Sorted.{IsStrictlyIncreasing};
ghost use Rattle.symk_task.specs.Steps.{cost_at};
ghost use Rattle.task_system.specs.Computed.{system_of};
ghost use Rattle.space_api.specs.Costs.{costs_of};

use std::alloc::Global;
use std::collections::BTreeSet;
use symk_task::{Memory, Task};

/// The set of the operators' costs.
fn cost_set(alloc: Global, task: &Task) -> Result<BTreeSet<u64>, Memory>
    ensures { IfOk result (λ set. (c : ℕ) → IsTrue (contains nat_cmp set c) ↔
        ((op : ℕ) × (op < length task.now.operators) × (cost_at task.now op ≡ c))) }
{
    let mut set = BTreeSet::new(alloc);
    'operators: for operator in 0..task.operators() {
        set.insert(task.cost(operator))?;
    }
    Ok(set)
}

/// The members of the set, rising.
fn members(alloc: Global, set: &BTreeSet<u64>) -> Result<Vec<u64>, Memory>
    ensures members { IfOk result (λ numbers. numbers.items ≡ set.now.keys) }
    ensures rising { IsStrictlyIncreasing set.now.keys }
{
    set.iter().copied().collect(alloc)
}

/// The different costs of the task's operators, rising. Memory is the only refusal.
pub fn operator_costs(alloc: Global, task: &Task) -> Result<Vec<u64>, Memory>
    ensures { IfOk result (λ costs. costs.items ≡ costs_of (system_of task.now)) }
{
    let set = cost_set(alloc, task)?;
    members(alloc, &set)
}
