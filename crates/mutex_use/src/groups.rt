//! Groups of a task, and which of them are over base variables alone.

ghost use Rattle.std.specs.Prelude.{◌≡◌, ◌<◌, ◌↔◌, ℕ, IsTrue, IfOk, IsSomeAnd, None, length, slice_get, Contains};
ghost use Rattle.std.specs.List.Sorted.{IsStrictlyIncreasing};
ghost use Rattle.symk_task.specs.Fits.{Fits};
ghost use Rattle.mutex_use.specs.Groups.{mutex_group_at, AreBaseFacts, IsBaseGroup};

use std::alloc::Global;
use symk_task::{Fact, Memory, Task, Variable};

/// The facts of the group of this number.
pub(crate) fn facts_of(task: &Task, group: u32) -> &[Fact]
    requires { group < length task.now.mutexes }
    ensures value { result.now ≡ mutex_group_at task.now group }
    ensures fits { Fits task.now }
{
    task.parts().mutexes.as_slice()[group as usize].as_slice()
}

/// Whether the number is that of a base variable.
fn is_base(variables: &[Variable], var: u32) -> bool
    ensures { IsTrue result ↔ IsSomeAnd (slice_get variables.now var) (λ v. v.layer ≡ None) }
{
    match variables.get(var as usize) {
        Some(variable) => variable.layer.is_none(),
        None => false,
    }
}

/// Whether each fact is one of a base variable.
fn are_base(task: &Task, facts: &[Fact]) -> bool
    ensures { IsTrue result ↔ AreBaseFacts task.now facts.now }
{
    let variables = task.parts().variables.as_slice();
    facts.iter().all(|fact| is_base(variables, fact.var))
}

/// The groups over base variables alone, by their numbers, rising.
pub(crate) fn base_groups(alloc: Global, task: &Task) -> Result<Vec<u32>, Memory>
    ensures each { IfOk result (λ groups. (g : ℕ) → Contains groups.items g ↔ IsBaseGroup task.now g) }
    ensures rising { IfOk result (λ groups. IsStrictlyIncreasing groups.items) }
{
    let mut groups = Vec::new(alloc);
    'groups: for group in 0..task.parts().mutexes.len() as u32 {
        if are_base(task, facts_of(task, group)) {
            groups.push(group)?;
        }
    }
    Ok(groups)
}
