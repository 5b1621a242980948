//! Tasks that are made, not read.
//!
//! `switches(n)` is the task of n switches that are all to be on: an operator for each flips it, and one rule says
//! that all are on. Its plans are the lists in which each operator stands an odd number of times. It is exactly the
//! task that `specs/Switches.antt` states, and it fits. It stands on `symk_task`.
#![tactic(auto)]

mod parts;

ghost use Rattle.std.specs.Prelude.{◌≡◌, ◌≤◌, IfOk};
ghost use Rattle.task_gen.specs.Switches.{switches};

use crate::parts::switches_parts;
use std::alloc::Global;
use symk_task::{Memory, Task};

/// The task of `n` switches, 1 to 64, each off at first and all to be on.
pub fn switches(alloc: Global, n: u32) -> Result<Task, Memory>
    requires some { 1 ≤ n }
    requires most { n ≤ 64 }
    ensures { IfOk result (λ task. task ≡ switches n) }
{
    Ok(Task::of(switches_parts(alloc, n)?))
}
