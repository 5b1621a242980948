//! The rules of a task that count, by layer.

ghost use Rattle.std.specs.Prelude.{◌≡◌, IfOk};

use crate::counting::{Counting, counting_rules};
use std::alloc::Global;
use std::marker::Model;
use symk_task::{Memory, Task};

/// Axioms: the rules of a task that count, from the lowest layer to the highest. A search makes them once.
#[derive(Drop)]
pub struct Rules {
    counting: Vec<Counting>,
}

impl Model for Rules {
    ghost use Rattle.std.specs.Prelude.{List};
    ghost use Rattle.task_run.specs.declared.counting.Counting.{Counting};

    ghost Value = { List Counting };

    ghost view = { λ a. a.counting.items };
}

impl Rules {
    ghost use Rattle.task_run.specs.Counted.{AreRulesOf};

    /// The rules of the task that count.
    pub fn of(alloc: Global, task: &Task) -> Result<Rules, Memory>
        ensures { IfOk result (AreRulesOf task.now) }
    {
        let mut counting = counting_rules(alloc, task.parts())?;
        counting.sort_by_key(|rule| rule.layer)?;
        Ok(Rules { counting })
    }

    /// Those of the lowest layer first.
    pub fn as_slice(&self) -> &[Counting]
        ensures { result.now ≡ self.now }
    {
        &self.counting
    }
}
