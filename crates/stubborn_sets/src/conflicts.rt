//! Of each operator those that are not seen to commute with it.

/// Of each operator those that are not seen to commute with it: each list is made when it is first asked for, and kept.
#[derive(Drop)]
pub(crate) struct Conflicts {
    /// By the number of the operator. The last may have no place here.
    rows: Vec<Option<Vec<u32>>>,
}

ghost use Rattle.std.specs.Prelude.{◌≡◌, ◌<◌, ◌↔◌, ℕ, IsTrue, None, IfOk, OnOk, IsSome, Some, length};
ghost use Rattle.stubborn_sets.specs.Kept.{conflicts_at, AreConflicts, KnowsConflicts, PutsRow};

use crate::testing::commute;
use std::alloc::Global;
use symk_task::{Memory, Task};

/// The operators that are not seen to commute with this one.
fn conflicts_of(alloc: Global, task: &Task, one: u32) -> Result<Vec<u32>, Memory>
    requires { one < length task.now.operators }
    ensures { IfOk result (λ ops. AreConflicts task.now one ops.items) }
{
    let mut ops = Vec::new(alloc);
    for other in 0..task.operators() {
        if !commute(task, one, other) {
            ops.push(other)?;
        }
    }
    Ok(ops)
}

impl Conflicts {
    pub(crate) fn new(alloc: Global) -> Conflicts
        ensures { (i : ℕ) → conflicts_at result i ≡ None }
    {
        Conflicts {
            rows: Vec::new(alloc),
        }
    }

    /// Whether the operator's list was made.
    fn has(&self, one: usize) -> bool
        ensures { IsTrue result ↔ IsSome (conflicts_at self.now one) }
    {
        one < self.rows.len() && self.rows[one].is_some()
    }

    /// Keeps the operator's list.
    fn keep(&mut self, one: usize, ops: Vec<u32>) -> Result<(), Memory>
        ensures ok { OnOk result (conflicts_at self.new one ≡ Some ops.items) }
        ensures puts { PutsRow (conflicts_at self.old) (conflicts_at self.new) one ops.items }
    {
        'places: while self.rows.len() <= one {
            self.rows.push(None)?;
        }
        self.rows[one] = Some(ops);
        Ok(())
    }

    /// Sees to it that the operator's list is made.
    pub(crate) fn find(&mut self, alloc: Global, task: &Task, one: u32) -> Result<(), Memory>
        requires one { one < length task.now.operators }
        requires known { KnowsConflicts task.now self.old }
        ensures known { KnowsConflicts task.now self.new }
        ensures found { OnOk result (IsSome (conflicts_at self.new one)) }
    {
        if self.has(one as usize) {
            return Ok(());
        }
        let ops = conflicts_of(alloc, task, one)?;
        self.keep(one as usize, ops)
    }

    /// The operator's list.
    pub(crate) fn of(&self, one: usize) -> &[u32]
        requires { IsSome (conflicts_at self.now one) }
        ensures { conflicts_at self.now one ≡ Some result.now }
    {
        match &self.rows[one] {
            Some(ops) => ops.as_slice(),
            None => unreachable!(),
        }
    }
}
