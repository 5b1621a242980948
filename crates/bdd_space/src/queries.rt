//! What is asked of sets.

ghost use Rattle.std.specs.Prelude.{◌≡◌, ◌<◌, ◌↔◌, IsTrue, IsFalse, IfOk};
ghost use Rattle.symk_task.specs.Variables.{IsState};
ghost use Rattle.task_run.specs.Counted.{AreRulesOf};
ghost use Rattle.space_api.specs.View.{Valid, HasMember, IsEmpty, HasSame};
ghost use Rattle.space_api.specs.Operators.{LeadInto, LeadFrom};
ghost use Rattle.bdd_space.specs.Seen.{seen};

use crate::symbolic::BddSpace;
use bdd_sets::{has, leading_from, leading_into};
use bdd_table::FALSE;
use std::alloc::Global;
use symk_task::{Memory, State};
use task_run::Rules;

impl<'a> BddSpace<'a> {
    /// Whether the set has no state.
    pub(crate) fn has_none(&self, a: usize) -> bool
        requires { Valid (seen self.now) a }
        ensures empty { IsTrue result ↔ IsEmpty (seen self.now) a }
        ensures member { IsFalse result → HasMember (seen self.now) a }
    {
        let set = self.id(a);
        let _ = &self.ops;
        set == FALSE
    }

    /// Whether the sets have the same states.
    pub(crate) fn have_same(&self, a: usize, b: usize) -> bool
        requires a { Valid (seen self.now) a }
        requires b { Valid (seen self.now) b }
        ensures { IsTrue result ↔ HasSame (seen self.now) a b }
    {
        let f = self.id(a);
        let g = self.id(b);
        let _ = &self.ops;
        f == g
    }

    /// Whether the set has the state.
    pub(crate) fn has_values(&self, a: usize, state: &State) -> bool
        requires a { Valid (seen self.now) a }
        requires state { IsState self.now.task state.now }
        ensures { result ≡ (seen self.now).has a state.now }
    {
        let set = self.id(a);
        has(&self.ops, &self.order, set, state)
    }

    /// The rules of the task that count.
    pub(crate) fn counting(&self) -> &Rules
        ensures { AreRulesOf self.now.task result.now }
    {
        &self.rules
    }

    /// Whether the set has the initial state.
    pub(crate) fn has_start(&self, a: usize) -> bool
        requires { Valid (seen self.now) a }
        ensures { result ≡ (seen self.now).has a (seen self.now).system.initial }
    {
        let set = self.id(a);
        has(&self.ops, &self.order, set, &self.initial)
    }

    /// The operators that may lead into the set.
    pub(crate) fn leading_in(&self, alloc: Global, a: usize) -> Result<Vec<u32>, Memory>
        requires { Valid (seen self.now) a }
        ensures { IfOk result (λ ops. LeadInto (seen self.now) a ops.items) }
    {
        let set = self.id(a);
        let table = self.ops.table();
        leading_into(alloc, self.task, table, &self.order, &self.steps, set)
    }

    /// The operators that may apply in states of the set.
    pub(crate) fn leading_out(&self, alloc: Global, a: usize) -> Result<Vec<u32>, Memory>
        requires { Valid (seen self.now) a }
        ensures { IfOk result (λ ops. LeadFrom (seen self.now) a ops.items) }
    {
        let set = self.id(a);
        let table = self.ops.table();
        leading_from(alloc, self.task, table, &self.order, &self.steps, set)
    }
}
