//! Sets made of others.

ghost use Rattle.std.specs.Prelude.{◌≡◌, IfOk};
ghost use Rattle.symk_task.specs.Variables.{IsBase};
ghost use Rattle.task_system.specs.System.{Listed};
ghost use Rattle.space_api.specs.View.{Valid, GoalIn, FactIn, Unites, Meets, Lacks};
ghost use Rattle.space_api.specs.Frames.{Kept};
ghost use Rattle.space_api.specs.Listing.{ListsReached};
ghost use Rattle.bdd_space.specs.Symbolic.{GrowsSymbolic, Makes};
ghost use Rattle.bdd_space.specs.Seen.{seen};

use crate::symbolic::BddSpace;
use bdd_sets::fact_set;
use bdd_table::{FALSE, Id};
use symk_task::{Fact, Memory};

impl<'a> BddSpace<'a> {
    /// No state.
    pub(crate) fn none(&self) -> Id
        ensures { Makes self.now (λ _. ⊥) result }
    {
        let _ = &self.ops;
        FALSE
    }

    /// Every state.
    pub(crate) fn every(&self) -> Id
        ensures reached { ListsReached (seen self.now).system }
        ensures made { Makes self.now (Listed (seen self.now).system.states) result }
    {
        self.own.all
    }

    /// The initial state.
    pub(crate) fn start(&self) -> Id
        ensures { Makes self.now (λ s. s ≡ (seen self.now).system.initial) result }
    {
        self.own.start
    }

    /// The states of a set where the goal holds.
    pub(crate) fn goals_of(&mut self, a: usize) -> Result<Id, Memory>
        requires { Valid (seen self.old) a }
        ensures made { IfOk result (Makes self.new (GoalIn (seen self.old) a)) }
        ensures grows { GrowsSymbolic self.old self.new }
        ensures kept { Kept (seen self.old) (seen self.new) }
    {
        let set = self.id(a);
        self.ops.conj(set, self.own.goals)
    }

    /// The states of a set where the fact of a base variable holds.
    pub(crate) fn facts_of(&mut self, fact: Fact, a: usize) -> Result<Id, Memory>
        requires fact { IsBase self.old.task fact.var }
        requires a { Valid (seen self.old) a }
        ensures made { IfOk result (Makes self.new (FactIn (seen self.old) fact a)) }
        ensures grows { GrowsSymbolic self.old self.new }
        ensures kept { Kept (seen self.old) (seen self.new) }
    {
        let set = self.id(a);
        let facts = fact_set(&mut self.ops, &self.order, fact)?;
        self.ops.conj(set, facts)
    }

    /// The states of one of both sets, or of both.
    pub(crate) fn union_of(&mut self, a: usize, b: usize) -> Result<Id, Memory>
        requires a { Valid (seen self.old) a }
        requires b { Valid (seen self.old) b }
        ensures made { IfOk result (Makes self.new (Unites (seen self.old) a b)) }
        ensures grows { GrowsSymbolic self.old self.new }
        ensures kept { Kept (seen self.old) (seen self.new) }
    {
        let f = self.id(a);
        let g = self.id(b);
        self.ops.disj(f, g)
    }

    /// The states of both sets.
    pub(crate) fn intersection_of(&mut self, a: usize, b: usize) -> Result<Id, Memory>
        requires a { Valid (seen self.old) a }
        requires b { Valid (seen self.old) b }
        ensures made { IfOk result (Makes self.new (Meets (seen self.old) a b)) }
        ensures grows { GrowsSymbolic self.old self.new }
        ensures kept { Kept (seen self.old) (seen self.new) }
    {
        let f = self.id(a);
        let g = self.id(b);
        self.ops.conj(f, g)
    }

    /// The states of the first set that are not in the second.
    pub(crate) fn difference_of(&mut self, a: usize, b: usize) -> Result<Id, Memory>
        requires a { Valid (seen self.old) a }
        requires b { Valid (seen self.old) b }
        ensures made { IfOk result (Makes self.new (Lacks (seen self.old) a b)) }
        ensures grows { GrowsSymbolic self.old self.new }
        ensures kept { Kept (seen self.old) (seen self.new) }
    {
        let f = self.id(a);
        let g = self.id(b);
        self.ops.minus(f, g)
    }
}
