//! The calls of a space.

ghost use Rattle.std.specs.Prelude.{◌≡◌, ◌+◌, ◌*◌, ◌<◌, ◌≤◌, ◌↔◌, ◌⊎◌, ℕ, length, slice_index, IsTrue, IsFalse, IfOk, OnOk, OnErr, refl};
ghost use Rattle.symk_task.specs.Variables.{IsBase};
ghost use Rattle.task_system.specs.System.{Listed};
ghost use Rattle.space_api.specs.View.{View, Valid, Has, HasMember, IsEmpty, HasSame, GoalIn, FactIn, Unites, Meets, Lacks, Image, CostImage, Preimage, CostPreimage};
ghost use Rattle.space_api.specs.Frames.{MakesSet, Forgot, Stays};
ghost use Rattle.space_api.specs.Tidied.{Tidied, SameRoom};
ghost use Rattle.space_api.specs.Listing.{ListsReached};
ghost use Rattle.space_api.specs.Costs.{costs_of};
ghost use Rattle.space_api.specs.Operators.{LeadInto, LeadFrom};
ghost use Rattle.bdd_space.specs.Seen.{seen, Needs};

use crate::symbolic::BddSpace;
use space_api::{Space, SpaceFault};
use std::alloc::Global;
use symk_task::{Fact, State, Task};
use task_run::Rules;

impl<'a> Space for BddSpace<'a> {
    type Set = usize;

    ghost view = { seen };

    ghost needs = { Needs };

    ghost of_task = { λ _. refl };

    fn empty(&mut self) -> Result<usize, SpaceFault> {
        let set = self.none();
        self.add(set)
    }

    fn all(&mut self) -> Result<usize, SpaceFault> {
        let set = self.every();
        self.add(set)
    }

    fn init(&mut self) -> Result<usize, SpaceFault> {
        let set = self.start();
        self.add(set)
    }

    fn goal_in(&mut self, a: usize) -> Result<usize, SpaceFault> {
        let set = self.goals_of(a)?;
        self.add(set)
    }

    fn fact_in(&mut self, fact: Fact, a: usize) -> Result<usize, SpaceFault> {
        let set = self.facts_of(fact, a)?;
        self.add(set)
    }

    fn unite(&mut self, a: usize, b: usize) -> Result<usize, SpaceFault> {
        let set = self.union_of(a, b)?;
        self.add(set)
    }

    fn meet(&mut self, a: usize, b: usize) -> Result<usize, SpaceFault> {
        let set = self.intersection_of(a, b)?;
        self.add(set)
    }

    fn minus(&mut self, a: usize, b: usize) -> Result<usize, SpaceFault> {
        let set = self.difference_of(a, b)?;
        self.add(set)
    }

    fn image_cost(&mut self, w: u64, a: usize) -> Result<usize, SpaceFault> {
        let set = self.cost_image_of(w, a)?;
        self.add(set)
    }

    fn image_op(&mut self, op: u32, a: usize) -> Result<usize, SpaceFault> {
        let set = self.image_of(op, a)?;
        self.add(set)
    }

    fn pre_cost(&mut self, w: u64, a: usize, within: usize) -> Result<usize, SpaceFault> {
        let set = self.cost_preimage_of(w, a, within)?;
        self.add(set)
    }

    fn pre_op(&mut self, op: u32, a: usize, within: usize) -> Result<usize, SpaceFault> {
        let set = self.preimage_of(op, a, within)?;
        self.add(set)
    }

    fn forget(&mut self, a: usize) {
        self.sets.empty(a);
    }

    fn held(&self) -> usize {
        self.nodes()
    }

    fn last(&self) -> usize {
        self.last
    }

    /// The steps of the operations on diagrams.
    fn work(&self) -> u64 {
        self.ops.steps()
    }

    fn tidy(&mut self) -> Result<(), SpaceFault> {
        if self.is_full() {
            self.collect()
        } else {
            Ok(())
        }
    }

    fn is_empty(&self, a: usize) -> bool {
        self.has_none(a)
    }

    fn same(&self, a: usize, b: usize) -> bool {
        self.have_same(a, b)
    }

    fn has(&self, a: usize, state: &State) -> bool {
        self.has_values(a, state)
    }

    fn has_init(&self, a: usize) -> bool {
        self.has_start(a)
    }

    fn costs(&self) -> usize {
        self.relations.costs().len()
    }

    fn cost_at(&self, i: usize) -> u64 {
        self.relations.costs()[i]
    }

    fn operators(&self) -> u32 {
        self.task.operators()
    }

    fn cost_of(&self, op: u32) -> u64 {
        self.task.cost(op)
    }

    /// The operators whose facts after a step all have values that occur in the set: the value that an effect without
    /// conditions leaves, if no later effect is on its variable, and conditions on variables that no effect is on.
    fn operators_into(&self, alloc: Global, a: usize) -> Result<Vec<u32>, SpaceFault> {
        self.leading_in(alloc, a)
    }

    /// The operators whose conditions on base variables all have values that occur in the set.
    fn operators_from(&self, alloc: Global, a: usize) -> Result<Vec<u32>, SpaceFault> {
        self.leading_out(alloc, a)
    }

    fn task(&self) -> &Task {
        self.task
    }

    fn rules(&self) -> &Rules {
        self.counting()
    }
}
