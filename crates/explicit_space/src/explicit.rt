//! A task, and sets of its states by number.

use std::alloc::Global;
use std::collections::BTreeSet;
use std::marker::Model;
use symk_task::{Memory, State, Task};
use task_run::Rules;

/// The sets of states of one task, each an ordered set.
#[derive(Drop)]
pub struct ExplicitSpace<'a> {
    task: &'a Task,
    rules: Rules,
    initial: State,
    costs: Vec<u64>,
    sets: Vec<Option<BTreeSet<State>>>,
    alloc: Global,
}

impl<'a> Model for ExplicitSpace<'a> {
    ghost use Rattle.explicit_space.specs.Explicit.{Explicit, KeepsExplicit};

    ghost Value = { Explicit };

    ghost view = { λ a. record { task = a.task.now; sets = a.sets.items } };

    ghost invariant = { λ a. KeepsExplicit a.task.now a.rules a.initial a.costs.items a.sets.items };
}

ghost use Rattle.std.specs.Prelude.{◌≡◌, ◌<◌, ◌↔◌, ◌⊎◌, ℕ, [], Some, length, slice_index, IsTrue, IsFalse, IfOk, OnErr, refl};
ghost use Rattle.symk_task.specs.Variables.{IsBase};
ghost use Rattle.task_system.specs.System.{Listed};
ghost use Rattle.task_system.specs.Computed.{system_of};
ghost use Rattle.space_api.specs.View.{View, Valid, Has, HasMember, IsEmpty, HasSame, GoalIn, FactIn, Unites, Meets, Lacks, Image, CostImage, Preimage, CostPreimage};
ghost use Rattle.space_api.specs.Frames.{MakesSet, Forgot};
ghost use Rattle.space_api.specs.Listing.{ListsReached};
ghost use Rattle.space_api.specs.Costs.{costs_of};
ghost use Rattle.space_api.specs.Operators.{LeadInto, LeadFrom};
ghost use Rattle.explicit_space.specs.Members.{has_explicit_state, AreStates, HasThoseStates};
ghost use Rattle.explicit_space.specs.Explicit.{explicit_set_at};
ghost use Rattle.explicit_space.specs.Seen.{explicit_view};

use crate::facts::fact_states;
use crate::members::{difference, intersection, is_subset, single, union};
use crate::states::all_states;
use crate::steps::{cost_image, cost_preimage, goal_states, image, preimage};
use space_api::{Space, SpaceFault, all_operators, operator_costs};
use symk_task::Fact;

impl<'a> ExplicitSpace<'a> {
    /// The space of the task, with no valid set.
    pub fn of(alloc: Global, task: &'a Task) -> Result<ExplicitSpace<'a>, Memory>
        ensures task { IfOk result (λ space. space.task ≡ task.now) }
        ensures none { IfOk result (λ space. space.sets ≡ []) }
    {
        // A task fits, and so the space's own facts hold.
        let _ = task.parts();
        Ok(ExplicitSpace {
            task,
            rules: Rules::of(alloc, task)?,
            initial: task.start(alloc)?,
            costs: operator_costs(alloc, task)?,
            sets: Vec::new(alloc),
            alloc,
        })
    }

    /// The members of a valid set.
    fn members(&self, a: usize) -> &BTreeSet<State>
        requires { Valid (explicit_view self.now) a }
        ensures set { explicit_set_at self.now.sets a ≡ Some result.now }
        ensures states { AreStates self.now.task result.now }
    {
        match &self.sets[a] {
            Some(members) => members,
            None => unreachable!(),
        }
    }

    /// A new set of these members.
    fn add(&mut self, members: BTreeSet<State>) -> Result<usize, Memory>
        requires { AreStates self.old.task members }
        ensures { MakesSet (explicit_view self.old) (explicit_view self.new)
            (λ s. IsTrue (has_explicit_state members s)) result }
    {
        let at = self.sets.len();
        self.sets.push(Some(members))?;
        Ok(at)
    }

    fn every_state(&self) -> Result<BTreeSet<State>, Memory>
        ensures states { IfOk result (AreStates self.now.task) }
        ensures ok { IfOk result (λ set. HasThoseStates set (Listed (explicit_view self.now).system.states)) }
        ensures reached { ListsReached (explicit_view self.now).system }
    {
        all_states(self.alloc, self.task.parts().variables.as_slice())
    }

    fn initial_state(&self) -> Result<BTreeSet<State>, Memory>
        ensures states { IfOk result (AreStates self.now.task) }
        ensures ok { IfOk result (λ set. HasThoseStates set (λ s. s ≡ (explicit_view self.now).system.initial)) }
    {
        single(self.alloc, self.initial.copy(self.alloc)?)
    }

    fn goal_members(&self, a: usize) -> Result<BTreeSet<State>, Memory>
        requires { Valid (explicit_view self.now) a }
        ensures states { IfOk result (AreStates self.now.task) }
        ensures ok { IfOk result (λ set. HasThoseStates set (GoalIn (explicit_view self.now) a)) }
    {
        goal_states(self.alloc, self.task, &self.rules, self.members(a))
    }

    fn fact_members(&self, fact: Fact, a: usize) -> Result<BTreeSet<State>, Memory>
        requires fact { IsBase self.now.task fact.var }
        requires a { Valid (explicit_view self.now) a }
        ensures states { IfOk result (AreStates self.now.task) }
        ensures ok { IfOk result (λ set. HasThoseStates set (FactIn (explicit_view self.now) fact a)) }
    {
        fact_states(self.alloc, self.task, fact, self.members(a))
    }

    fn union_of(&self, a: usize, b: usize) -> Result<BTreeSet<State>, Memory>
        requires a { Valid (explicit_view self.now) a }
        requires b { Valid (explicit_view self.now) b }
        ensures states { IfOk result (AreStates self.now.task) }
        ensures ok { IfOk result (λ set. HasThoseStates set (Unites (explicit_view self.now) a b)) }
    {
        union(self.alloc, self.members(a), self.members(b))
    }

    fn intersection_of(&self, a: usize, b: usize) -> Result<BTreeSet<State>, Memory>
        requires a { Valid (explicit_view self.now) a }
        requires b { Valid (explicit_view self.now) b }
        ensures states { IfOk result (AreStates self.now.task) }
        ensures ok { IfOk result (λ set. HasThoseStates set (Meets (explicit_view self.now) a b)) }
    {
        intersection(self.alloc, self.members(a), self.members(b))
    }

    fn difference_of(&self, a: usize, b: usize) -> Result<BTreeSet<State>, Memory>
        requires a { Valid (explicit_view self.now) a }
        requires b { Valid (explicit_view self.now) b }
        ensures states { IfOk result (AreStates self.now.task) }
        ensures ok { IfOk result (λ set. HasThoseStates set (Lacks (explicit_view self.now) a b)) }
    {
        difference(self.alloc, self.members(a), self.members(b))
    }

    fn image_of(&self, op: u32, a: usize) -> Result<BTreeSet<State>, Memory>
        requires a { Valid (explicit_view self.now) a }
        requires op { op < (explicit_view self.now).system.operators }
        ensures states { IfOk result (AreStates self.now.task) }
        ensures ok { IfOk result (λ set. HasThoseStates set (Image (explicit_view self.now) op a)) }
    {
        image(self.alloc, self.task, &self.rules, op, self.members(a))
    }

    fn cost_image_of(&self, cost: u64, a: usize) -> Result<BTreeSet<State>, Memory>
        requires { Valid (explicit_view self.now) a }
        ensures states { IfOk result (AreStates self.now.task) }
        ensures ok { IfOk result (λ set. HasThoseStates set (CostImage (explicit_view self.now) cost a)) }
    {
        cost_image(self.alloc, self.task, &self.rules, cost, self.members(a))
    }

    fn preimage_of(&self, op: u32, a: usize, within: usize) -> Result<BTreeSet<State>, Memory>
        requires a { Valid (explicit_view self.now) a }
        requires within { Valid (explicit_view self.now) within }
        requires op { op < (explicit_view self.now).system.operators }
        ensures states { IfOk result (AreStates self.now.task) }
        ensures ok { IfOk result (λ set. HasThoseStates set (Preimage (explicit_view self.now) op a within)) }
    {
        preimage(
            self.alloc,
            self.task,
            &self.rules,
            op,
            self.members(a),
            self.members(within),
        )
    }

    fn cost_preimage_of(
        &self,
        cost: u64,
        a: usize,
        within: usize,
    ) -> Result<BTreeSet<State>, Memory>
        requires a { Valid (explicit_view self.now) a }
        requires within { Valid (explicit_view self.now) within }
        ensures states { IfOk result (AreStates self.now.task) }
        ensures ok { IfOk result (λ set. HasThoseStates set (CostPreimage (explicit_view self.now) cost a within)) }
    {
        cost_preimage(
            self.alloc,
            self.task,
            &self.rules,
            cost,
            self.members(a),
            self.members(within),
        )
    }
}

impl<'a> Space for ExplicitSpace<'a> {
    type Set = usize;

    ghost view = { explicit_view };

    ghost needs = { λ _ n. n ≡ 0 };

    ghost of_task = { λ _. refl };

    fn empty(&mut self) -> Result<usize, SpaceFault> {
        let none = BTreeSet::new(self.alloc);
        self.add(none)
    }

    /// The time and the memory grow with the number of all states.
    fn all(&mut self) -> Result<usize, SpaceFault> {
        let states = self.every_state()?;
        self.add(states)
    }

    fn init(&mut self) -> Result<usize, SpaceFault> {
        let state = self.initial_state()?;
        self.add(state)
    }

    fn goal_in(&mut self, a: usize) -> Result<usize, SpaceFault> {
        let members = self.goal_members(a)?;
        self.add(members)
    }

    fn fact_in(&mut self, fact: Fact, a: usize) -> Result<usize, SpaceFault> {
        let members = self.fact_members(fact, a)?;
        self.add(members)
    }

    fn unite(&mut self, a: usize, b: usize) -> Result<usize, SpaceFault> {
        let members = self.union_of(a, b)?;
        self.add(members)
    }

    fn meet(&mut self, a: usize, b: usize) -> Result<usize, SpaceFault> {
        let members = self.intersection_of(a, b)?;
        self.add(members)
    }

    fn minus(&mut self, a: usize, b: usize) -> Result<usize, SpaceFault> {
        let members = self.difference_of(a, b)?;
        self.add(members)
    }

    fn image_cost(&mut self, w: u64, a: usize) -> Result<usize, SpaceFault> {
        let members = self.cost_image_of(w, a)?;
        self.add(members)
    }

    fn image_op(&mut self, op: u32, a: usize) -> Result<usize, SpaceFault> {
        let members = self.image_of(op, a)?;
        self.add(members)
    }

    fn pre_cost(&mut self, w: u64, a: usize, within: usize) -> Result<usize, SpaceFault> {
        let members = self.cost_preimage_of(w, a, within)?;
        self.add(members)
    }

    fn pre_op(&mut self, op: u32, a: usize, within: usize) -> Result<usize, SpaceFault> {
        let members = self.preimage_of(op, a, within)?;
        self.add(members)
    }

    fn forget(&mut self, a: usize) {
        self.sets[a] = None;
    }

    /// The space has no nodes: the answer is 0.
    fn held(&self) -> usize {
        0
    }

    /// The space has no nodes: the answer is 0.
    fn last(&self) -> usize {
        0
    }

    /// Work isn't counted: the answer is 0.
    fn work(&self) -> u64 {
        0
    }

    /// There is nothing to throw away: the answer is Ok and nothing changes.
    fn tidy(&mut self) -> Result<(), SpaceFault> {
        Ok(())
    }

    fn is_empty(&self, a: usize) -> bool {
        self.members(a).is_empty()
    }

    fn same(&self, a: usize, b: usize) -> bool {
        is_subset(self.members(a), self.members(b)) && is_subset(self.members(b), self.members(a))
    }

    fn has(&self, a: usize, state: &State) -> bool {
        self.members(a).contains(state)
    }

    fn has_init(&self, a: usize) -> bool {
        self.members(a).contains(&self.initial)
    }

    fn costs(&self) -> usize {
        self.costs.len()
    }

    fn cost_at(&self, i: usize) -> u64 {
        self.costs[i]
    }

    fn operators(&self) -> u32 {
        self.task.operators()
    }

    fn cost_of(&self, op: u32) -> u64 {
        self.task.cost(op)
    }

    /// Every operator, whatever the set.
    fn operators_into(&self, alloc: Global, a: usize) -> Result<Vec<u32>, SpaceFault> {
        let _ = a;
        all_operators(alloc, self.task.operators())
    }

    /// Every operator, whatever the set.
    fn operators_from(&self, alloc: Global, a: usize) -> Result<Vec<u32>, SpaceFault> {
        let _ = a;
        all_operators(alloc, self.task.operators())
    }

    fn task(&self) -> &Task {
        self.task
    }

    fn rules(&self) -> &Rules {
        &self.rules
    }
}
