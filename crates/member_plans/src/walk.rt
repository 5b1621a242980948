//! Turns of the queues, until a plan is due.

ghost use Rattle.std.specs.Prelude.{◌≡◌, ◌<◌, ◌≤◌, All, IfOk, length, slice_index_or};
ghost use Rattle.std.specs.List.{AllByRecursion};
ghost use Rattle.space_api.specs.View.{View};
ghost use Rattle.lazy_plans.specs.Law.{top};
ghost use Rattle.cost_to_go.specs.Standing.{to_go_within};
ghost use Rattle.prefix_tree.specs.Entries.{queued_entries};
ghost use Rattle.prefix_tree.specs.declared.entry.Entry.{Entry};
ghost use Rattle.prefix_plans.specs.Left.{known_to_go};
ghost use Rattle.member_plans.specs.Front.{waiting_members, IsSteady, FollowsTurns, IsMemberTurn, MembersHaltAt, Stopped};

use crate::front::Front;
use cost_to_go::CostToGo;
use lazy_plans::{Steps, Stop};
use prefix_plans::{go_on, is_left, is_outdated, top_of};
use prefix_tree::Entry;
use space_api::{Space, SpaceFault};
use std::alloc::Global;
use std::sync::ledger::Ledger;

/// Why turns stop.
#[derive(Clone, Copy)]
pub(crate) enum Halt {
    /// The first entry is a plan that pends.
    Due(Entry),
    /// A prefix was opened.
    Opens,
    /// The last state of the first entry has no rank yet: the search has to go on.
    Waits,
    /// No plan is left that is wanted.
    Ends,
    /// Each plan that is left costs more than 64 bits hold.
    OutOfRange,
}

impl<'a> Front<'a> {
    /// What is done with the first entry, whose last state is ranked: it is dropped where its prefix joins one that was
    /// opened; else it is opened, unless it is a plan, which is due then.
    fn act_ranked<S: Space, L: Ledger>(
        &mut self,
        alloc: Global,
        space: &S,
        search: &CostToGo<S::Set>,
        most: Option<u64>,
        entry: Entry,
        steps: &mut Steps<L>,
    ) -> Result<Option<Halt>, SpaceFault>
        requires steady { IsSteady (S.view space.now) search.now most self.old }
        requires some { 0 < length (queued_entries self.old.queue) }
        requires first { entry ≡ slice_index_or (queued_entries self.old.queue) 0 entry }
        requires least { All (λ k. entry.bound.0 ≤ k.bound.0) (waiting_members self.old) }
        requires cheap { entry.bound.0 ≤ top most }
        ensures follows { FollowsTurns (S.view space.now) search.now most self.old self.new }
        ensures ok { IfOk result (IsMemberTurn (S.view space.now).system
            (known_to_go search.now) most self.old self.new) }
        ensures steps { steps.old ≤ steps.new }
    {
        if self.opened.meets(alloc, &self.tree, entry)? {
            self.drop_joined(alloc, space, search, most, entry, steps)?;
            return Ok(None);
        }
        if entry.at_goal {
            return Ok(Some(Halt::Due(entry)));
        }
        self.pass(alloc, space, search, most, entry, steps)?;
        Ok(Some(Halt::Opens))
    }

    /// What is done with the first entry: where its last state isn't ranked more is learned of it, if more is known.
    fn act<S: Space, L: Ledger>(
        &mut self,
        alloc: Global,
        space: &S,
        search: &CostToGo<S::Set>,
        most: Option<u64>,
        entry: Entry,
        steps: &mut Steps<L>,
    ) -> Result<Option<Halt>, SpaceFault>
        requires steady { IsSteady (S.view space.now) search.now most self.old }
        requires some { 0 < length (queued_entries self.old.queue) }
        requires first { entry ≡ slice_index_or (queued_entries self.old.queue) 0 entry }
        requires least { All (λ k. entry.bound.0 ≤ k.bound.0) (waiting_members self.old) }
        requires cheap { entry.bound.0 ≤ top most }
        ensures follows { FollowsTurns (S.view space.now) search.now most self.old self.new }
        ensures ok { IfOk result (IsMemberTurn (S.view space.now).system
            (known_to_go search.now) most self.old self.new) }
        ensures steps { steps.old ≤ steps.new }
    {
        if entry.settled {
            return self.act_ranked(alloc, space, search, most, entry, steps);
        }
        if !is_outdated(search, entry) {
            return Ok(Some(Halt::Waits));
        }
        self.learn(alloc, space, search, most, entry, steps)?;
        Ok(None)
    }

    /// What ends the list where each entry is dearer than any plan that is given.
    fn end<S: Space, L: Ledger>(
        &mut self,
        alloc: Global,
        space: &mut S,
        search: &CostToGo<S::Set>,
        within: S::Set,
        most: Option<u64>,
        steps: &mut Steps<L>,
    ) -> Result<Halt, SpaceFault>
        requires steady { IsSteady (S.view space.old) search.now most self.old }
        requires within { within ≡ to_go_within search.now }
        requires dear { AllByRecursion (λ (k : Entry). top most < k.bound.0) (waiting_members self.old) }
        ensures system { (S.view space.new).system ≡ (S.view space.old).system }
        ensures follows { FollowsTurns (S.view space.new) search.now most self.old self.new }
        ensures ok { IfOk result (MembersHaltAt (S.view space.old).system
            (known_to_go search.now) most self.old self.new) }
        ensures steps { steps.old ≤ steps.new }
    {
        match most {
            Some(_) => Ok(Halt::Ends),
            None => {
                self.queue.join(&mut self.other)?;
                if is_left(
                    alloc,
                    space,
                    within,
                    &self.graph,
                    &self.tree,
                    &mut self.queue,
                    steps,
                )? {
                    return Ok(Halt::OutOfRange);
                }
                Ok(Halt::Ends)
            }
        }
    }

    /// One turn: what is done with the first entry of all. The list ends where it is dearer than any plan that is
    /// given. None where turns go on.
    fn take_turn<S: Space, L: Ledger>(
        &mut self,
        alloc: Global,
        space: &mut S,
        search: &CostToGo<S::Set>,
        within: S::Set,
        most: Option<u64>,
        steps: &mut Steps<L>,
    ) -> Result<Option<Halt>, SpaceFault>
        requires steady { IsSteady (S.view space.old) search.now most self.old }
        requires within { within ≡ to_go_within search.now }
        ensures system { (S.view space.new).system ≡ (S.view space.old).system }
        ensures follows { FollowsTurns (S.view space.new) search.now most self.old self.new }
        ensures ok { IfOk result (IsMemberTurn (S.view space.old).system
            (known_to_go search.now) most self.old self.new) }
        ensures steps { steps.old ≤ steps.new }
    {
        match self.turn_to_first() {
            None => Ok(Some(Halt::Ends)),
            Some(entry) => {
                if entry.bound.0 > top_of(most) as u128 {
                    let halt = self.end(alloc, space, search, within, most, steps)?;
                    return Ok(Some(halt));
                }
                self.act(alloc, space, search, most, entry, steps)
            }
        }
    }

    /// Turns, one after the other, until they stop.
    fn take_turns<S: Space, L: Ledger>(
        &mut self,
        alloc: Global,
        space: &mut S,
        search: &CostToGo<S::Set>,
        within: S::Set,
        most: Option<u64>,
        steps: &mut Steps<L>,
    ) -> Result<Halt, SpaceFault>
        requires steady { IsSteady (S.view space.old) search.now most self.old }
        requires within { within ≡ to_go_within search.now }
        ensures system { (S.view space.new).system ≡ (S.view space.old).system }
        ensures follows { FollowsTurns (S.view space.new) search.now most self.old self.new }
        ensures ok { IfOk result (MembersHaltAt (S.view space.old).system
            (known_to_go search.now) most self.old self.new) }
        ensures steps { steps.old ≤ steps.new }
    {
        'turns: loop {
            if let Some(halt) = self.take_turn(alloc, space, search, within, most, steps)? {
                return Ok(halt);
            }
        }
    }

    /// Turns and steps of the search, until a plan is due, which stays the first entry, or the list ends. Each entry
    /// that is taken is one step. What pends is the same after it.
    pub(crate) fn walk<S: Space, L: Ledger>(
        &mut self,
        alloc: Global,
        space: &mut S,
        search: &mut CostToGo<S::Set>,
        within: S::Set,
        most: Option<u64>,
        steps: &mut Steps<L>,
    ) -> Result<Option<Entry>, Stop>
        requires steady { IsSteady (S.view space.old) search.old most self.old }
        requires within { within ≡ to_go_within search.old }
        ensures system { (S.view space.new).system ≡ (S.view space.old).system }
        ensures within { within ≡ to_go_within search.new }
        ensures follows { FollowsTurns (S.view space.new) search.new most self.old self.new }
        ensures ok { Stopped (S.view space.old).system most self.new result }
        ensures steps { steps.old ≤ steps.new }
    {
        'steps: loop {
            match self.take_turns(alloc, space, search, within, most, steps) {
                Err(_) => return Err(Stop::Memory),
                Ok(halt) => match halt {
                    Halt::Due(entry) => return Ok(Some(entry)),
                    Halt::Ends => return Ok(None),
                    Halt::OutOfRange => return Err(Stop::CostRange),
                    Halt::Opens => {}
                    Halt::Waits => match go_on(alloc, space, search) {
                        Err(_) => return Err(Stop::Memory),
                        Ok(()) => {}
                    },
                },
            }
        }
    }
}
