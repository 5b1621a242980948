//! What is done with the first entry of the queue at work.

ghost use Rattle.std.specs.Prelude.{◌≡◌, ◌+◌, ◌<◌, ◌≤◌, ◌^◌, ◌∷◌, ◌++◌, [], IsFalse, IfOk, OnOk, OnErr, length, slice_index_or};
ghost use Rattle.space_api.specs.View.{View};
ghost use Rattle.lazy_plans.specs.Law.{top};
ghost use Rattle.prefix_tree.specs.Tree.{path_at};
ghost use Rattle.prefix_tree.specs.Entries.{queued_entries};
ghost use Rattle.prefix_plans.specs.Left.{known_to_go};
ghost use Rattle.prefix_plans.specs.EndChildren.{IsOutdated};
ghost use Rattle.member_laws.specs.Nodes.{IsJoinedAtNode, PendsNode};
ghost use Rattle.selectors.specs.Members.{GaveMember};
ghost use Rattle.member_plans.specs.Front.{opened_places, opened, IsSteady, FollowsTurns, IsDue, member_work};

use crate::front::Front;
use cost_to_go::CostToGo;
use lazy_plans::Steps;
use prefix_plans::Heuristic;
use prefix_tree::{Entry, operators_to};
use space_api::{Space, SpaceFault};
use std::alloc::{AllocError, Global};
use std::sync::ledger::Ledger;
use symk_task::Plan;

impl<'a> Front<'a> {
    /// A turn that learns more of the first entry's bound, which puts it where it then belongs, or takes it out where
    /// no plan goes on from it. Out of memory, it leaves the entries.
    ///
    /// The search has gone on since the bound was told.
    pub(crate) fn learn<S: Space, L: Ledger>(
        &mut self,
        alloc: Global,
        space: &S,
        search: &CostToGo<S::Set>,
        most: Option<u64>,
        entry: Entry,
        steps: &mut Steps<L>,
    ) -> Result<(), AllocError>
        requires steady { IsSteady (S.view space.now) search.now most self.old }
        requires some { 0 < length (queued_entries self.old.queue) }
        requires first { entry ≡ slice_index_or (queued_entries self.old.queue) 0 entry }
        requires open { IsFalse entry.settled }
        requires more { IsOutdated (known_to_go search.now) entry }
        ensures follows { FollowsTurns (S.view space.now) search.now most self.old self.new }
        ensures less { OnOk result (member_work (known_to_go search.now) self.new < member_work
            (known_to_go search.now) self.old) }
        ensures one { OnOk result (steps.new ≡ steps.old + 1) }
        ensures none { OnErr result (steps.new ≡ steps.old) }
    {
        let heuristic = Heuristic {
            space,
            search,
            graph: &self.graph,
        };
        self.ranks.learn(alloc, &heuristic, &self.tree, &mut self.queue, entry, steps)
    }

    /// A turn that takes the first entry out, whose prefix joins one that was opened. Out of memory, it leaves the
    /// entries.
    pub(crate) fn drop_joined<S: Space, L: Ledger>(
        &mut self,
        alloc: Global,
        space: &S,
        search: &CostToGo<S::Set>,
        most: Option<u64>,
        entry: Entry,
        steps: &mut Steps<L>,
    ) -> Result<(), AllocError>
        requires steady { IsSteady (S.view space.now) search.now most self.old }
        requires some { 0 < length (queued_entries self.old.queue) }
        requires first { entry ≡ slice_index_or (queued_entries self.old.queue) 0 entry }
        requires joined { IsJoinedAtNode (S.view space.now).system (opened self.old)
            (path_at self.old.tree.items entry.node) }
        ensures follows { FollowsTurns (S.view space.now) search.now most self.old self.new }
        ensures less { OnOk result (member_work (known_to_go search.now) self.new < member_work
            (known_to_go search.now) self.old) }
        ensures one { OnOk result (steps.new ≡ steps.old + 1) }
        ensures none { OnErr result (steps.new ≡ steps.old) }
    {
        self.queue.make_room(0)?;
        self.queue.replace(Vec::new(alloc), steps);
        Ok(())
    }

    /// A turn that opens the first entry: takes it out, and puts its children in. Out of memory, it leaves what was
    /// opened, and the entries.
    fn open<S: Space, L: Ledger>(
        &mut self,
        alloc: Global,
        space: &S,
        search: &CostToGo<S::Set>,
        most: Option<u64>,
        entry: Entry,
        steps: &mut Steps<L>,
    ) -> Result<(), SpaceFault>
        requires steady { IsSteady (S.view space.now) search.now most self.old }
        requires some { 0 < length (queued_entries self.old.queue) }
        requires first { entry ≡ slice_index_or (queued_entries self.old.queue) 0 entry }
        requires cheap { entry.bound.0 ≤ top most }
        ensures steady { IsSteady (S.view space.now) search.now most self.new }
        ensures ok { OnOk result (opened self.new ≡ opened self.old ++ path_at self.old.tree.items entry.node ∷ []) }
        ensures err { OnErr result (opened self.new ≡ opened self.old) }
        ensures more { OnOk result (length (opened_places self.old) < length (opened_places self.new)) }
        ensures same { OnErr result (opened_places self.new ≡ opened_places self.old) }
        ensures fits { OnOk result (length (opened_places self.new) < 2 ^ 64) }
        ensures one { OnOk result (steps.new ≡ steps.old + 1) }
        ensures none { OnErr result (steps.new ≡ steps.old) }
    {
        let (here, there) = self.expand(alloc, space, search, entry)?;
        self.opened
            .put(alloc, &self.tree, entry.node, entry.at_goal)?;
        self.queue.replace(here, steps);
        self.other.add(there);
        Ok(())
    }

    /// A turn that opens the first entry, whose prefix is no plan.
    pub(crate) fn pass<S: Space, L: Ledger>(
        &mut self,
        alloc: Global,
        space: &S,
        search: &CostToGo<S::Set>,
        most: Option<u64>,
        entry: Entry,
        steps: &mut Steps<L>,
    ) -> Result<(), SpaceFault>
        requires steady { IsSteady (S.view space.now) search.now most self.old }
        requires some { 0 < length (queued_entries self.old.queue) }
        requires first { entry ≡ slice_index_or (queued_entries self.old.queue) 0 entry }
        requires cheap { entry.bound.0 ≤ top most }
        requires off { IsFalse entry.at_goal }
        ensures follows { FollowsTurns (S.view space.now) search.now most self.old self.new }
        ensures more { OnOk result (length (opened_places self.old) < length (opened_places self.new)) }
        ensures fits { OnOk result (length (opened_places self.new) < 2 ^ 64) }
        ensures one { OnOk result (steps.new ≡ steps.old + 1) }
        ensures none { OnErr result (steps.new ≡ steps.old) }
    {
        self.open(alloc, space, search, most, entry, steps)
    }

    /// A turn that opens the first entry, whose prefix is a plan that pends, and gives it. Out of memory, it leaves
    /// what pends.
    pub(crate) fn give<S: Space, L: Ledger>(
        &mut self,
        alloc: Global,
        space: &S,
        search: &CostToGo<S::Set>,
        most: Option<u64>,
        entry: Entry,
        steps: &mut Steps<L>,
    ) -> Result<Plan, SpaceFault>
        requires steady { IsSteady (S.view space.now) search.now most self.old }
        requires due { IsDue (S.view space.now).system most self.old entry }
        ensures steady { IsSteady (S.view space.now) search.now most self.new }
        ensures ok { IfOk result (GaveMember (S.view space.now).system most
            (PendsNode (S.view space.now).system (opened self.old))
            (PendsNode (S.view space.now).system (opened self.new))) }
        ensures err { OnErr result (opened self.new ≡ opened self.old) }
        ensures one { OnOk result (steps.new ≡ steps.old + 1) }
        ensures none { OnErr result (steps.new ≡ steps.old) }
    {
        let operators = operators_to(alloc, &self.tree, entry.node)?;
        self.given.note(&operators)?;
        self.open(alloc, space, search, most, entry, steps)?;
        Ok(Plan::of(operators))
    }
}
