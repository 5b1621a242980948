//! What is done with the first entry of a queue, whatever pends.

ghost use Rattle.std.specs.Prelude.{◌≡◌, ◌+◌, ◌<◌, IfOk, OnOk, OnErr, length, slice_index_or};
ghost use Rattle.space_api.specs.View.{View};
ghost use Rattle.prefix_tree.specs.Tree.{AreLinked};
ghost use Rattle.prefix_tree.specs.Entries.{queued_entries};
ghost use Rattle.prefix_plans.specs.EndStanding.{IsEndReady, Learned, IsEndEntryPlan};

use crate::improving::improve;
use crate::left::Heuristic;
use crate::ranks::Ranks;
use lazy_plans::Steps;
use prefix_tree::{Entry, Node, Queue, one_or_none, operators_to};
use space_api::Space;
use std::alloc::{AllocError, Global};
use std::sync::ledger::Ledger;
use symk_task::Plan;

impl Ranks {
    /// A turn that learns more of the first entry's bound, which puts it where it then belongs, or takes it out where no
    /// plan goes on from it. Out of memory, it leaves the entries.
    pub fn learn<S: Space, L: Ledger>(
        &mut self,
        alloc: Global,
        heuristic: &Heuristic<S>,
        tree: &[Node],
        queue: &mut Queue,
        entry: Entry,
        steps: &mut Steps<L>,
    ) -> Result<(), AllocError>
        requires ready { IsEndReady (S.view heuristic.now.space.now) heuristic.now.search.now heuristic.now.graph.now
            tree.now (queued_entries queue.old) }
        requires some { 0 < length (queued_entries queue.old) }
        requires first { entry ≡ slice_index_or (queued_entries queue.old) 0 entry }
        ensures ready { IsEndReady (S.view heuristic.now.space.now) heuristic.now.search.now heuristic.now.graph.now
            tree.now (queued_entries queue.new) }
        ensures ok { OnOk result (Learned (S.view heuristic.now.space.now) heuristic.now.search.now tree.now entry
            (queued_entries queue.old) (queued_entries queue.new)) }
        ensures err { OnErr result (queued_entries queue.new ≡ queued_entries queue.old) }
        ensures one { OnOk result (steps.new ≡ steps.old + 1) }
        ensures none { OnErr result (steps.new ≡ steps.old) }
    {
        let better = improve(heuristic, self, tree, entry);
        let others = one_or_none(alloc, better)?;
        queue.make_room(others.len())?;
        queue.replace(others, steps);
        Ok(())
    }
}

/// The plan that the entry is, if it is one.
pub(crate) fn plan_of(
    alloc: Global,
    tree: &[Node],
    entry: Entry,
) -> Result<Option<Plan>, AllocError>
    requires linked { AreLinked tree.now }
    requires inside { entry.node < length tree.now }
    ensures { IfOk result (λ plan. IsEndEntryPlan tree.now entry plan) }
{
    if entry.at_goal {
        return Ok(Some(Plan::of(operators_to(alloc, tree, entry.node)?)));
    }
    Ok(None)
}
