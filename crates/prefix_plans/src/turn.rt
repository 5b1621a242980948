//! What is done with the first entry of the queue, whose last state is ranked.

ghost use Rattle.std.specs.Prelude.{◌≡◌, ◌+◌, IsTrue, IfOk, OnOk, OnErr};
ghost use Rattle.space_api.specs.View.{View};
ghost use Rattle.prefix_tree.specs.Entries.{queued_entries};
ghost use Rattle.prefix_plans.specs.Standing.{waiting_prefixes, PrefixFrontStands, IsPrefixFirst, OpensPrefix};

use crate::expand::expand;
use crate::front::Front;
use crate::turns::plan_of;
use cost_to_go::CostToGo;
use lazy_plans::Steps;
use prefix_tree::Entry;
use space_api::{Space, SpaceFault};
use std::alloc::Global;
use std::sync::ledger::Ledger;
use symk_task::Plan;

/// A turn that takes the first entry out, whose last state is ranked, and puts its children in, and gives the plan that
/// it is, if it is one. Out of memory, it leaves the entries.
pub(crate) fn open<S: Space, L: Ledger>(
    alloc: Global,
    space: &S,
    search: &CostToGo<S::Set>,
    front: &mut Front,
    entry: Entry,
    steps: &mut Steps<L>,
) -> Result<Option<Plan>, SpaceFault>
    requires ready { PrefixFrontStands (S.view space.now) search.now front.old }
    requires first { IsPrefixFirst entry (queued_entries front.old.queue) }
    requires ranked { IsTrue entry.settled }
    ensures ready { PrefixFrontStands (S.view space.now) search.now front.new }
    ensures ok { IfOk result (OpensPrefix (S.view space.now) search.now entry front.old front.new) }
    ensures err { OnErr result (waiting_prefixes front.new ≡ waiting_prefixes front.old) }
    ensures one { OnOk result (steps.new ≡ steps.old + 1) }
    ensures none { OnErr result (steps.new ≡ steps.old) }
{
    let plan = plan_of(alloc, &front.tree, entry)?;
    let children = expand(alloc, space, search, front, entry)?;
    front.queue.replace(children, steps);
    Ok(plan)
}
