//! What is done with the first entry of the queue.

ghost use Rattle.std.specs.Prelude.{◌≡◌, ◌+◌, ◌<◌, IsFalse, IfOk, OnOk, OnErr, length};
ghost use Rattle.space_api.specs.View.{View};
ghost use Rattle.prefix_tree.specs.Tree.{AreLinked};
ghost use Rattle.loopless.specs.Front.{prefixes_of, IsLooplessFirst};
ghost use Rattle.loopless.specs.Standing.{IsLooplessReady, GoesOnLoopless, OpensLoopless, IsLooplessEntryPlan};

use crate::expand::expand;
use crate::front::Front;
use crate::refresh::refresh;
use backward_search::Backward;
use lazy_plans::Steps;
use prefix_tree::{Entry, Node, one_or_none, operators_to};
use space_api::{Space, SpaceFault};
use std::alloc::{AllocError, Global};
use std::sync::ledger::Ledger;
use symk_task::Plan;

/// A turn that learns more of the first entry's bound, which puts it where it then belongs, or takes it out where no
/// plan goes on from it. Out of memory, it leaves the entries.
pub fn learn<S: Space, L: Ledger>(
    alloc: Global,
    space: &mut S,
    backward: &mut Backward<S::Set>,
    front: &mut Front,
    entry: Entry,
    steps: &mut Steps<L>,
) -> Result<(), SpaceFault>
    requires ready { IsLooplessReady (S.view space.old) backward.old front.old }
    requires first { IsLooplessFirst front.old entry }
    requires open { IsFalse entry.settled }
    ensures system { (S.view space.new).system ≡ (S.view space.old).system }
    ensures ready { IsLooplessReady (S.view space.new) backward.new front.new }
    ensures ok { OnOk result (GoesOnLoopless (S.view space.old).system front.old front.new) }
    ensures err { OnErr result (prefixes_of front.new ≡ prefixes_of front.old) }
    ensures one { OnOk result (steps.new ≡ steps.old + 1) }
    ensures none { OnErr result (steps.new ≡ steps.old) }
{
    let better = refresh(
        alloc,
        space,
        backward,
        &front.graph,
        &mut front.rests,
        &front.tree,
        entry,
    )?;
    let others = one_or_none(alloc, better)?;
    front.queue.make_room(others.len())?;
    front.queue.replace(others, steps);
    Ok(())
}

/// The plan that the entry is, if it is one.
fn plan_of(alloc: Global, tree: &[Node], entry: Entry) -> Result<Option<Plan>, AllocError>
    requires linked { AreLinked tree.now }
    requires inside { entry.node < length tree.now }
    ensures { IfOk result (λ plan. IsLooplessEntryPlan tree.now entry plan) }
{
    if entry.at_goal {
        return Ok(Some(Plan::of(operators_to(alloc, tree, entry.node)?)));
    }
    Ok(None)
}

/// A turn that takes the first entry out and puts its children in, and gives the plan that it is, if it is one. Out of
/// memory, it leaves the entries.
pub fn open<S: Space, L: Ledger>(
    alloc: Global,
    space: &S,
    backward: &Backward<S::Set>,
    front: &mut Front,
    entry: Entry,
    steps: &mut Steps<L>,
) -> Result<Option<Plan>, SpaceFault>
    requires ready { IsLooplessReady (S.view space.now) backward.now front.old }
    requires first { IsLooplessFirst front.old entry }
    ensures ready { IsLooplessReady (S.view space.now) backward.now front.new }
    ensures ok { IfOk result (OpensLoopless (S.view space.now).system front.old front.new entry) }
    ensures err { OnErr result (prefixes_of front.new ≡ prefixes_of front.old) }
    ensures one { OnOk result (steps.new ≡ steps.old + 1) }
    ensures none { OnErr result (steps.new ≡ steps.old) }
{
    let plan = plan_of(alloc, &front.tree, entry)?;
    let children = expand(alloc, space, backward, front, entry)?;
    front.queue.replace(children, steps);
    Ok(plan)
}
