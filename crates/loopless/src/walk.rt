//! Turns of the queue, until a plan is given.

ghost use Rattle.std.specs.Prelude.{◌≡◌, ◌+◌, ◌<◌, IfOk, OnOk, OnErr};
ghost use Rattle.std.specs.Bool.{Decides};
ghost use Rattle.symk_task.specs.declared.parts.Mode.TheVariants.{Loopless};
ghost use Rattle.space_api.specs.View.{View};
ghost use Rattle.lazy_plans.specs.Queue.{Right, Pending};
ghost use Rattle.lazy_plans.specs.Law.{Turned};
ghost use Rattle.loopless.specs.Front.{prefixes_of, IsLooplessFirst};
ghost use Rattle.loopless.specs.Standing.{IsLooplessReady, OpensLoopless};
ghost use Rattle.loopless.specs.Turned.{TurnOf, CountsTurn, IsPast, IsOut};

use crate::front::Front;
use crate::turn::{learn, open};
use backward_search::Backward;
use lazy_plans::{Steps, Stop};
use prefix_tree::Entry;
use space_api::{Space, SpaceFault};
use std::alloc::Global;
use std::sync::ledger::Ledger;
use symk_task::Plan;

/// What one turn did.
#[derive(Drop)]
pub(crate) enum Turn {
    Goes,
    Gives(Plan),
    Ends,
    OutOfRange,
}

/// Whether the bound is more than is wanted.
fn is_past(most: Option<u64>, entry: Entry) -> bool
    ensures { Decides result (IsPast most entry) }
{
    match most {
        None => false,
        Some(most) => entry.bound.0 > most as u128,
    }
}

/// Whether the entry is a plan that costs more than 64 bits hold, where no greatest cost is wanted.
fn is_out(most: Option<u64>, entry: Entry) -> bool
    ensures { Decides result (IsOut most entry) }
{
    match most {
        None => entry.at_goal && entry.cost > u64::MAX as u128,
        Some(_) => false,
    }
}

/// Opens the first entry, or learns more of its bound.
fn act<S: Space, L: Ledger>(
    alloc: Global,
    space: &mut S,
    backward: &mut Backward<S::Set>,
    front: &mut Front,
    entry: Entry,
    steps: &mut Steps<L>,
) -> Result<Option<Plan>, SpaceFault>
    requires ready { IsLooplessReady (S.view space.old) backward.old front.old }
    requires first { IsLooplessFirst front.old entry }
    ensures system { (S.view space.new).system ≡ (S.view space.old).system }
    ensures ready { IsLooplessReady (S.view space.new) backward.new front.new }
    ensures ok { IfOk result (OpensLoopless (S.view space.old).system front.old front.new entry) }
    ensures err { OnErr result (prefixes_of front.new ≡ prefixes_of front.old) }
    ensures one { OnOk result (steps.new ≡ steps.old + 1) }
    ensures none { OnErr result (steps.new ≡ steps.old) }
{
    if entry.settled {
        return open(alloc, space, backward, front, entry, steps);
    }
    learn(alloc, space, backward, front, entry, steps)?;
    Ok(None)
}

/// One turn: what is done with the first entry. It is one step, and none where no entry is taken.
fn take_turn<S: Space, L: Ledger>(
    alloc: Global,
    space: &mut S,
    backward: &mut Backward<S::Set>,
    most: Option<u64>,
    front: &mut Front,
    steps: &mut Steps<L>,
) -> Result<Turn, SpaceFault>
    requires ready { IsLooplessReady (S.view space.old) backward.old front.old }
    requires right { Right (S.view space.old).system Loopless most (prefixes_of front.old) }
    ensures system { (S.view space.new).system ≡ (S.view space.old).system }
    ensures ready { IsLooplessReady (S.view space.new) backward.new front.new }
    ensures ok { IfOk result (TurnOf (S.view space.old).system most front.old front.new) }
    ensures err { OnErr result (prefixes_of front.new ≡ prefixes_of front.old) }
    ensures one { IfOk result (CountsTurn steps.old steps.new) }
    ensures none { OnErr result (steps.new ≡ steps.old) }
{
    match front.queue.first() {
        None => Ok(Turn::Ends),
        Some(entry) => {
            if is_past(most, entry) {
                return Ok(Turn::Ends);
            }
            if is_out(most, entry) {
                return Ok(Turn::OutOfRange);
            }
            match act(alloc, space, backward, front, entry, steps)? {
                None => Ok(Turn::Goes),
                Some(plan) => Ok(Turn::Gives(plan)),
            }
        }
    }
}

/// The next loopless plan out of the queue. Each entry that is taken is one step. Out of memory, it leaves what pends.
pub fn walk<S: Space, L: Ledger>(
    alloc: Global,
    space: &mut S,
    backward: &mut Backward<S::Set>,
    most: Option<u64>,
    front: &mut Front,
    steps: &mut Steps<L>,
) -> Result<Option<Plan>, Stop>
    requires ready { IsLooplessReady (S.view space.old) backward.old front.old }
    requires right { Right (S.view space.old).system Loopless most (prefixes_of front.old) }
    ensures system { (S.view space.new).system ≡ (S.view space.old).system }
    ensures ready { IsLooplessReady (S.view space.new) backward.new front.new }
    ensures right { Right (S.view space.old).system Loopless most (prefixes_of front.new) }
    ensures law { Turned (S.view space.old).system Loopless most
        (Pending (S.view space.old).system Loopless (prefixes_of front.old))
        (Pending (S.view space.old).system Loopless (prefixes_of front.new)) result }
{
    'turns: loop {
        match take_turn(alloc, space, backward, most, front, steps) {
            Err(_) => return Err(Stop::Memory),
            Ok(turn) => match turn {
                Turn::Goes => {}
                Turn::Gives(plan) => return Ok(Some(plan)),
                Turn::Ends => return Ok(None),
                Turn::OutOfRange => return Err(Stop::CostRange),
            },
        }
    }
}
