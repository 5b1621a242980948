//! Turns of the queue, until a plan is given.

ghost use Rattle.std.specs.Prelude.{◌≡◌, ◌<◌, IfOk, OnErr};
ghost use Rattle.std.specs.List.{AllByRecursion};
ghost use Rattle.symk_task.specs.declared.parts.Mode.TheVariants.{TopK};
ghost use Rattle.space_api.specs.View.{View};
ghost use Rattle.lazy_plans.specs.Law.{Turned, top};
ghost use Rattle.cost_to_go.specs.Standing.{to_go_within};
ghost use Rattle.lazy_plans.specs.Queue.{Right, Pending};
ghost use Rattle.prefix_tree.specs.Entries.{queued_entries};
ghost use Rattle.prefix_tree.specs.declared.entry.Entry.{Entry};
ghost use Rattle.prefix_plans.specs.Left.{known_to_go};
ghost use Rattle.prefix_plans.specs.Standing.{waiting_prefixes, PrefixFrontStands, IsPrefixFirst, KeepsPending};
ghost use Rattle.prefix_plans.specs.Turned.{Acts, IsPrefixTurn, HaltsAt, CountsPrefixTurn};

use crate::front::Front;
use crate::knowing::{go_on, is_outdated, top_of};
use crate::left::Heuristic;
use crate::range::is_left;
use crate::turn::open;
use cost_to_go::CostToGo;
use lazy_plans::{Steps, Stop};
use prefix_tree::Entry;
use space_api::{Space, SpaceFault};
use std::alloc::Global;
use std::sync::ledger::Ledger;
use symk_task::Plan;

/// Why turns stop.
#[derive(Drop)]
pub(crate) enum Halt {
    /// The first entry is this plan.
    Gives(Plan),
    /// The last state of the first entry has no rank yet: the search has to go on.
    Waits,
    /// No plan is left that is wanted.
    Ends,
    /// Each plan that is left costs more than 64 bits hold.
    OutOfRange,
}

/// What is done with the first entry: it is opened where its last state is ranked; else more is learned of it, where
/// more is known.
fn act<S: Space, L: Ledger>(
    alloc: Global,
    space: &S,
    search: &CostToGo<S::Set>,
    front: &mut Front,
    entry: Entry,
    steps: &mut Steps<L>,
) -> Result<Option<Halt>, SpaceFault>
    requires ready { PrefixFrontStands (S.view space.now) search.now front.old }
    requires first { IsPrefixFirst entry (queued_entries front.old.queue) }
    ensures ready { PrefixFrontStands (S.view space.now) search.now front.new }
    ensures ok { IfOk result (Acts (S.view space.now) search.now entry front.old front.new) }
    ensures err { OnErr result (waiting_prefixes front.new ≡ waiting_prefixes front.old) }
    ensures one { IfOk result (CountsPrefixTurn steps.old steps.new) }
    ensures none { OnErr result (steps.new ≡ steps.old) }
{
    if entry.settled {
        return match open(alloc, space, search, front, entry, steps)? {
            None => Ok(None),
            Some(plan) => Ok(Some(Halt::Gives(plan))),
        };
    }
    if !is_outdated(search, entry) {
        return Ok(Some(Halt::Waits));
    }
    let heuristic = Heuristic {
        space,
        search,
        graph: &front.graph,
    };
    front.ranks.learn(
        alloc,
        &heuristic,
        &front.tree,
        &mut front.queue,
        entry,
        steps,
    )?;
    Ok(None)
}

/// What ends the list where the first entry is dearer than any plan that is given.
fn end<S: Space, L: Ledger>(
    alloc: Global,
    space: &mut S,
    search: &CostToGo<S::Set>,
    within: S::Set,
    most: Option<u64>,
    front: &mut Front,
    steps: &mut Steps<L>,
) -> Result<Halt, SpaceFault>
    requires ready { PrefixFrontStands (S.view space.old) search.now front.old }
    requires within { within ≡ to_go_within search.now }
    requires right { Right (S.view space.old).system TopK most (waiting_prefixes front.old) }
    requires dear { AllByRecursion (λ (k : Entry). top most < k.bound.0) (queued_entries front.old.queue) }
    ensures system { (S.view space.new).system ≡ (S.view space.old).system }
    ensures ready { PrefixFrontStands (S.view space.new) search.now front.new }
    ensures ok { IfOk result (HaltsAt (S.view space.old).system (known_to_go search.now) most
        (waiting_prefixes front.old)
        (waiting_prefixes front.new)) }
    ensures last { IfOk result (λ halt. CountsPrefixTurn steps.old steps.new (Some halt)) }
    ensures err { OnErr result (KeepsPending (S.view space.old).system most (waiting_prefixes front.old)
        (waiting_prefixes front.new)) }
{
    match most {
        Some(_) => Ok(Halt::Ends),
        None => {
            if is_left(
                alloc,
                space,
                within,
                &front.graph,
                &front.tree,
                &mut front.queue,
                steps,
            )? {
                return Ok(Halt::OutOfRange);
            }
            Ok(Halt::Ends)
        }
    }
}

/// One turn: what is done with the first entry. None where turns go on.
fn take_turn<S: Space, L: Ledger>(
    alloc: Global,
    space: &mut S,
    search: &CostToGo<S::Set>,
    within: S::Set,
    most: Option<u64>,
    front: &mut Front,
    steps: &mut Steps<L>,
) -> Result<Option<Halt>, SpaceFault>
    requires ready { PrefixFrontStands (S.view space.old) search.now front.old }
    requires within { within ≡ to_go_within search.now }
    requires right { Right (S.view space.old).system TopK most (waiting_prefixes front.old) }
    ensures system { (S.view space.new).system ≡ (S.view space.old).system }
    ensures ready { PrefixFrontStands (S.view space.new) search.now front.new }
    ensures ok { IfOk result (IsPrefixTurn (S.view space.old).system
        (known_to_go search.now) most front.old front.new) }
    ensures one { IfOk result (CountsPrefixTurn steps.old steps.new) }
    ensures err { OnErr result (KeepsPending (S.view space.old).system most (waiting_prefixes front.old)
        (waiting_prefixes front.new)) }
{
    match front.queue.first() {
        None => Ok(Some(Halt::Ends)),
        Some(entry) => {
            if entry.bound.0 > top_of(most) as u128 {
                let halt = end(alloc, space, search, within, most, front, steps)?;
                return Ok(Some(halt));
            }
            act(alloc, space, search, front, entry, steps)
        }
    }
}

/// Turns, one after the other, until they stop.
fn take_turns<S: Space, L: Ledger>(
    alloc: Global,
    space: &mut S,
    search: &CostToGo<S::Set>,
    within: S::Set,
    most: Option<u64>,
    front: &mut Front,
    steps: &mut Steps<L>,
) -> Result<Halt, SpaceFault>
    requires ready { PrefixFrontStands (S.view space.old) search.now front.old }
    requires within { within ≡ to_go_within search.now }
    requires right { Right (S.view space.old).system TopK most (waiting_prefixes front.old) }
    ensures system { (S.view space.new).system ≡ (S.view space.old).system }
    ensures ready { PrefixFrontStands (S.view space.new) search.now front.new }
    ensures ok { IfOk result (HaltsAt (S.view space.old).system (known_to_go search.now) most
        (waiting_prefixes front.old)
        (waiting_prefixes front.new)) }
    ensures err { OnErr result (KeepsPending (S.view space.old).system most (waiting_prefixes front.old)
        (waiting_prefixes front.new)) }
{
    'turns: loop {
        if let Some(halt) = take_turn(alloc, space, search, within, most, front, steps)? {
            return Ok(halt);
        }
    }
}

/// The next plan out of the queue. Each entry that is taken is one step. Out of memory, it leaves what pends.
pub(crate) fn walk<S: Space, L: Ledger>(
    alloc: Global,
    space: &mut S,
    search: &mut CostToGo<S::Set>,
    within: S::Set,
    most: Option<u64>,
    front: &mut Front,
    steps: &mut Steps<L>,
) -> Result<Option<Plan>, Stop>
    requires ready { PrefixFrontStands (S.view space.old) search.old front.old }
    requires within { within ≡ to_go_within search.old }
    requires right { Right (S.view space.old).system TopK most (waiting_prefixes front.old) }
    ensures system { (S.view space.new).system ≡ (S.view space.old).system }
    ensures ready { PrefixFrontStands (S.view space.new) search.new front.new }
    ensures within { within ≡ to_go_within search.new }
    ensures right { Right (S.view space.old).system TopK most (waiting_prefixes front.new) }
    ensures law { Turned (S.view space.old).system TopK most
        (Pending (S.view space.old).system TopK (waiting_prefixes front.old))
        (Pending (S.view space.old).system TopK (waiting_prefixes front.new)) result }
{
    'steps: loop {
        match take_turns(alloc, space, search, within, most, front, steps) {
            Err(_) => return Err(Stop::Memory),
            Ok(halt) => match halt {
                Halt::Gives(plan) => return Ok(Some(plan)),
                Halt::Ends => return Ok(None),
                Halt::OutOfRange => return Err(Stop::CostRange),
                Halt::Waits => match go_on(alloc, space, search) {
                    Err(_) => return Err(Stop::Memory),
                    Ok(()) => {}
                },
            },
        }
    }
}
