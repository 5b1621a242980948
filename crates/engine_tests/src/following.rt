//! What follows from a long list of all plans for the lists of a mode.

use crate::costs::costs_of;
use crate::listing::{Ending, Listing};
use lazy_plans::Stop;
use std::alloc::Global;
use symk_task::{Memory, Mode, Plan, Task, same};

/// A list of plans that was called good, and what they cost.
#[derive(Drop)]
pub struct Priced {
    pub listing: Listing,
    pub costs: Vec<u64>,
}

impl Priced {
    /// The list with its costs. None where it is not good.
    pub fn of(
        alloc: Global,
        task: &Task,
        mode: Mode,
        listing: Listing,
    ) -> Result<Option<Priced>, Memory> {
        match costs_of(alloc, task, mode, &listing.plans)? {
            Some(costs) => Ok(Some(Priced { listing, costs })),
            None => Ok(None),
        }
    }
}

/// Whether one of the plans counts as one with this one.
fn is_listed(alloc: Global, mode: Mode, plans: &[Plan], plan: &Plan) -> Result<bool, Memory> {
    for listed in plans {
        if same(alloc, mode, listed, plan)? {
            return Ok(true);
        }
    }
    Ok(false)
}

/// Whether the plan is one of the mode.
fn is_of_mode(alloc: Global, task: &Task, mode: Mode, plan: &Plan) -> Result<bool, Memory> {
    let mut alone = Vec::new(alloc);
    alone.push(plan.copy(alloc)?)?;
    Ok(costs_of(alloc, task, mode, &alone)?.is_some())
}

/// The plans of a mode, of those that count as one the first alone, out of a list of all plans.
#[derive(Drop)]
pub struct Firsts {
    pub plans: Vec<Plan>,
    costs: Vec<u64>,
}

impl Firsts {
    /// Those of the list. None where they are no good list of the mode.
    pub fn of(
        alloc: Global,
        task: &Task,
        mode: Mode,
        all: &Priced,
    ) -> Result<Option<Firsts>, Memory> {
        let mut plans = Vec::new(alloc);
        for plan in &all.listing.plans {
            if is_of_mode(alloc, task, mode, plan)? && !is_listed(alloc, mode, &plans, plan)? {
                plans.push(plan.copy(alloc)?)?;
            }
        }
        match costs_of(alloc, task, mode, &plans)? {
            Some(costs) => Ok(Some(Firsts { plans, costs })),
            None => Ok(None),
        }
    }
}

/// Whether each plan of the list is one of all plans, where it costs less than the last of these or all are listed.
fn is_among(alloc: Global, all: &Priced, list: &Priced) -> Result<bool, Memory> {
    let whole = all.listing.ending != Ending::Reached;
    let last = all.costs.last().copied().unwrap_or(0);
    for i in 0..list.costs.len().min(list.listing.plans.len()) {
        let sure = whole || list.costs[i] < last;
        if sure
            && !is_listed(
                alloc,
                Mode::TopK,
                &all.listing.plans,
                &list.listing.plans[i],
            )?
        {
            return Ok(false);
        }
    }
    Ok(true)
}

/// Whether one of the lists of costs begins with the other.
fn begin_alike(some: &[u64], others: &[u64]) -> bool {
    for i in 0..some.len().min(others.len()) {
        if some[i] != others[i] {
            return false;
        }
    }
    true
}

/// Whether one of the lists of plans begins with the other.
pub fn give_alike(some: &[Plan], others: &[Plan]) -> bool {
    for i in 0..some.len().min(others.len()) {
        if some[i] != others[i] {
            return false;
        }
    }
    true
}

/// Whether a list of a mode, for which `count` plans were asked, ends as it must beside the list of all plans,
/// of which `known` are of the mode and count as different ones.
///
/// Where all plans in range are listed, exactly those are, as many as were asked for; else no fewer. The plans
/// that cost too much may all visit a state twice, so a list of loopless plans may be exhausted where the list
/// of all plans is not.
fn ends_well(all: Ending, known: usize, mode: Mode, count: usize, list: &Listing) -> bool {
    let listed = list.plans.len();
    let sure = known.min(count);
    if (list.ending == Ending::Reached) != (listed == count) || !list.lasts {
        return false;
    }
    match all {
        Ending::Reached => listed >= sure && list.ending != Ending::Stopped(Stop::Memory),
        Ending::Exhausted | Ending::Stopped(_) => {
            let same = listed == count || list.ending == all;
            let loopless = mode == Mode::Loopless && list.ending == Ending::Exhausted;
            listed == sure && (same || loopless)
        }
    }
}

/// Whether the list of the mode, for which `count` plans were asked, follows from the list of all plans and its firsts.
///
/// The firsts of the mode cost as much, one by one, as the cheapest of the mode: each cheaper than the last of
/// all plans is among these. So the costs of both lists begin alike.
pub fn follows(
    alloc: Global,
    mode: Mode,
    all: &Priced,
    firsts: &Firsts,
    count: usize,
    list: &Priced,
) -> Result<bool, Memory> {
    let known = firsts.plans.len();
    Ok(
        begin_alike(&firsts.costs, &list.costs)
            && ends_well(all.listing.ending, known, mode, count, &list.listing)
            && is_among(alloc, all, list)?,
    )
}
