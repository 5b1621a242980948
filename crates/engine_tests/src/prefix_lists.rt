//! Rows, and whether they are listed.

use crate::costs::costs_of;
use crate::engines::{Engine, Request, Sets, listed};
use crate::listing::{Ending, Listing};
use crate::stops::stops_well;
use small_tasks::{
    Draft, axioms, drafted, goal_at_start, near_and_far, no_operator, no_plan, past_64_bits,
    switch_and_back, two_switches, zero_costs,
};
use std::alloc::Global;
use symk_task::{Memory, Mode, Plan, Task, same};
use task_gen::switches;

const SETS: [Sets; 2] = [Sets::States { calls: u64::MAX }, Sets::Diagrams];

/// The task of a row.
#[derive(Clone, Copy)]
pub enum Of<'a> {
    Axioms,
    Drafted(&'a Draft<'a>),
    GoalAtStart,
    NearAndFar,
    NoOperator,
    NoPlan,
    Past64Bits,
    SwitchAndBack,
    ThreeSwitches,
    TwoSwitches,
    ZeroCosts,
}

/// What the first plans of a task ought to be.
#[derive(Clone, Copy)]
pub struct Row<'a> {
    pub of: Of<'a>,
    /// The greatest cost that is wanted, where there is one.
    pub most: Option<u64>,
    /// How many plans are asked for.
    pub count: u32,
    /// The operators of the plans, in their order; or of their classes, in any order.
    pub plans: &'a [&'a [u32]],
    /// What they cost, in the order in which they come.
    pub costs: &'a [u64],
    /// How the list ends.
    pub ending: Ending,
}

/// The task. None where a draft doesn't fit.
fn task_of(alloc: Global, of: Of<'_>) -> Result<Option<Task>, Memory> {
    let task = match of {
        Of::Axioms => axioms(alloc),
        Of::Drafted(draft) => return drafted(alloc, draft),
        Of::GoalAtStart => goal_at_start(alloc),
        Of::NearAndFar => near_and_far(alloc),
        Of::NoOperator => no_operator(alloc),
        Of::NoPlan => no_plan(alloc),
        Of::Past64Bits => past_64_bits(alloc),
        Of::SwitchAndBack => switch_and_back(alloc),
        Of::ThreeSwitches => switches(alloc, 3),
        Of::TwoSwitches => two_switches(alloc),
        Of::ZeroCosts => zero_costs(alloc),
    };
    Ok(Some(task?))
}

/// Whether one of the plans has these operators, each as often.
fn has_class(alloc: Global, plans: &[Plan], wanted: &Plan) -> Result<bool, Memory> {
    for plan in plans {
        if same(alloc, Mode::Unordered, plan, wanted)? {
            return Ok(true);
        }
    }
    Ok(false)
}

/// The plan of these operators.
fn plan_of(alloc: Global, operators: &[u32]) -> Result<Plan, Memory> {
    Ok(Plan::of(Vec::from_slice(alloc, operators)?))
}

/// Whether each row is the class of one of the plans, of which there are no more.
fn has_classes(alloc: Global, plans: &[Plan], rows: &[&[u32]]) -> Result<bool, Memory> {
    for row in rows {
        if !has_class(alloc, plans, &plan_of(alloc, row)?)? {
            return Ok(false);
        }
    }
    Ok(plans.len() == rows.len())
}

/// Whether the plans are those of the row: one of each of its classes where the mode asks for classes.
fn agrees(alloc: Global, mode: Mode, listing: &Listing, row: Row<'_>) -> Result<bool, Memory> {
    match mode {
        Mode::Unordered => has_classes(alloc, &listing.plans, row.plans),
        Mode::TopK | Mode::Loopless => Ok(listing.begins(row.plans)),
    }
}

/// Whether the engine lists the row's plans, at its costs, and ends as it says, for good.
fn is_listed(alloc: Global, task: &Task, request: Request, row: Row<'_>) -> Result<bool, Memory> {
    let mode = request.engine.mode();
    let listing = listed(alloc, task, request)?;
    if listing.ending != row.ending || !listing.lasts || !agrees(alloc, mode, &listing, row)? {
        return Ok(false);
    }
    match costs_of(alloc, task, mode, &listing.plans)? {
        Some(costs) => Ok(costs.as_slice() == row.costs),
        None => Ok(false),
    }
}

/// Whether the engine lists the row over these sets, with a set that is handed over and without.
fn is_listed_over(
    alloc: Global,
    engine: Engine,
    task: &Task,
    row: Row<'_>,
    sets: Sets,
) -> Result<bool, Memory> {
    let alone = Request {
        engine,
        sets,
        most: row.most,
        handed: false,
        count: row.count,
    };
    let kept = Request {
        handed: true,
        ..alone
    };
    Ok(is_listed(alloc, task, alone, row)? && is_listed(alloc, task, kept, row)?)
}

/// Whether the engine lists the row over each space.
fn is_listed_each_way(
    alloc: Global,
    engine: Engine,
    task: &Task,
    row: Row<'_>,
) -> Result<bool, Memory> {
    for sets in SETS {
        if !is_listed_over(alloc, engine, task, row, sets)? {
            return Ok(false);
        }
    }
    Ok(true)
}

/// Whether the engine lists each of the rows, whatever sets are made of.
pub fn are_listed(alloc: Global, engine: Engine, rows: &[Row<'_>]) -> Result<bool, Memory> {
    for row in rows {
        match task_of(alloc, row.of)? {
            Some(task) => {
                if !is_listed_each_way(alloc, engine, &task, *row)? {
                    return Ok(false);
                }
            }
            None => return Ok(false),
        }
    }
    Ok(true)
}

/// Whether the engine lists each of the rows as far as the space is not refused memory, for good.
pub fn are_refused(alloc: Global, engine: Engine, rows: &[Row<'_>]) -> Result<bool, Memory> {
    for row in rows {
        match task_of(alloc, row.of)? {
            Some(task) => {
                if !stops_well(alloc, &task, engine, row.plans, row.count, row.ending)? {
                    return Ok(false);
                }
            }
            None => return Ok(false),
        }
    }
    Ok(true)
}
