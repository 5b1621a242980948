//! Rows.

use crate::engines::{Engine, Request, Sets, listed, lists};
use crate::listing::Ending;
use crate::stops::stops_well;
use lazy_plans::Stop;
use small_tasks::{
    conditional_effects, later_effect_reaches, later_effect_undoes, no_plan, past_64_bits,
    switch_and_back, zero_costs,
};
use std::alloc::Global;
use std::test::Fail;
use symk_task::{Memory, Task};

const SETS: [Sets; 2] = [Sets::States { calls: u64::MAX }, Sets::Diagrams];

/// What a list of the plans ought to be.
#[derive(Clone, Copy)]
struct Row<'a> {
    /// The greatest cost that is wanted, where there is one.
    most: Option<u64>,
    /// The operators of the plans, in some order of those of one cost.
    plans: &'a [&'a [u32]],
    /// What they cost.
    costs: &'a [u64],
    /// How the list ends.
    ending: Ending,
}

/// The row of a task that has one plan, of one operator and of cost 1.
const ONE: Row<'static> = Row {
    most: None,
    plans: &[&[0]],
    costs: &[1],
    ending: Ending::Exhausted,
};

/// The row of no plan, and how it ends.
fn none(most: Option<u64>, ending: Ending) -> Row<'static> {
    Row {
        most,
        plans: &[],
        costs: &[],
        ending,
    }
}

/// Three plans over the sets.
fn three(row: Row<'_>, sets: Sets, handed: bool) -> Request {
    Request {
        engine: Engine::Loopless,
        sets,
        most: row.most,
        handed,
        count: 3,
    }
}

/// Whether the plans, and what they cost, are those of the row.
fn is_listed(alloc: Global, task: &Task, request: Request, row: Row<'_>) -> Result<bool, Memory> {
    Ok(
        listed(alloc, task, request)?.begins(row.plans)
            && lists(alloc, task, request, row.costs, row.ending)?,
    )
}

/// Whether the row is listed over each space, with a set that is handed over and without.
fn each_way(alloc: Global, task: Task, row: Row<'_>) -> Result<bool, Memory> {
    for sets in SETS {
        if !is_listed(alloc, &task, three(row, sets, false), row)?
            || !is_listed(alloc, &task, three(row, sets, true), row)?
        {
            return Ok(false);
        }
    }
    Ok(true)
}

#[test]
fn plans_that_come_back_are_left_out(rt: HostRuntime) -> Result<(), Fail> {
    let alloc = rt.alloc();
    assert!(rt; each_way(alloc, switch_and_back(alloc)?, ONE)?);
    assert!(rt; each_way(alloc, zero_costs(alloc)?, ONE)?);
    Ok(())
}

#[test]
fn conditions_see_the_old_state_and_the_later_effect_stands(rt: HostRuntime) -> Result<(), Fail> {
    let alloc = rt.alloc();
    assert!(rt; each_way(alloc, conditional_effects(alloc)?, ONE)?);
    assert!(rt;
        each_way(
            alloc,
            later_effect_undoes(alloc)?,
            none(None, Ending::Exhausted)
        )?
    );
    assert!(rt; each_way(alloc, later_effect_reaches(alloc)?, ONE)?);
    Ok(())
}

#[test]
fn lists_end_where_layers_do_not(rt: HostRuntime) -> Result<(), Fail> {
    let alloc = rt.alloc();
    assert!(rt; each_way(alloc, no_plan(alloc)?, none(None, Ending::Exhausted))?);
    Ok(())
}

#[test]
fn the_range_of_costs_ends_a_list(rt: HostRuntime) -> Result<(), Fail> {
    let alloc = rt.alloc();
    let stopped = none(None, Ending::Stopped(Stop::CostRange));
    assert!(rt; each_way(alloc, past_64_bits(alloc)?, stopped)?);
    let bounded = none(Some(u64::MAX), Ending::Exhausted);
    assert!(rt; each_way(alloc, past_64_bits(alloc)?, bounded)?);
    Ok(())
}

#[test]
fn a_greatest_cost_ends_a_list(rt: HostRuntime) -> Result<(), Fail> {
    let alloc = rt.alloc();
    let at = Row {
        most: Some(1),
        ..ONE
    };
    assert!(rt; each_way(alloc, zero_costs(alloc)?, at)?);
    assert!(rt; each_way(alloc, zero_costs(alloc)?, none(Some(0), Ending::Exhausted))?);
    Ok(())
}

#[test]
fn each_call_of_the_space_is_refused_once(rt: HostRuntime) -> Result<(), Fail> {
    let alloc = rt.alloc();
    let task = switch_and_back(alloc)?;
    assert!(rt;
        stops_well(
            alloc,
            &task,
            Engine::Loopless,
            &[&[0]],
            2,
            Ending::Exhausted
        )?
    );
    Ok(())
}
