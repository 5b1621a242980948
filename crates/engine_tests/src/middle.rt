//! Rows.

use crate::choice::CHOICES;
use crate::engines::{Engine, Request, Sets, listed, lists};
use crate::first::{First, first_plan};
use crate::listing::Ending;
use crate::stops::stops_well;
use bidirectional::Choice;
use lazy_plans::Stop;
use small_tasks::{
    axioms, conditional_effects, goal_at_start, near_and_far, no_operator, no_plan, one_switch,
    past_64_bits, same_name_twice, switch_and_back, two_switches, zero_costs,
};
use std::alloc::Global;
use std::test::Fail;
use symk_task::{Memory, Task};

const SETS: [Sets; 2] = [Sets::States { calls: u64::MAX }, Sets::Diagrams];

/// The costs of a switch that is turned on, and off and on again.
const ODD: [u64; 10] = [1, 3, 5, 7, 9, 11, 13, 15, 17, 19];

/// Ten plans over the sets, by the engine.
fn ten(engine: Engine, sets: Sets, most: Option<u64>, handed: bool) -> Request {
    Request {
        engine,
        sets,
        most,
        handed,
        count: 10,
    }
}

/// Whether each choice over the sets lists this.
fn all_list(
    alloc: Global,
    task: &Task,
    sets: Sets,
    handed: bool,
    most: Option<u64>,
    costs: &[u64],
    ending: Ending,
) -> Result<bool, Memory> {
    for choice in CHOICES {
        let request = ten(Engine::Top(choice), sets, most, handed);
        let later = ten(Engine::TopLater(choice), sets, most, true);
        if !lists(alloc, task, request, costs, ending)?
            || !lists(alloc, task, later, costs, ending)?
        {
            return Ok(false);
        }
    }
    Ok(true)
}

/// Whether each choice over each space lists this, with a set that is handed over and without.
fn each_way(
    alloc: Global,
    task: Task,
    most: Option<u64>,
    costs: &[u64],
    ending: Ending,
) -> Result<bool, Memory> {
    for sets in SETS {
        if !all_list(alloc, &task, sets, false, most, costs, ending)?
            || !all_list(alloc, &task, sets, true, most, costs, ending)?
        {
            return Ok(false);
        }
    }
    Ok(true)
}

#[test]
fn ten_plans_are_good(rt: HostRuntime) -> Result<(), Fail> {
    let alloc = rt.alloc();
    let reached = Ending::Reached;
    assert!(rt; each_way(alloc, switch_and_back(alloc)?, None, &ODD, reached)?);
    assert!(rt; each_way(alloc, conditional_effects(alloc)?, None, &ODD, reached)?);
    assert!(rt; each_way(alloc, zero_costs(alloc)?, None, &[1; 10], reached)?);
    Ok(())
}

#[test]
fn all_plans_are_good(rt: HostRuntime) -> Result<(), Fail> {
    let alloc = rt.alloc();
    let exhausted = Ending::Exhausted;
    assert!(rt; each_way(alloc, two_switches(alloc)?, None, &[2, 2], exhausted)?);
    let far = [1_000_000_000_000, 1_000_000_000_001];
    assert!(rt; each_way(alloc, near_and_far(alloc)?, None, &far, exhausted)?);
    assert!(rt; each_way(alloc, same_name_twice(alloc)?, None, &[1, 1], exhausted)?);
    assert!(rt; each_way(alloc, one_switch(alloc)?, None, &[1], exhausted)?);
    assert!(rt; each_way(alloc, axioms(alloc)?, None, &[1, 2], exhausted)?);
    assert!(rt; each_way(alloc, goal_at_start(alloc)?, None, &[0], exhausted)?);
    Ok(())
}

#[test]
fn lists_without_a_plan_end(rt: HostRuntime) -> Result<(), Fail> {
    let alloc = rt.alloc();
    assert!(rt; each_way(alloc, no_operator(alloc)?, None, &[], Ending::Exhausted)?);
    assert!(rt; each_way(alloc, no_plan(alloc)?, None, &[], Ending::Exhausted)?);
    Ok(())
}

#[test]
fn the_range_of_costs_ends_a_list(rt: HostRuntime) -> Result<(), Fail> {
    let alloc = rt.alloc();
    let stopped = Ending::Stopped(Stop::CostRange);
    assert!(rt; each_way(alloc, past_64_bits(alloc)?, None, &[], stopped)?);
    assert!(rt;
        each_way(
            alloc,
            past_64_bits(alloc)?,
            Some(u64::MAX),
            &[],
            Ending::Exhausted
        )?
    );
    Ok(())
}

#[test]
fn a_greatest_cost_ends_a_list(rt: HostRuntime) -> Result<(), Fail> {
    let alloc = rt.alloc();
    for (most, count) in [(0, 0), (6, 3), (7, 4)] {
        let task = switch_and_back(alloc)?;
        assert!(rt; each_way(alloc, task, Some(most), &ODD[..count], Ending::Exhausted)?);
    }
    Ok(())
}

/// Whether each choice over the sets gives the classes of rearrangements that cost this.
fn classes_are(
    alloc: Global,
    task: &Task,
    sets: Sets,
    costs: &[u64],
    ending: Ending,
) -> Result<bool, Memory> {
    for choice in CHOICES {
        let request = Request {
            engine: Engine::Unordered(choice),
            sets,
            most: None,
            handed: false,
            count: 3,
        };
        if !lists(alloc, task, request, costs, ending)? {
            return Ok(false);
        }
    }
    Ok(true)
}

/// Whether each choice over each space gives the classes of rearrangements that cost this.
fn each_class(alloc: Global, task: Task, costs: &[u64], ending: Ending) -> Result<bool, Memory> {
    for sets in SETS {
        if !classes_are(alloc, &task, sets, costs, ending)? {
            return Ok(false);
        }
    }
    Ok(true)
}

#[test]
fn rearrangements_are_left_out(rt: HostRuntime) -> Result<(), Fail> {
    let alloc = rt.alloc();
    assert!(rt; each_class(alloc, two_switches(alloc)?, &[2], Ending::Exhausted)?);
    assert!(rt; each_class(alloc, zero_costs(alloc)?, &[1; 3], Ending::Reached)?);
    Ok(())
}

/// Whether the first three plans of the switch are these.
fn begins(alloc: Global, choice: Choice, rows: &[&[u32]]) -> Result<bool, Memory> {
    let request = Request {
        engine: Engine::Top(choice),
        sets: Sets::Diagrams,
        most: None,
        handed: false,
        count: 3,
    };
    let listing = listed(alloc, &switch_and_back(alloc)?, request)?;
    Ok(listing.ending == Ending::Reached && listing.begins(rows))
}

#[test]
fn the_first_plans_of_a_switch(rt: HostRuntime) -> Result<(), Fail> {
    let alloc = rt.alloc();
    let rows: [&[u32]; 3] = [&[0], &[0, 1, 0], &[0, 1, 0, 1, 0]];
    for choice in CHOICES {
        assert!(rt; begins(alloc, choice, &rows)?);
    }
    Ok(())
}

/// The first plan where one is wanted, over a space that is passed no call more than that takes.
fn first_by_fewest_calls(alloc: Global, task: &Task, choice: Choice) -> Option<First> {
    for calls in 0..1000 {
        if let Ok(Some(first)) = first_plan(alloc, task, Sets::States { calls }, choice) {
            return Some(first);
        }
    }
    None
}

/// Whether the plan by operator 0 came, and nothing after it.
fn is_switch_on(first: Option<First>) -> bool {
    first.is_some_and(|first| first.alone && first.plan.as_slice() == [0].as_slice())
}

#[test]
fn nothing_is_asked_after_the_one_plan_that_is_wanted(rt: HostRuntime) -> Result<(), Fail> {
    let alloc = rt.alloc();
    let task = switch_and_back(alloc)?;
    for choice in CHOICES {
        assert!(rt; is_switch_on(first_plan(alloc, &task, Sets::Diagrams, choice)?));
        assert!(rt; is_switch_on(first_by_fewest_calls(alloc, &task, choice)));
    }
    Ok(())
}

#[test]
fn each_call_of_the_space_is_refused_once(rt: HostRuntime) -> Result<(), Fail> {
    let alloc = rt.alloc();
    let task = switch_and_back(alloc)?;
    let rows: [&[u32]; 3] = [&[0], &[0, 1, 0], &[0, 1, 0, 1, 0]];
    for choice in CHOICES {
        assert!(rt; stops_well(alloc, &task, Engine::Top(choice), &rows, 3, Ending::Reached)?);
    }
    Ok(())
}
