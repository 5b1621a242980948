//! Worked rows of tasks.

use small_tasks::{BASE, Draft, OperatorDraft, drafted, drafted_parts};
use std::alloc::Global;
use std::process::Abort;
use std::test::Fail;
use symk_task::{Memory, Mode, Name, Plan, State, Task, TaskParts, same, width};

fn name(alloc: Global, bytes: &[u8]) -> Result<Name, Memory> {
    Ok(Name::of(Vec::from_slice(alloc, bytes)?))
}

fn state(alloc: Global, values: &[u32]) -> Result<State, Memory> {
    Ok(State::of(Vec::from_slice(alloc, values)?))
}

fn plan(alloc: Global, numbers: &[u32]) -> Result<Plan, Memory> {
    Ok(Plan::of(Vec::from_slice(alloc, numbers)?))
}

fn check_name(rt: &impl Abort, alloc: Global) -> Result<(), Memory> {
    let name = name(alloc, b"flip 0")?;
    assert_eq!(rt; name.copy(alloc)?, name);
    Ok(())
}

fn check_state(rt: &impl Abort, alloc: Global) -> Result<(), Memory> {
    let state = state(alloc, &[0, 3, 65_535])?;
    assert_eq!(rt; state.copy(alloc)?, state);
    Ok(())
}

fn check_plan(rt: &impl Abort, alloc: Global) -> Result<(), Memory> {
    let plan = plan(alloc, &[7, 0, 7])?;
    assert_eq!(rt; plan.copy(alloc)?, plan);
    Ok(())
}

#[test]
fn copies_are_equal(rt: HostRuntime) -> Result<(), Fail> {
    check_name(&rt, rt.alloc())?;
    check_state(&rt, rt.alloc())?;
    check_plan(&rt, rt.alloc())?;
    Ok(())
}

#[test]
fn widths(rt: HostRuntime) -> Result<(), Fail> {
    for (values, bits) in [(1, 0), (2, 1), (3, 2), (4, 2), (5, 3), (65_536, 16)] {
        assert_eq!(rt; width(values), bits);
    }
    Ok(())
}

/// Whether the plans of these numbers count as one.
fn one_plan(alloc: Global, mode: Mode, first: &[u32], second: &[u32]) -> Result<bool, Memory> {
    let first = plan(alloc, first)?;
    let second = plan(alloc, second)?;
    same(alloc, mode, &first, &second)
}

#[test]
fn count_as_one(rt: HostRuntime) -> Result<(), Fail> {
    let alloc = rt.alloc();
    assert!(rt; one_plan(alloc, Mode::Unordered, &[0, 1], &[1, 0])?);
    assert!(rt; !one_plan(alloc, Mode::TopK, &[0, 1], &[1, 0])?);
    assert!(rt; !one_plan(alloc, Mode::Loopless, &[0, 1], &[1, 0])?);
    assert!(rt; one_plan(alloc, Mode::TopK, &[0, 1], &[0, 1])?);
    assert!(rt; !one_plan(alloc, Mode::Unordered, &[0, 0, 1], &[0, 1, 1])?);
    Ok(())
}

fn check_states(rt: &impl Abort, low: &mut State, high: &State) {
    assert!(rt; *low < *high);
    if low.as_slice().len() == 2 {
        low.set(0, 1);
    }
    assert!(rt; *high < *low);
}

fn check_plans(rt: &impl Abort, short: &mut Plan, long: &Plan) -> Result<(), Memory> {
    assert!(rt; *short < *long);
    short.push(0)?;
    assert_eq!(rt; *short, *long);
    Ok(())
}

#[test]
fn keys_are_ordered(rt: HostRuntime) -> Result<(), Fail> {
    let alloc = rt.alloc();
    check_states(&rt, &mut state(alloc, &[0, 2])?, &state(alloc, &[1, 0])?);
    check_plans(&rt, &mut plan(alloc, &[4])?, &plan(alloc, &[4, 0])?)?;
    Ok(())
}

/// One variable of two values, the second of them initial, and nothing else.
const LAMP: Draft = Draft {
    metric: 1,
    variables: &[BASE],
    initial: &[1],
    goal: &[],
    operators: &[],
    rules: &[],
};

/// The same, and an operator that changes nothing.
const WAIT: Draft = Draft {
    metric: 1,
    variables: &[BASE],
    initial: &[1],
    goal: &[],
    operators: &[OperatorDraft {
        name: b"wait",
        effects: &[],
        cost: 5,
    }],
    rules: &[],
};

fn check_start(rt: &impl Abort, alloc: Global, task: &Task) -> Result<(), Memory> {
    assert!(rt; task.unit());
    assert_eq!(rt; task.operators(), 0);
    let start = task.start(alloc)?;
    assert_eq!(rt; start.as_slice(), [1].as_slice());
    Ok(())
}

#[test]
fn starts(rt: HostRuntime) -> Result<(), Fail> {
    let task = drafted(rt.alloc(), &LAMP)?.expect(&rt, "the draft fits");
    check_start(&rt, rt.alloc(), &task)?;
    Ok(())
}

fn check_metric(rt: &impl Abort, parts: &mut TaskParts) {
    parts.metric = 2;
    assert!(rt; !parts.fits());
}

#[test]
fn another_metric(rt: HostRuntime) -> Result<(), Fail> {
    let mut parts = drafted_parts(rt.alloc(), &LAMP)?;
    check_metric(&rt, &mut parts);
    Ok(())
}

fn check_costs(rt: &impl Abort, alloc: Global, task: &Task) {
    assert_eq!(rt; task.operators(), 1);
    assert_eq!(rt; task.cost(0), 5);
    assert!(rt; !task.unit());
    assert_eq!(rt; task.plan_cost(&Plan::of(Vec::new(alloc))), 0);
}

#[test]
fn costs(rt: HostRuntime) -> Result<(), Fail> {
    let task = drafted(rt.alloc(), &WAIT)?.expect(&rt, "the draft fits");
    check_costs(&rt, rt.alloc(), &task);
    Ok(())
}
