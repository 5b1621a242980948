//! Worked rows.

ghost use Rattle.std.specs.Prelude.{◌<◌, length};
ghost use Rattle.symk_task.specs.Variables.{IsState};

use small_tasks::{
    BASE, DERIVED, Draft, FOURTH_WHERE_NOT_THIRD, NEXT, ON, SECOND_TO_0, SECOND_WHERE_FIRST,
    THIRD_WHERE_SECOND, conditional_effects, drafted, later_effect_reaches, later_effect_undoes,
    one_switch,
};
use std::alloc::Global;
use std::process::Abort;
use std::test::Fail;
use symk_task::{Plan, State, Task};
use task_run::{Verdict, applies, closed, goal_holds, run_plan, step, successor};

/// The second of three derived variables follows from the first, which follows from the base variable, and the third,
/// of the next layer, from the second at its default value.
const CHAIN: Draft = Draft {
    metric: 0,
    variables: &[BASE, DERIVED, DERIVED, NEXT],
    initial: &[0, 0, 0, 0],
    goal: &[(2, 1)],
    operators: &[ON],
    rules: &[
        THIRD_WHERE_SECOND,
        SECOND_WHERE_FIRST,
        FOURTH_WHERE_NOT_THIRD,
    ],
};

/// A rule without conditions leads to the default value.
const TO_DEFAULT: Draft = Draft {
    metric: 0,
    variables: &[BASE, DERIVED],
    initial: &[0, 0],
    goal: &[(1, 1)],
    operators: &[ON],
    rules: &[SECOND_WHERE_FIRST, SECOND_TO_0],
};

fn check_closed(
    rt: &impl Abort,
    alloc: Global,
    task: &Task,
    state: &State,
    values: &[u32],
) -> Result<(), Fail>
    requires { IsState task.now state.now }
{
    let found = closed(alloc, task, state)?;
    assert_eq!(rt; found.as_slice(), values);
    Ok(())
}

/// All values after the operator.
fn check_next(
    rt: &impl Abort,
    alloc: Global,
    task: &Task,
    state: &State,
    values: &[u32],
) -> Result<(), Fail>
    requires task { 0 < length task.now.operators }
    requires state { IsState task.now state.now }
{
    let next = step(alloc, task, 0, state)?.expect(rt, "the operator applies");
    check_closed(rt, alloc, task, &next, values)
}

/// All values in the initial state and after the operator.
fn check_values(
    rt: &impl Abort,
    alloc: Global,
    task: &Task,
    before: &[u32],
    after: &[u32],
) -> Result<(), Fail> {
    assert_eq!(rt; task.operators(), 1);
    let start = task.start(alloc)?;
    check_closed(rt, alloc, task, &start, before)?;
    check_next(rt, alloc, task, &start, after)
}

/// The same of the task of a draft.
fn check_draft(
    rt: &impl Abort,
    alloc: Global,
    draft: &Draft<'_>,
    before: &[u32],
    after: &[u32],
) -> Result<(), Fail> {
    let task = drafted(alloc, draft)?.expect(rt, "the draft fits");
    check_values(rt, alloc, &task, before, after)
}

#[test]
fn derived_values_follow_the_rules(rt: HostRuntime) -> Result<(), Fail> {
    check_draft(&rt, rt.alloc(), &CHAIN, &[0, 0, 0, 1], &[1, 1, 1, 0])?;
    check_draft(&rt, rt.alloc(), &TO_DEFAULT, &[0, 0], &[1, 1])
}

/// Two variables are exchanged.
fn check_exchange(rt: &impl Abort, alloc: Global) -> Result<(), Fail> {
    let task = conditional_effects(alloc)?;
    check_values(rt, alloc, &task, &[1, 0], &[0, 1])
}

/// The operator changes one variable twice.
fn check_on_then_off(rt: &impl Abort, alloc: Global) -> Result<(), Fail> {
    let task = later_effect_undoes(alloc)?;
    check_values(rt, alloc, &task, &[0], &[0])
}

fn check_off_then_on(rt: &impl Abort, alloc: Global) -> Result<(), Fail> {
    let task = later_effect_reaches(alloc)?;
    check_values(rt, alloc, &task, &[0], &[1])
}

#[test]
fn effects_see_the_old_state(rt: HostRuntime) -> Result<(), Fail> {
    check_exchange(&rt, rt.alloc())?;
    check_on_then_off(&rt, rt.alloc())?;
    check_off_then_on(&rt, rt.alloc())
}

fn check_answers(
    rt: &impl Abort,
    alloc: Global,
    task: &Task,
    state: &State,
    may_step: bool,
    at_goal: bool,
) -> Result<(), Fail>
    requires task { 0 < length task.now.operators }
    requires state { IsState task.now state.now }
{
    assert_eq!(rt; applies(alloc, task, 0, state)?, may_step);
    assert_eq!(rt; goal_holds(alloc, task, state)?, at_goal);
    Ok(())
}

/// The operator applies in the first state alone, and the goal holds in the next one.
fn check_states(rt: &impl Abort, alloc: Global, task: &Task) -> Result<(), Fail> {
    assert_eq!(rt; task.operators(), 1);
    let off = task.start(alloc)?;
    check_answers(rt, alloc, task, &off, true, false)?;
    check_on(rt, alloc, task, &off)
}

/// The state after the operator.
fn check_on(rt: &impl Abort, alloc: Global, task: &Task, off: &State) -> Result<(), Fail>
    requires task { 0 < length task.now.operators }
    requires state { IsState task.now off.now }
{
    let answer = applies(alloc, task, 0, off)?;
    assert!(rt; answer);
    let on = successor(alloc, task, 0, off)?;
    assert_eq!(rt; on.as_slice(), [1].as_slice());
    check_answers(rt, alloc, task, &on, false, true)
}

#[test]
fn one_state_is_asked(rt: HostRuntime) -> Result<(), Fail> {
    let task = one_switch(rt.alloc())?;
    check_states(&rt, rt.alloc(), &task)
}

fn check_run(
    rt: &impl Abort,
    alloc: Global,
    task: &Task,
    numbers: &[u32],
    verdict: Verdict,
) -> Result<(), Fail> {
    let plan = Plan::of(Vec::from_slice(alloc, numbers)?);
    assert_eq!(rt; run_plan(alloc, task, &plan)?, verdict);
    Ok(())
}

fn check_runs(rt: &impl Abort, alloc: Global, task: &Task) -> Result<(), Fail> {
    check_run(rt, alloc, task, &[0], Verdict::Reaches { cost: 1 })?;
    check_run(rt, alloc, task, &[0, 0], Verdict::StopsAt { step: 2 })?;
    check_run(rt, alloc, task, &[], Verdict::MissesGoal)?;
    check_run(
        rt,
        alloc,
        task,
        &[0, 7],
        Verdict::NoSuchOperator { step: 2 },
    )
}

#[test]
fn plans_are_run(rt: HostRuntime) -> Result<(), Fail> {
    let task = one_switch(rt.alloc())?;
    check_runs(&rt, rt.alloc(), &task)
}
