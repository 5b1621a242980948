//! Pairs of operators, seen to commute and tried.

ghost use Rattle.std.specs.Prelude.{◌≤◌, ◌<◌, IfOk, length};
ghost use Rattle.symk_task.specs.Variables.{IsState};

use small_tasks::{
    BASE, Draft, EffectDraft, OperatorDraft, conditional_effects, drafted, switch_and_back,
    two_switches,
};
use std::alloc::Global;
use std::test::Fail;
use stubborn_sets::commute;
use symk_task::{Memory, State, Task};
use task_draws::{Random, random_task};
use task_run::step;

/// Whether in the state, if both apply, each applies after the other and both orders lead to the same state.
fn commute_in(
    alloc: Global,
    task: &Task,
    one: u32,
    other: u32,
    state: &State,
) -> Result<bool, Memory>
    requires one { one < length task.now.operators }
    requires other { other < length task.now.operators }
    requires state { IsState task.now state.now }
{
    let Some(by_one) = step(alloc, task, one, state)? else {
        return Ok(true);
    };
    let Some(by_other) = step(alloc, task, other, state)? else {
        return Ok(true);
    };
    let Some(one_first) = step(alloc, task, other, &by_one)? else {
        return Ok(false);
    };
    let Some(other_first) = step(alloc, task, one, &by_other)? else {
        return Ok(false);
    };
    Ok(one_first.as_slice() == other_first.as_slice())
}

/// Whether it does so in the state with each operator with which it is seen to commute.
fn with_each(alloc: Global, task: &Task, one: u32, state: &State) -> Result<bool, Memory>
    requires one { one < length task.now.operators }
    requires state { IsState task.now state.now }
{
    for other in 0..task.operators() {
        if commute(task, one, other) && !commute_in(alloc, task, one, other, state)? {
            return Ok(false);
        }
    }
    Ok(true)
}

/// Whether in the state each pair that is seen to commute does so.
fn each_pair(alloc: Global, task: &Task, state: &State) -> Result<bool, Memory>
    requires { IsState task.now state.now }
{
    for one in 0..task.operators() {
        if !with_each(alloc, task, one, state)? {
            return Ok(false);
        }
    }
    Ok(true)
}

/// The state after an operator that is drawn, or the same where it doesn't apply.
fn moved(alloc: Global, task: &Task, random: &mut Random, state: State) -> Result<State, Memory>
    requires { IsState task.now state }
    ensures { IfOk result (IsState task.now) }
{
    if task.operators() == 0 {
        return Ok(state);
    }
    let op = random.below(task.operators());
    match step(alloc, task, op, &state)? {
        Some(next) => Ok(next),
        None => Ok(state),
    }
}

/// Whether each pair that is seen to commute does so in the states that a walk of 20 operators passes.
fn each_on_a_walk(alloc: Global, task: &Task, seed: u64) -> Result<bool, Memory> {
    let mut random = Random::of(seed);
    let mut state = task.start(alloc)?;
    'walk: for _ in 0..20 {
        if !each_pair(alloc, task, &state)? {
            return Ok(false);
        }
        state = moved(alloc, task, &mut random, state)?;
    }
    Ok(true)
}

/// Whether it does on the task that the seed draws, if it draws one.
fn each_of_a_draw(alloc: Global, seed: u64) -> Result<bool, Memory> {
    match random_task(alloc, seed)? {
        Some(task) => each_on_a_walk(alloc, &task, seed),
        None => Ok(true),
    }
}

#[test]
fn what_is_seen_to_commute_does_in_drawn_tasks(rt: HostRuntime) -> Result<(), Fail> {
    let alloc = rt.alloc();
    for seed in 0..100 {
        assert!(rt; each_of_a_draw(alloc, seed)?);
    }
    Ok(())
}

/// Three lights in a circle: each press turns over a light and the next.
const LIGHTS: Draft<'_> = Draft {
    metric: 0,
    variables: &[BASE, BASE, BASE],
    initial: &[0, 0, 0],
    goal: &[(0, 1)],
    operators: &[
        OperatorDraft {
            name: b"first",
            effects: &[
                EffectDraft {
                    conds: &[(0, 0)],
                    var: 0,
                    pre: None,
                    post: 1,
                },
                EffectDraft {
                    conds: &[(0, 1)],
                    var: 0,
                    pre: None,
                    post: 0,
                },
                EffectDraft {
                    conds: &[(1, 0)],
                    var: 1,
                    pre: None,
                    post: 1,
                },
                EffectDraft {
                    conds: &[(1, 1)],
                    var: 1,
                    pre: None,
                    post: 0,
                },
            ],
            cost: 1,
        },
        OperatorDraft {
            name: b"second",
            effects: &[
                EffectDraft {
                    conds: &[(1, 0)],
                    var: 1,
                    pre: None,
                    post: 1,
                },
                EffectDraft {
                    conds: &[(1, 1)],
                    var: 1,
                    pre: None,
                    post: 0,
                },
                EffectDraft {
                    conds: &[(2, 0)],
                    var: 2,
                    pre: None,
                    post: 1,
                },
                EffectDraft {
                    conds: &[(2, 1)],
                    var: 2,
                    pre: None,
                    post: 0,
                },
            ],
            cost: 1,
        },
        OperatorDraft {
            name: b"third",
            effects: &[
                EffectDraft {
                    conds: &[(2, 0)],
                    var: 2,
                    pre: None,
                    post: 1,
                },
                EffectDraft {
                    conds: &[(2, 1)],
                    var: 2,
                    pre: None,
                    post: 0,
                },
                EffectDraft {
                    conds: &[(0, 0)],
                    var: 0,
                    pre: None,
                    post: 1,
                },
                EffectDraft {
                    conds: &[(0, 1)],
                    var: 0,
                    pre: None,
                    post: 0,
                },
            ],
            cost: 1,
        },
    ],
    rules: &[],
};

/// How many of the operators from this one on are seen to commute with it.
fn seen_with(task: &Task, one: u32) -> u32
    requires { one < length task.now.operators }
    ensures { result ≤ length task.now.operators }
{
    let mut count = 0;
    for other in one..task.operators() {
        if commute(task, one, other) {
            count += 1;
        }
    }
    count
}

/// With how many, itself included, the first operator is seen to commute, if there is one.
fn seen_with_first(task: &Task) -> u32 {
    if task.operators() == 0 {
        return 0;
    }
    seen_with(task, 0)
}

#[test]
fn presses_of_lights_commute(rt: HostRuntime) -> Result<(), Fail> {
    let alloc = rt.alloc();
    let task = drafted(alloc, &LIGHTS)?.expect(&rt, "the lights fit");
    assert_eq!(rt; seen_with_first(&task), 3);
    assert!(rt; each_on_a_walk(alloc, &task, 1)?);
    Ok(())
}

#[test]
fn switches_commute_with_others(rt: HostRuntime) -> Result<(), Fail> {
    let alloc = rt.alloc();
    assert_eq!(rt; seen_with_first(&two_switches(alloc)?), 1);
    assert_eq!(rt; seen_with_first(&switch_and_back(alloc)?), 1);
    assert_eq!(rt; seen_with_first(&conditional_effects(alloc)?), 0);
    Ok(())
}
