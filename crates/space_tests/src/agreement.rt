//! The space over ordered sets of states and the space over decision diagrams, on tasks that are drawn.

mod facts;

use crate::agreeing::agree;
use bdd_space::BddSpace;
use explicit_space::ExplicitSpace;
use small_tasks::stated;
use std::alloc::Global;
use std::test::Fail;
use symk_task::{List, Memory, Operator, Task, TaskParts};
use task_draws::{Random, drawn_parts, random_task};

/// Whether a space of each of the tasks answers alike, over 40 calls.
fn agrees(alloc: Global, left: &Task, right: &Task, seed: u64) -> Result<bool, Memory> {
    let mut explicit = ExplicitSpace::of(alloc, left)?;
    let mut diagrams = BddSpace::of(alloc, right)?;
    agree(alloc, &mut explicit, &mut diagrams, seed, 40)
}

/// Whether an effect of the operator has conditions.
fn is_conditional(operator: &Operator) -> bool {
    for effect in operator.effects.as_slice() {
        if !effect.conds.is_empty() {
            return true;
        }
    }
    false
}

/// Whether an effect of an operator has conditions.
fn has_conditions(parts: &TaskParts) -> bool {
    for operator in parts.operators.as_slice() {
        if is_conditional(operator) {
            return true;
        }
    }
    false
}

/// What is found of a task that a seed draws.
#[derive(Clone, Copy)]
struct Findings {
    agrees: bool,
    has_rules: bool,
    has_conditions: bool,
}

/// What is found of the task that the seed draws, where it draws one.
fn look_at(alloc: Global, seed: u64) -> Result<Option<Findings>, Memory> {
    match random_task(alloc, seed)? {
        Some(task) => Ok(Some(Findings {
            agrees: agrees(alloc, &task, &task, seed)?,
            has_rules: !task.parts().rules.is_empty(),
            has_conditions: has_conditions(task.parts()),
        })),
        None => Ok(None),
    }
}

#[test]
fn both_spaces_agree_on_two_hundred_tasks(rt: HostRuntime) -> Result<(), Fail> {
    let mut tried = 0_u32;
    let mut with_rules = 0_u32;
    let mut with_conditions = 0_u32;
    for seed in 0..1000 {
        if tried == 200 {
            break;
        }
        if let Some(found) = look_at(rt.alloc(), seed)? {
            assert!(rt; found.agrees);
            tried = tried.saturating_add(1);
            with_rules = with_rules.saturating_add(u32::from(found.has_rules));
            with_conditions = with_conditions.saturating_add(u32::from(found.has_conditions));
        }
    }
    assert_eq!(rt; tried, 200);
    assert!(rt; with_rules >= 100);
    assert!(rt; with_conditions >= 100);
    Ok(())
}

/// The parts that a seed draws, without a goal.
fn without_goal(alloc: Global, seed: u64) -> Result<TaskParts, Memory> {
    let mut parts = drawn_parts(alloc, &mut Random::of(seed))?;
    parts.goal = List::of(Vec::new(alloc));
    Ok(parts)
}

/// The parts that a seed draws, without the rules.
fn without_rules(alloc: Global, seed: u64) -> Result<TaskParts, Memory> {
    let mut parts = drawn_parts(alloc, &mut Random::of(seed))?;
    parts.rules = List::of(Vec::new(alloc));
    Ok(parts)
}

/// Whether the task that the seed draws, where it draws one, is told from this one.
fn differs(alloc: Global, seed: u64, changed: &Task) -> Result<bool, Memory> {
    match random_task(alloc, seed)? {
        Some(task) => Ok(!agrees(alloc, &task, changed, seed)?),
        None => Ok(false),
    }
}

/// Whether the task that the seed draws and that of the parts are told from one another.
fn is_told(alloc: Global, seed: u64, parts: TaskParts) -> Result<bool, Memory> {
    match stated(parts) {
        Some(changed) => differs(alloc, seed, &changed),
        None => Ok(false),
    }
}

#[test]
fn tasks_without_their_goal_or_their_rules_are_told_from_them(rt: HostRuntime) -> Result<(), Fail> {
    let alloc = rt.alloc();
    let mut goal_is_told = false;
    let mut rules_are_told = false;
    for seed in 0..40 {
        goal_is_told = is_told(alloc, seed, without_goal(alloc, seed)?)? || goal_is_told;
        rules_are_told = is_told(alloc, seed, without_rules(alloc, seed)?)? || rules_are_told;
    }
    assert!(rt; goal_is_told);
    assert!(rt; rules_are_told);
    Ok(())
}
