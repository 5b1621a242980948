//! The rows over each space.

use crate::calls::{few_nodes, operators_that_matter, rows};
use bdd_space::BddSpace;
use explicit_space::{ExplicitSpace, FuseSpace};
use small_tasks::{switch_and_back, two_switches};
use space_api::SpaceFault;
use std::alloc::Global;
use std::process::Abort;
use std::test::Fail;
use symk_task::Task;

/// Both spaces, and one that refuses after a hundred calls.
fn each_answers(rt: &impl Abort, alloc: Global, task: &Task) -> Result<(), SpaceFault> {
    rows(rt, ExplicitSpace::of(alloc, task)?)?;
    rows(rt, FuseSpace::new(ExplicitSpace::of(alloc, task)?, 100))?;
    rows(rt, BddSpace::of(alloc, task)?)
}

#[test]
fn the_calls_of_each_space_answer_by_the_rows(rt: HostRuntime) -> Result<(), Fail> {
    let task = switch_and_back(rt.alloc())?;
    each_answers(&rt, rt.alloc(), &task)?;
    Ok(())
}

fn both_leave_few_nodes(rt: &impl Abort, alloc: Global, task: &Task) -> Result<(), SpaceFault> {
    few_nodes(rt, ExplicitSpace::of(alloc, task)?)?;
    few_nodes(rt, BddSpace::of(alloc, task)?)
}

#[test]
fn a_thousand_images_that_are_given_back_leave_few_nodes(rt: HostRuntime) -> Result<(), Fail> {
    let task = two_switches(rt.alloc())?;
    both_leave_few_nodes(&rt, rt.alloc(), &task)?;
    Ok(())
}

#[test]
fn the_second_operator_alone_may_lead_to_off_and_the_first_alone_from_it(
    rt: HostRuntime,
) -> Result<(), Fail> {
    let task = switch_and_back(rt.alloc())?;
    operators_that_matter(&rt, rt.alloc(), BddSpace::of(rt.alloc(), &task)?)?;
    Ok(())
}
