//! What the space of single states alone does: calls that are refused, and no nodes.

use crate::calls::{holds_no_node, tidied_once, tried};
use explicit_space::{ExplicitSpace, FuseSpace};
use small_tasks::switch_and_back;
use std::test::Fail;

#[test]
fn sets_made_before_a_refusal_mean_the_same_after_it(rt: HostRuntime) -> Result<(), Fail> {
    let task = switch_and_back(rt.alloc())?;
    for n in 0..7 {
        let space = ExplicitSpace::of(rt.alloc(), &task)?;
        let given = tried(&rt, FuseSpace::new(space, n)).ok();
        assert!(rt; given == n.checked_sub(3));
    }
    Ok(())
}

#[test]
fn an_explicit_space_holds_no_node_and_is_tidied(rt: HostRuntime) -> Result<(), Fail> {
    let task = switch_and_back(rt.alloc())?;
    holds_no_node(&rt, ExplicitSpace::of(rt.alloc(), &task)?)?;
    Ok(())
}

#[test]
fn tidying_takes_one_of_the_calls_left_and_is_refused_with_none_left(
    rt: HostRuntime,
) -> Result<(), Fail> {
    let task = switch_and_back(rt.alloc())?;
    tidied_once(&rt, ExplicitSpace::of(rt.alloc(), &task)?)?;
    Ok(())
}
