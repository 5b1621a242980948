//! Worked rows of sets of states.

ghost use Rattle.std.specs.Prelude.{◌<◌, length, IfOk};

use crate::order::{LINE, ONE, order_in, order_of};
use bdd_ops::Ops;
use bdd_sets::{fact_set, has, next_fact_set, state_set, valid_set};
use bdd_table::{Id, TRUE, Table};
use small_tasks::BASE;
use std::alloc::Global;
use std::process::Abort;
use std::test::Fail;
use symk_task::{Fact, Memory, State};
use var_order::Order;

/// The order of a variable of three values and a derived one.
fn three(rt: &impl Abort, alloc: Global) -> Result<Order, Memory> {
    order_in(rt, alloc, &LINE)
}

/// Whether the set has the state of these values.
fn has_values(
    rt: &impl Abort,
    alloc: Global,
    ops: &Ops,
    order: &Order,
    set: Id,
    values: &[u32],
) -> Result<bool, Memory>
    requires { set < length ops.now }
{
    let state = state(rt, alloc, order, values)?;
    assert!(rt; order.is_state(&state));
    Ok(has(ops, order, set, &state))
}

/// The state of these values.
fn state(rt: &impl Abort, alloc: Global, order: &Order, values: &[u32]) -> Result<State, Memory> {
    let state = State::of(Vec::from_slice(alloc, values)?);
    assert!(rt; order.is_state(&state));
    Ok(state)
}

fn no_diagrams(alloc: Global) -> Result<Ops, Memory> {
    Ops::new(Table::new(alloc)?, 100)
}

fn check_fact(rt: &impl Abort, alloc: Global, order: &Order, ops: &mut Ops) -> Result<(), Memory> {
    assert!(rt; order.slot(0).is_some());
    let set = fact_set(ops, order, Fact { var: 0, val: 2 })?;
    assert!(rt; has_values(rt, alloc, ops, order, set, &[2])?);
    assert!(rt; !has_values(rt, alloc, ops, order, set, &[1])?);
    Ok(())
}

/// The same over diagrams of its own.
fn with_fact(rt: &impl Abort, alloc: Global, order: &Order) -> Result<(), Memory> {
    let mut ops = no_diagrams(alloc)?;
    check_fact(rt, alloc, order, &mut ops)
}

#[test]
fn a_fact(rt: HostRuntime) -> Result<(), Fail> {
    let order = three(&rt, rt.alloc())?;
    with_fact(&rt, rt.alloc(), &order)?;
    Ok(())
}

fn check_all(rt: &impl Abort, alloc: Global, order: &Order, ops: &mut Ops) -> Result<(), Memory> {
    let set = valid_set(ops, order)?;
    for value in 0..3 {
        assert!(rt; has_values(rt, alloc, ops, order, set, &[value])?);
    }
    assert_ne!(rt; set, TRUE);
    Ok(())
}

/// The same over diagrams of its own.
fn with_all(rt: &impl Abort, alloc: Global, order: &Order) -> Result<(), Memory> {
    let mut ops = no_diagrams(alloc)?;
    check_all(rt, alloc, order, &mut ops)
}

#[test]
fn all_states(rt: HostRuntime) -> Result<(), Fail> {
    let order = three(&rt, rt.alloc())?;
    with_all(&rt, rt.alloc(), &order)?;
    Ok(())
}

/// The set of the state of these values.
fn set_of(
    rt: &impl Abort,
    alloc: Global,
    order: &Order,
    ops: &mut Ops,
    values: &[u32],
) -> Result<Id, Memory>
    ensures { IfOk result (λ id. id < length ops.new) }
{
    let only = state(rt, alloc, order, values)?;
    assert!(rt; order.is_state(&only));
    state_set(ops, order, &only)
}

fn check_one(rt: &impl Abort, alloc: Global, order: &Order, ops: &mut Ops) -> Result<(), Memory> {
    let set = set_of(rt, alloc, order, ops, &[1])?;
    for value in 0..3 {
        assert_eq!(rt;
            has_values(rt, alloc, ops, order, set, &[value])?,
            value == 1
        );
    }
    Ok(())
}

/// The same over diagrams of its own.
fn with_one(rt: &impl Abort, alloc: Global, order: &Order) -> Result<(), Memory> {
    let mut ops = no_diagrams(alloc)?;
    check_one(rt, alloc, order, &mut ops)
}

#[test]
fn one_state(rt: HostRuntime) -> Result<(), Fail> {
    let order = three(&rt, rt.alloc())?;
    with_one(&rt, rt.alloc(), &order)?;
    Ok(())
}

fn check_next(rt: &impl Abort, order: &Order, ops: &mut Ops) -> Result<(), Memory> {
    assert!(rt; order.slot(1).is_some());
    let next = next_fact_set(ops, order, Fact { var: 1, val: 1 })?;
    assert_eq!(rt; next, ops.literal(1, true)?);
    Ok(())
}

/// The same over diagrams of its own.
fn with_next(rt: &impl Abort, alloc: Global, order: &Order) -> Result<(), Memory> {
    let mut ops = no_diagrams(alloc)?;
    check_next(rt, order, &mut ops)
}

#[test]
fn the_next_state(rt: HostRuntime) -> Result<(), Fail> {
    let order = order_of(&rt, rt.alloc(), &[ONE, BASE], &[0, 0])?;
    with_next(&rt, rt.alloc(), &order)?;
    Ok(())
}
