//! Worked rows.

ghost use Rattle.std.specs.Prelude.{◌<◌};

use bdd_ops::Ops;
use bdd_table::{FALSE, Id, TRUE, Table, TableFault};
use std::alloc::Global;
use std::process::Abort;
use std::test::Fail;

fn ops(alloc: Global) -> Result<Ops, TableFault> {
    Ops::new(Table::new(alloc)?, 100)
}

fn check_quantified(rt: &impl Abort, ops: &mut Ops) -> Result<(), TableFault> {
    let p = ops.literal(0, true)?;
    let q = ops.literal(1, true)?;
    let both = ops.conj(p, q)?;
    let some_q = ops.quantify(&[1], both)?;
    assert_eq!(rt; some_q, p);
    let some_p_and_q = ops.quantify(&[0, 1], both)?;
    assert_eq!(rt; some_p_and_q, TRUE);
    let some_q_and_p = ops.quantify(&[1, 0, 1], both)?;
    assert_eq!(rt; some_q_and_p, TRUE);
    let some_p = ops.conj_quantify(&[0], p, q)?;
    assert_eq!(rt; some_p, q);
    Ok(())
}

#[test]
fn quantifies(rt: HostRuntime) -> Result<(), Fail> {
    let mut ops = ops(rt.alloc())?;
    check_quantified(&rt, &mut ops)?;
    Ok(())
}

fn check_combined(rt: &impl Abort, ops: &mut Ops) -> Result<(), TableFault> {
    let p = ops.literal(0, true)?;
    let not_p = ops.neg(p)?;
    let either = ops.disj(p, not_p)?;
    assert_eq!(rt; either, TRUE);
    let none = ops.minus(p, p)?;
    assert_eq!(rt; none, FALSE);
    let not_not_p = ops.neg(not_p)?;
    assert_eq!(rt; not_not_p, p);
    let negative = ops.literal(0, false)?;
    assert_eq!(rt; negative, not_p);
    Ok(())
}

#[test]
fn combines(rt: HostRuntime) -> Result<(), Fail> {
    let mut ops = ops(rt.alloc())?;
    check_combined(&rt, &mut ops)?;
    Ok(())
}

/// The level, renamed to another.
fn renamed_literal(ops: &mut Ops, from: u32, to: u32) -> Result<Id, TableFault>
    requires from { from < 4294967295 }
    requires to { to < 4294967295 }
{
    let literal = ops.literal(from, true)?;
    ops.rename(literal, &[(from, to)])
}

fn check_renamed(rt: &impl Abort, ops: &mut Ops) -> Result<(), TableFault> {
    let q = ops.literal(1, true)?;
    let renamed = renamed_literal(ops, 0, 1)?;
    assert_eq!(rt; renamed, q);
    let again = renamed_literal(ops, 0, 1)?;
    assert_eq!(rt; again, q);
    Ok(())
}

#[test]
fn renames(rt: HostRuntime) -> Result<(), Fail> {
    let mut ops = ops(rt.alloc())?;
    check_renamed(&rt, &mut ops)?;
    Ok(())
}

fn check_collected(rt: &impl Abort, ops: &mut Ops) -> Result<(), TableFault> {
    let p = ops.literal(0, true)?;
    let q = ops.literal(1, true)?;
    let both = ops.conj(p, q)?;
    let mut roots = [both];
    ops.collect(&mut roots)?;
    assert_eq!(rt; ops.table().held(), 2);
    let again = ops.literal(1, true)?;
    assert_eq!(rt; again, 2);
    assert_eq!(rt; ops.table().held(), 2);
    Ok(())
}

#[test]
fn collects(rt: HostRuntime) -> Result<(), Fail> {
    let mut ops = ops(rt.alloc())?;
    check_collected(&rt, &mut ops)?;
    Ok(())
}
