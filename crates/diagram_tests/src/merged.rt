//! Worked rows: a variable of three values, operators of one cost that step along it, and a derived variable.

ghost use Rattle.std.specs.Prelude.{◌≡◌, ◌<◌, ◌≤◌, length, All, IfOk};
ghost use Rattle.bdd_table.specs.Diagram.{means, Keeps};
ghost use Rattle.var_order.specs.Layout.{IsOrderOf};
ghost use Rattle.transitions.specs.Relations.{IsSet};
ghost use Rattle.trans_merge.specs.Merging.{IsRelation};

use crate::order::LINE;
use crate::states::{no_diagrams, states, task_of};
use axiom_layers::compile;
use bdd_ops::Ops;
use bdd_table::{FALSE, Id};
use std::alloc::Global;
use std::process::Abort;
use std::test::Fail;
use symk_task::{Memory, Task};
use trans_merge::merge;
use transitions::{Relation, image, relation};
use var_order::Order;

/// The relations of both operators.
fn members(
    alloc: Global,
    task: &Task,
    order: &Order,
    ops: &mut Ops,
) -> Result<Vec<Relation>, Memory>
    requires order { IsOrderOf task.now order.now }
    requires operators { length task.now.operators ≡ 2 }
    ensures { IfOk result (λ members. All (IsRelation order.now ops.new) members.items) }
{
    let derived = compile(alloc, task, order, ops)?;
    let first = relation(alloc, task, order, ops, &derived, 0)?;
    let second = relation(alloc, task, order, ops, &derived, 1)?;
    let mut members = Vec::new(alloc);
    members.push(first)?;
    members.push(second)?;
    Ok(members)
}

/// The union of the images of the set by the relations.
fn images(ops: &mut Ops, order: &Order, relations: &[Relation], set: Id) -> Result<Id, Memory>
    requires relations { All (IsRelation order.now ops.old) relations.now }
    requires set { set < length ops.old }
    requires states { IsSet order.now (means ops.old set) }
{
    let _ = order.blocks();
    let mut all = FALSE;
    for relation in relations {
        let found = image(ops, relation, set)?;
        all = ops.disj(all, found)?;
    }
    Ok(all)
}

/// So many relations come of the members, and lead together from the first two states to the last two.
fn check_merged(
    rt: &impl Abort,
    alloc: Global,
    order: &Order,
    ops: &mut Ops,
    members: Vec<Relation>,
    row: (u64, usize),
) -> Result<(), Fail>
    requires { All (IsRelation order.now ops.old) members.items }
{
    let (bound, count) = row;
    let results = merge(alloc, order, ops, members, bound)?;
    assert_eq!(rt; results.len(), count);
    let from = states(rt, alloc, order, ops, (&[0], &[1]))?;
    let to = images(ops, order, &results, from)?;
    assert_eq!(rt; to, states(rt, alloc, order, ops, (&[1], &[2]))?);
    Ok(())
}

fn check_order(
    rt: &impl Abort,
    alloc: Global,
    task: &Task,
    order: &Order,
    row: (u64, usize),
) -> Result<(), Fail>
    requires order { IsOrderOf task.now order.now }
    requires operators { length task.now.operators ≡ 2 }
{
    let mut ops = no_diagrams(alloc)?;
    let members = members(alloc, task, order, &mut ops)?;
    check_merged(rt, alloc, order, &mut ops, members, row)
}

fn check_task(rt: &impl Abort, alloc: Global, task: &Task, row: (u64, usize)) -> Result<(), Fail> {
    assert_eq!(rt; task.operators(), 2);
    let order = Order::of(alloc, task)?;
    check_order(rt, alloc, task, &order, row)
}

fn check(rt: &impl Abort, alloc: Global, row: (u64, usize)) -> Result<(), Fail> {
    let task = task_of(rt, alloc, &LINE)?;
    check_task(rt, alloc, &task, row)
}

#[test]
fn all_in_one(rt: HostRuntime) -> Result<(), Fail> {
    check(&rt, rt.alloc(), (1000, 1))
}

#[test]
fn each_by_itself(rt: HostRuntime) -> Result<(), Fail> {
    check(&rt, rt.alloc(), (0, 2))
}

fn check_nothing(rt: &impl Abort, alloc: Global, order: &Order) -> Result<(), Memory> {
    let mut ops = no_diagrams(alloc)?;
    let results = merge(alloc, order, &mut ops, Vec::new(alloc), 1000)?;
    assert!(rt; results.is_empty());
    Ok(())
}

fn check_no_members(rt: &impl Abort, alloc: Global, task: &Task) -> Result<(), Memory> {
    let order = Order::of(alloc, task)?;
    check_nothing(rt, alloc, &order)
}

#[test]
fn nothing(rt: HostRuntime) -> Result<(), Fail> {
    let task = task_of(&rt, rt.alloc(), &LINE)?;
    check_no_members(&rt, rt.alloc(), &task)?;
    Ok(())
}
