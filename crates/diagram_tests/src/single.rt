//! Worked rows.

ghost use Rattle.std.specs.Prelude.{◌<◌, length};
ghost use Rattle.bdd_table.specs.Diagram.{means};
ghost use Rattle.var_order.specs.Layout.{IsOrderOf};
ghost use Rattle.transitions.specs.Relations.{IsSet};

use crate::order::LINE;
use crate::states::{no_diagrams, state, states, task_of};
use axiom_layers::compile;
use bdd_ops::Ops;
use bdd_table::Id;
use small_tasks::{BASE, Draft, EffectDraft, OperatorDraft};
use std::alloc::Global;
use std::process::Abort;
use std::test::Fail;
use symk_task::{Memory, Task};
use transitions::{image, preimage, relation};
use var_order::Order;

/// A task, and the places that its first operator touches. It leads from the states of the two lists of values to that
/// of one, and to this from those of two.
struct Row<'a> {
    draft: Draft<'a>,
    touched: &'a [u32],
    from: (&'a [u32], &'a [u32]),
    to: &'a [u32],
    back: (&'a [u32], &'a [u32]),
}

/// The image of the set by the operator.
fn image_of(alloc: Global, task: &Task, order: &Order, ops: &mut Ops, set: Id) -> Result<Id, Memory>
    requires order { IsOrderOf task.now order.now }
    requires op { 0 < length task.now.operators }
    requires set { set < length ops.old }
    requires states { IsSet order.now (means ops.old set) }
{
    let derived = compile(alloc, task, order, ops)?;
    let relation = relation(alloc, task, order, ops, &derived, 0)?;
    image(ops, &relation, set)
}

/// The preimage of the set by the operator.
fn preimage_of(
    alloc: Global,
    task: &Task,
    order: &Order,
    ops: &mut Ops,
    set: Id,
) -> Result<Id, Memory>
    requires order { IsOrderOf task.now order.now }
    requires op { 0 < length task.now.operators }
    requires set { set < length ops.old }
    requires states { IsSet order.now (means ops.old set) }
{
    let derived = compile(alloc, task, order, ops)?;
    let relation = relation(alloc, task, order, ops, &derived, 0)?;
    preimage(ops, &relation, set)
}

fn check_touched(
    rt: &impl Abort,
    alloc: Global,
    task: &Task,
    order: &Order,
    ops: &mut Ops,
    touched: &[u32],
) -> Result<(), Fail>
    requires order { IsOrderOf task.now order.now }
    requires op { 0 < length task.now.operators }
{
    let derived = compile(alloc, task, order, ops)?;
    let relation = relation(alloc, task, order, ops, &derived, 0)?;
    assert_eq!(rt; relation.touched.as_slice(), touched);
    Ok(())
}

fn check_image(
    rt: &impl Abort,
    alloc: Global,
    task: &Task,
    order: &Order,
    ops: &mut Ops,
    row: &Row,
) -> Result<(), Fail>
    requires order { IsOrderOf task.now order.now }
    requires op { 0 < length task.now.operators }
{
    let from = states(rt, alloc, order, ops, row.from)?;
    let found = image_of(alloc, task, order, ops, from)?;
    assert_eq!(rt; found, state(rt, alloc, order, ops, row.to)?);
    Ok(())
}

fn check_preimage(
    rt: &impl Abort,
    alloc: Global,
    task: &Task,
    order: &Order,
    ops: &mut Ops,
    row: &Row,
) -> Result<(), Fail>
    requires order { IsOrderOf task.now order.now }
    requires op { 0 < length task.now.operators }
{
    let to = state(rt, alloc, order, ops, row.to)?;
    let found = preimage_of(alloc, task, order, ops, to)?;
    assert_eq!(rt; found, states(rt, alloc, order, ops, row.back)?);
    Ok(())
}

fn check_row(
    rt: &impl Abort,
    alloc: Global,
    task: &Task,
    order: &Order,
    ops: &mut Ops,
    row: &Row,
) -> Result<(), Fail>
    requires order { IsOrderOf task.now order.now }
    requires op { 0 < length task.now.operators }
{
    check_touched(rt, alloc, task, order, ops, row.touched)?;
    check_image(rt, alloc, task, order, ops, row)?;
    check_preimage(rt, alloc, task, order, ops, row)
}

fn check_order(
    rt: &impl Abort,
    alloc: Global,
    task: &Task,
    order: &Order,
    row: &Row,
) -> Result<(), Fail>
    requires order { IsOrderOf task.now order.now }
    requires op { 0 < length task.now.operators }
{
    let mut ops = no_diagrams(alloc)?;
    check_row(rt, alloc, task, order, &mut ops, row)
}

fn check_task(rt: &impl Abort, alloc: Global, task: &Task, row: &Row) -> Result<(), Fail> {
    assert!(rt; 0 < task.operators());
    let order = Order::of(alloc, task)?;
    check_order(rt, alloc, task, &order, row)
}

fn check(rt: &impl Abort, alloc: Global, row: &Row) -> Result<(), Fail> {
    let task = task_of(rt, alloc, &row.draft)?;
    check_task(rt, alloc, &task, row)
}

/// The first operator of the line leads from the first value to the second, and applies nowhere else.
const FIRST: Row = Row {
    draft: LINE,
    touched: &[0, 1],
    from: (&[0], &[1]),
    to: &[1],
    back: (&[0], &[0]),
};

/// The operator exchanges two variables.
const EXCHANGE: Row = Row {
    draft: Draft {
        metric: 0,
        variables: &[BASE, BASE],
        initial: &[1, 0],
        goal: &[(0, 1)],
        operators: &[OperatorDraft {
            name: b"",
            effects: &[
                EffectDraft {
                    conds: &[(1, 0)],
                    var: 0,
                    pre: None,
                    post: 0,
                },
                EffectDraft {
                    conds: &[(1, 1)],
                    var: 0,
                    pre: None,
                    post: 1,
                },
                EffectDraft {
                    conds: &[(0, 0)],
                    var: 1,
                    pre: None,
                    post: 0,
                },
                EffectDraft {
                    conds: &[(0, 1)],
                    var: 1,
                    pre: None,
                    post: 1,
                },
            ],
            cost: 1,
        }],
        rules: &[],
    },
    touched: &[0, 1],
    from: (&[0, 1], &[0, 1]),
    to: &[1, 0],
    back: (&[0, 1], &[0, 1]),
};

/// The operator changes one variable twice.
const ON_THEN_OFF: Row = Row {
    draft: Draft {
        metric: 0,
        variables: &[BASE],
        initial: &[0],
        goal: &[(0, 1)],
        operators: &[OperatorDraft {
            name: b"",
            effects: &[
                EffectDraft {
                    conds: &[],
                    var: 0,
                    pre: None,
                    post: 1,
                },
                EffectDraft {
                    conds: &[],
                    var: 0,
                    pre: None,
                    post: 0,
                },
            ],
            cost: 1,
        }],
        rules: &[],
    },
    touched: &[0],
    from: (&[0], &[1]),
    to: &[0],
    back: (&[0], &[1]),
};

#[test]
fn steps_of_operators(rt: HostRuntime) -> Result<(), Fail> {
    check(&rt, rt.alloc(), &FIRST)?;
    check(&rt, rt.alloc(), &EXCHANGE)?;
    check(&rt, rt.alloc(), &ON_THEN_OFF)
}
