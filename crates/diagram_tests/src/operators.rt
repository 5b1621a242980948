//! Worked rows: a variable of three values, and operators round it. Two of cost 1 lead from the first value to the
//! second and from there to the third, and one of cost 2 leads back to the first.

ghost use Rattle.std.specs.Prelude.{◌≡◌, ◌<◌, length, IfOk, OnOk};
ghost use Rattle.bdd_table.specs.Diagram.{means, Keeps};
ghost use Rattle.var_order.specs.Layout.{IsOrderOf};
ghost use Rattle.transitions.specs.Relations.{IsSet};
ghost use Rattle.trans_merge.specs.Relations.{AreRelationsOf};

use crate::states::{no_diagrams, states, task_of};
use axiom_layers::compile;
use bdd_ops::Ops;
use bdd_table::{FALSE, Id, TableFault};
use small_tasks::{Draft, EffectDraft, FIRST_1_TO_2, ON, OperatorDraft, THREE};
use std::alloc::Global;
use std::process::Abort;
use std::test::Fail;
use symk_task::{Memory, Task};
use trans_merge::OperatorRelations;
use var_order::Order;

/// The operators of cost 1 lead to the next value, and that of cost 2 from the last to the first.
const RING: Draft = Draft {
    metric: 1,
    variables: &[THREE],
    initial: &[0],
    goal: &[(0, 2)],
    operators: &[
        ON,
        OperatorDraft {
            name: b"",
            effects: &[FIRST_1_TO_2],
            cost: 1,
        },
        OperatorDraft {
            name: b"",
            effects: &[EffectDraft {
                conds: &[],
                var: 0,
                pre: Some(2),
                post: 0,
            }],
            cost: 2,
        },
    ],
    rules: &[],
};

/// The relations of the task, joined up to so many nodes.
fn relations_of(
    alloc: Global,
    task: &Task,
    order: &Order,
    ops: &mut Ops,
    bound: u64,
) -> Result<OperatorRelations, TableFault>
    requires { IsOrderOf task.now order.now }
    ensures { IfOk result (AreRelationsOf task.now order.now ops.new) }
{
    let derived = compile(alloc, task, order, ops)?;
    OperatorRelations::of(alloc, task, order, ops, &derived, bound)
}

/// What can be asked of a set: its image or preimage, by an operator or by a cost.
enum Question {
    Image(u32),
    Preimage(u32),
    ImageByCost(u64),
    PreimageByCost(u64),
}

/// A question of the states with two values, and the two values of the states that answer it, if there are any.
struct Row {
    question: Question,
    set: (u32, u32),
    answer: Option<(u32, u32)>,
}

const ROWS: [Row; 5] = [
    Row {
        question: Question::Image(0),
        set: (0, 0),
        answer: Some((1, 1)),
    },
    Row {
        question: Question::Preimage(0),
        set: (1, 1),
        answer: Some((0, 0)),
    },
    Row {
        question: Question::ImageByCost(1),
        set: (0, 1),
        answer: Some((1, 2)),
    },
    Row {
        question: Question::PreimageByCost(2),
        set: (0, 0),
        answer: Some((2, 2)),
    },
    Row {
        question: Question::ImageByCost(7),
        set: (0, 1),
        answer: None,
    },
];

fn ask(
    rt: &impl Abort,
    task: &Task,
    order: &Order,
    ops: &mut Ops,
    relations: &OperatorRelations,
    question: &Question,
    set: Id,
) -> Result<Id, TableFault>
    requires relations { AreRelationsOf task.now order.now ops.old relations.now }
    requires set { set < length ops.old }
    requires states { IsSet order.now (means ops.old set) }
    ensures kept { Keeps ops.old ops.new }
{
    match question {
        Question::Image(op) => {
            assert!(rt; *op < task.operators());
            relations.image_op(ops, *op, set)
        }
        Question::Preimage(op) => {
            assert!(rt; *op < task.operators());
            relations.pre_op(ops, *op, set)
        }
        Question::ImageByCost(cost) => relations.image_cost(ops, *cost, set),
        Question::PreimageByCost(cost) => relations.pre_cost(ops, *cost, set),
    }
}

fn expected(
    rt: &impl Abort,
    alloc: Global,
    order: &Order,
    ops: &mut Ops,
    answer: Option<(u32, u32)>,
) -> Result<Id, Memory>
    ensures kept { Keeps ops.old ops.new }
{
    match answer {
        Some(values) => states(rt, alloc, order, ops, (&[values.0], &[values.1])),
        None => Ok(FALSE),
    }
}

fn check_row(
    rt: &impl Abort,
    alloc: Global,
    task: &Task,
    order: &Order,
    ops: &mut Ops,
    relations: &OperatorRelations,
    row: &Row,
) -> Result<(), Fail>
    requires { AreRelationsOf task.now order.now ops.old relations.now }
    ensures { Keeps ops.old ops.new }
{
    let set = states(rt, alloc, order, ops, (&[row.set.0], &[row.set.1]))?;
    let found = ask(rt, task, order, ops, relations, &row.question, set)?;
    assert_eq!(rt; found, expected(rt, alloc, order, ops, row.answer)?);
    Ok(())
}

fn check_rows(
    rt: &impl Abort,
    alloc: Global,
    task: &Task,
    order: &Order,
    ops: &mut Ops,
    relations: &OperatorRelations,
) -> Result<(), Fail>
    requires { AreRelationsOf task.now order.now ops.old relations.now }
    ensures { OnOk result (AreRelationsOf task.now order.now ops.new relations.now) }
{
    for row in &ROWS {
        check_row(rt, alloc, task, order, ops, relations, row)?;
    }
    Ok(())
}

/// Throws away the nodes that the relations don't need.
fn collect(
    alloc: Global,
    task: &Task,
    order: &Order,
    ops: &mut Ops,
    relations: &mut OperatorRelations,
) -> Result<(), TableFault>
    requires { AreRelationsOf task.now order.now ops.old relations.old }
    ensures { OnOk result (AreRelationsOf task.now order.now ops.new relations.new) }
{
    let mut roots = Vec::new(alloc);
    relations.push_roots(&mut roots)?;
    ops.collect(&mut roots)?;
    relations.take_roots(&roots, 0);
    Ok(())
}

/// The relations answer alike before and after a collection.
fn check_answers(
    rt: &impl Abort,
    alloc: Global,
    task: &Task,
    order: &Order,
    ops: &mut Ops,
    relations: &mut OperatorRelations,
) -> Result<(), Fail>
    requires { AreRelationsOf task.now order.now ops.old relations.old }
{
    check_rows(rt, alloc, task, order, ops, relations)?;
    collect(alloc, task, order, ops, relations)?;
    check_rows(rt, alloc, task, order, ops, relations)
}

fn check_numbers(rt: &impl Abort, relations: &OperatorRelations, roots: usize) {
    assert_eq!(rt; relations.costs(), [1, 2].as_slice());
    assert_eq!(rt; relations.roots(), roots);
}

/// The relations, joined up to so many nodes, have so many roots.
fn check_relations(
    rt: &impl Abort,
    alloc: Global,
    task: &Task,
    order: &Order,
    ops: &mut Ops,
    row: (u64, usize),
) -> Result<(), Fail>
    requires { IsOrderOf task.now order.now }
{
    let (bound, roots) = row;
    let mut relations = relations_of(alloc, task, order, ops, bound)?;
    check_numbers(rt, &relations, roots);
    check_answers(rt, alloc, task, order, ops, &mut relations)
}

fn check_order(
    rt: &impl Abort,
    alloc: Global,
    task: &Task,
    order: &Order,
    row: (u64, usize),
) -> Result<(), Fail>
    requires { IsOrderOf task.now order.now }
{
    let mut ops = no_diagrams(alloc)?;
    check_relations(rt, alloc, task, order, &mut ops, row)
}

fn check_task(rt: &impl Abort, alloc: Global, task: &Task, row: (u64, usize)) -> Result<(), Fail> {
    let order = Order::of(alloc, task)?;
    check_order(rt, alloc, task, &order, row)
}

fn check(rt: &impl Abort, alloc: Global, row: (u64, usize)) -> Result<(), Fail> {
    let task = task_of(rt, alloc, &RING)?;
    check_task(rt, alloc, &task, row)
}

/// Three operators and one relation for each cost.
#[test]
fn one_relation_for_each_cost(rt: HostRuntime) -> Result<(), Fail> {
    check(&rt, rt.alloc(), (1000, 5))
}

/// Three operators, and each by itself once more.
#[test]
fn none_joined(rt: HostRuntime) -> Result<(), Fail> {
    check(&rt, rt.alloc(), (0, 6))
}
