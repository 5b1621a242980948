//! Worked rows of axioms as sets.

ghost use Rattle.var_order.specs.Layout.{IsOrderOf};

use axiom_layers::{Derived, compile};
use bdd_ops::Ops;
use bdd_table::{Id, Table};
use small_tasks::{
    BASE, DERIVED, Draft, FOURTH_WHERE_NOT_THIRD, NEXT, SECOND_TO_0, SECOND_WHERE_FIRST,
    THIRD_WHERE_SECOND, drafted,
};
use std::alloc::Global;
use std::process::Abort;
use std::test::Fail;
use symk_task::{Memory, Task};
use var_order::Order;

/// Variable 1 is raised where the base variable 0 is 1, variable 2 where variable 1 is, by a rule that comes first, and
/// variable 3, of the next layer, where variable 2 is not.
const TWO_LAYERS: Draft = Draft {
    metric: 0,
    variables: &[BASE, DERIVED, DERIVED, NEXT],
    initial: &[0, 0, 0, 0],
    goal: &[(2, 1), (3, 0)],
    operators: &[],
    rules: &[
        THIRD_WHERE_SECOND,
        SECOND_WHERE_FIRST,
        FOURTH_WHERE_NOT_THIRD,
    ],
};

/// A rule to the default value, which has no effect.
const DEFAULT_RULE: Draft = Draft {
    metric: 0,
    variables: &[BASE, DERIVED],
    initial: &[0, 0],
    goal: &[(1, 1)],
    operators: &[],
    rules: &[SECOND_WHERE_FIRST, SECOND_TO_0],
};

/// What the tests look at.
#[derive(Drop)]
struct Outcome {
    derived: Derived,
    goal: Id,
    positive: Id,
    negative: Id,
}

/// The roots of the task, the set of its goal and the literals of its first bit.
fn seen(alloc: Global, task: &Task, order: &Order, ops: &mut Ops) -> Result<Outcome, Memory>
    requires { IsOrderOf task.now order.now }
{
    let positive = ops.literal(0, true)?;
    let negative = ops.literal(0, false)?;
    let derived = compile(alloc, task, order, ops)?;
    let goal = derived.facts_set(task, order, ops, task.parts().goal.as_slice())?;
    Ok(Outcome {
        derived,
        goal,
        positive,
        negative,
    })
}

fn ordered(alloc: Global, task: &Task, order: &Order) -> Result<Outcome, Memory>
    requires { IsOrderOf task.now order.now }
{
    let mut ops = Ops::new(Table::new(alloc)?, 100)?;
    seen(alloc, task, order, &mut ops)
}

fn compiled(alloc: Global, task: &Task) -> Result<Outcome, Memory> {
    let order = Order::of(alloc, task)?;
    ordered(alloc, task, &order)
}

fn drawn_up(rt: &impl Abort, alloc: Global, draft: &Draft<'_>) -> Result<Outcome, Memory> {
    let task = drafted(alloc, draft)?.expect(rt, "the draft fits");
    compiled(alloc, &task)
}

fn check_two_layers(rt: &impl Abort, two: &mut Outcome) {
    assert!(rt; two.derived.roots().len() > 3);
    assert_eq!(rt; two.derived.root(1), two.positive);
    assert_eq!(rt; two.derived.root(2), two.positive);
    assert_eq!(rt; two.derived.root(3), two.negative);
    assert_eq!(rt; two.goal, two.positive);
    two.derived.set_root(2, two.negative);
    assert_eq!(rt; two.derived.root(1), two.positive);
}

fn check_default(rt: &impl Abort, alloc: Global) -> Result<(), Memory> {
    let default = drawn_up(rt, alloc, &DEFAULT_RULE)?;
    assert_eq!(rt; default.goal, default.positive);
    Ok(())
}

#[test]
fn roots(rt: HostRuntime) -> Result<(), Fail> {
    let mut two = drawn_up(&rt, rt.alloc(), &TWO_LAYERS)?;
    check_two_layers(&rt, &mut two);
    check_default(&rt, rt.alloc())?;
    Ok(())
}
