//! The states in which an operator applies.

ghost use Rattle.std.specs.Prelude.{◌≡◌, ◌<◌, ◌↔◌, true, length, All, IfOk};
ghost use Rattle.bdd_table.specs.Diagram.{means, Keeps, IsReduced};
ghost use Rattle.symk_task.specs.Fits.{FitsEffect, FitsOperator};
ghost use Rattle.symk_task.specs.Steps.{Allows};
ghost use Rattle.var_order.specs.Layout.{IsOrderOf};
ghost use Rattle.axiom_layers.specs.Roots.{AreRoots, EachState, IsTrueWhere};
ghost use Rattle.transitions.specs.NextValues.{AppliesIn};

use axiom_layers::Derived;
use bdd_ops::Ops;
use bdd_table::{Id, TableFault};
use symk_task::{Effect, Fact, Operator, Task};
use var_order::Order;

/// The states of a set in which the effect asks for no other value than its variable's.
fn allowed(
    task: &Task,
    order: &Order,
    ops: &mut Ops,
    derived: &Derived,
    effect: &Effect,
    set: Id,
) -> Result<Id, TableFault>
    requires order { IsOrderOf task.now order.now }
    requires roots { AreRoots task.now order.now ops.old derived.now }
    requires effect { FitsEffect task.now.variables effect.now }
    requires set { set < length ops.old }
    ensures known { IfOk result (λ id. id < length ops.new) }
    ensures meaning { IfOk result (λ id. EachState task.now order.now (λ s b.
        (means ops.new id b ≡ true) ↔ ((means ops.old set b ≡ true) × Allows task.now s effect.now))) }
    ensures kept { Keeps ops.old ops.new }
    ensures reduced { IsReduced ops.new }
{
    let _ = ops.table();
    match effect.pre {
        Some(val) => {
            let var = effect.var;
            let pre = derived.fact_set(task, order, ops, Fact { var, val })?;
            ops.conj(set, pre)
        }
        None => Ok(set),
    }
}

/// The states of a set in which no effect asks for another value than its variable's.
fn all_allowed(
    task: &Task,
    order: &Order,
    ops: &mut Ops,
    derived: &Derived,
    effects: &[Effect],
    set: Id,
) -> Result<Id, TableFault>
    requires order { IsOrderOf task.now order.now }
    requires roots { AreRoots task.now order.now ops.old derived.now }
    requires effects { All (FitsEffect task.now.variables) effects.now }
    requires set { set < length ops.old }
    ensures known { IfOk result (λ id. id < length ops.new) }
    ensures meaning { IfOk result (λ id. EachState task.now order.now (λ s b.
        (means ops.new id b ≡ true) ↔ ((means ops.old set b ≡ true) × All (Allows task.now s) effects.now))) }
    ensures kept { Keeps ops.old ops.new }
    ensures reduced { IsReduced ops.new }
{
    let _ = ops.table();
    let mut left = set;
    for effect in effects {
        left = allowed(task, order, ops, derived, effect, left)?;
    }
    Ok(left)
}

/// Precondition as a set: the states in which the operator applies.
pub fn applies_set(
    task: &Task,
    order: &Order,
    ops: &mut Ops,
    derived: &Derived,
    operator: &Operator,
) -> Result<Id, TableFault>
    requires order { IsOrderOf task.now order.now }
    requires roots { AreRoots task.now order.now ops.old derived.now }
    requires operator { FitsOperator task.now.variables operator.now }
    ensures known { IfOk result (λ id. id < length ops.new) }
    ensures meaning { IfOk result (IsTrueWhere task.now order.now ops.new (λ s. AppliesIn task.now s operator.now)) }
    ensures kept { Keeps ops.old ops.new }
    ensures reduced { IsReduced ops.new }
{
    let prevail = derived.facts_set(task, order, ops, operator.prevail.as_slice())?;
    all_allowed(
        task,
        order,
        ops,
        derived,
        operator.effects.as_slice(),
        prevail,
    )
}
