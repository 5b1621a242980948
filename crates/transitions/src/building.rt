//! The relation of an operator.

ghost use Rattle.std.specs.Prelude.{◌≡◌, ◌<◌, ◌↔◌, ℕ, true, List, length, IfOk};
ghost use Rattle.bdd_table.specs.Diagram.{Bits, means, Keeps, IsReduced};
ghost use Rattle.symk_task.specs.Fits.{FitsOperator};
ghost use Rattle.symk_task.specs.Steps.{Step};
ghost use Rattle.var_order.specs.Layout.{IsOrderOf};
ghost use Rattle.axiom_layers.specs.Roots.{AreRoots};
ghost use Rattle.transitions.specs.Ready.{IsReadyRelation};
ghost use Rattle.transitions.specs.Relations.{Relates};
ghost use Rattle.transitions.specs.Touched.{touched_places, effects_of};
ghost use Rattle.transitions.specs.NextValues.{IsStepBy};

use crate::conditions::applies_set;
use crate::effects::next_values;
use crate::relations::Relation;
use crate::touched::touched_places;
use axiom_layers::Derived;
use bdd_ops::Ops;
use bdd_sets::valid_set;
use bdd_table::{Id, TableFault};
use std::alloc::Global;
use symk_task::{Operator, Task};
use var_order::Order;

/// The diagram of the operator's steps.
fn steps_of(
    task: &Task,
    order: &Order,
    ops: &mut Ops,
    derived: &Derived,
    operator: &Operator,
) -> Result<Id, TableFault>
    requires order { IsOrderOf task.now order.now }
    requires roots { AreRoots task.now order.now ops.old derived.now }
    requires operator { FitsOperator task.now.variables operator.now }
    ensures known { IfOk result (λ id. id < length ops.new) }
    ensures meaning { IfOk result (λ id. (b : Bits) → (means ops.new id b ≡ true) ↔ IsStepBy task.now
        order.now operator.now b) }
    ensures kept { Keeps ops.old ops.new }
    ensures reduced { IsReduced ops.new }
{
    let valid = valid_set(ops, order)?;
    let applies = applies_set(task, order, ops, derived, operator)?;
    let from = ops.conj(valid, applies)?;
    let next = next_values(task, order, ops, derived, operator.effects.as_slice())?;
    ops.conj(from, next)
}

/// Transition relation of an operator, its steps: over the bits of the states in which it applies, and the next bits
/// of the variables that its effects are on. All conditions see the state before the step, and of two effects on one
/// variable the later one stands. The operator is one of the task's.
pub fn relation(
    alloc: Global,
    task: &Task,
    order: &Order,
    ops: &mut Ops,
    derived: &Derived,
    op: u32,
) -> Result<Relation, TableFault>
    requires order { IsOrderOf task.now order.now }
    requires roots { AreRoots task.now order.now ops.old derived.now }
    requires op { op < length task.now.operators }
    ensures known { IfOk result (λ r. r.root < length ops.new) }
    ensures ready { IfOk result IsReadyRelation }
    ensures touched { IfOk result (λ r. r.touched.items ≡ touched_places order.now (effects_of task.now op)) }
    ensures relates { IfOk result (λ r. Relates order.now r.touched.items (λ s t. Step task.now s op t)
        (means ops.new r.root)) }
    ensures kept { Keeps ops.old ops.new }
    ensures reduced { IsReduced ops.new }
{
    let operator = &task.parts().operators.as_slice()[op as usize];
    let root = steps_of(task, order, ops, derived, operator)?;
    let touched = touched_places(alloc, order, operator.effects.as_slice())?;
    Ok(Relation::of(alloc, root, touched)?)
}
