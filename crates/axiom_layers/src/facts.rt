//! The states in which facts hold.

ghost use Rattle.std.specs.Prelude.{◌≡◌, ◌<◌, length, All, IfOk};
ghost use Rattle.bdd_table.specs.Diagram.{Keeps, IsReduced};
ghost use Rattle.symk_task.specs.Fits.{InRange};
ghost use Rattle.symk_task.specs.Steps.{Holds};
ghost use Rattle.var_order.specs.Layout.{IsOrderOf};
ghost use Rattle.bdd_sets.specs.Sets.{IsSetOfStates};
ghost use Rattle.axiom_layers.specs.Roots.{AreRoots, IsTrueWhere};

use crate::conditions::{value_set, values_set};
use crate::derived::Derived;
use bdd_ops::Ops;
use bdd_table::{Id, TableFault};
use symk_task::{Fact, Task};
use var_order::Order;

impl Derived {
    /// The states in which the fact holds, of a base variable or of a derived one.
    pub fn fact_set(
        &self,
        task: &Task,
        order: &Order,
        ops: &mut Ops,
        fact: Fact,
    ) -> Result<Id, TableFault>
        requires order { IsOrderOf task.now order.now }
        requires roots { AreRoots task.now order.now ops.old self.now }
        requires fact { InRange task.now.variables fact }
        ensures known { IfOk result (λ id. id < length ops.new) }
        ensures of_states { IfOk result (IsSetOfStates order.now ops.new) }
        ensures meaning { IfOk result (IsTrueWhere task.now order.now ops.new (λ s. Holds task.now s fact)) }
        ensures kept { Keeps ops.old ops.new }
        ensures reduced { IsReduced ops.new }
    {
        value_set(task.parts(), order, ops, self.roots(), fact)
    }

    /// The states in which all the facts hold.
    pub fn facts_set(
        &self,
        task: &Task,
        order: &Order,
        ops: &mut Ops,
        facts: &[Fact],
    ) -> Result<Id, TableFault>
        requires order { IsOrderOf task.now order.now }
        requires roots { AreRoots task.now order.now ops.old self.now }
        requires facts { All (InRange task.now.variables) facts.now }
        ensures known { IfOk result (λ id. id < length ops.new) }
        ensures of_states { IfOk result (IsSetOfStates order.now ops.new) }
        ensures meaning { IfOk result (IsTrueWhere task.now order.now ops.new (λ s. All (Holds task.now s) facts.now)) }
        ensures kept { Keeps ops.old ops.new }
        ensures reduced { IsReduced ops.new }
    {
        values_set(task.parts(), order, ops, self.roots(), facts)
    }
}
