//! The relation of each operator.

ghost use Rattle.std.specs.Prelude.{IfOk};
ghost use Rattle.bdd_table.specs.Diagram.{Keeps, IsReduced};
ghost use Rattle.var_order.specs.Layout.{IsOrderOf};
ghost use Rattle.axiom_layers.specs.Roots.{AreRoots};
ghost use Rattle.trans_merge.specs.Gathered.{AreSingle};

use axiom_layers::Derived;
use bdd_ops::Ops;
use bdd_table::TableFault;
use std::alloc::Global;
use symk_task::Task;
use transitions::{Relation, relation};
use var_order::Order;

/// The relation of each operator, in the order of the task.
pub fn single_relations(
    alloc: Global,
    task: &Task,
    order: &Order,
    ops: &mut Ops,
    derived: &Derived,
) -> Result<Vec<Relation>, TableFault>
    requires order { IsOrderOf task.now order.now }
    requires roots { AreRoots task.now order.now ops.old derived.now }
    ensures single { IfOk result (λ rs. AreSingle task.now order.now ops.new rs.items) }
    ensures kept { Keeps ops.old ops.new }
    ensures reduced { IsReduced ops.new }
{
    let _ = ops.table();
    let mut single = Vec::new(alloc);
    'operators: for op in 0..task.operators() {
        let one = relation(alloc, task, order, ops, derived, op)?;
        single.push(one)?;
    }
    Ok(single)
}
