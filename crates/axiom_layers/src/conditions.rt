//! The states in which conditions have their values, where a set of states stands for each derived variable.

ghost use Rattle.std.specs.Prelude.{◌≡◌, ◌<◌, List, length, slice_index, All, IfOk};
ghost use Rattle.bdd_table.specs.Diagram.{means, Keeps, IsReduced};
ghost use Rattle.symk_task.specs.Fits.{Fits, InRange};
ghost use Rattle.task_run.specs.Values.{HasValue};
ghost use Rattle.var_order.specs.Layout.{IsOrderOf};
ghost use Rattle.bdd_sets.specs.Sets.{IsSetOfStates};
ghost use Rattle.axiom_layers.specs.Roots.{AreSets};
ghost use Rattle.axiom_layers.specs.Raising.{IsTrueExactlyWhere};

use bdd_ops::Ops;
use bdd_table::{Id, TRUE, TableFault};
use symk_task::{Fact, TaskParts};
use var_order::Order;

/// The states in which the fact's variable has its value.
pub(crate) fn value_set(
    parts: &TaskParts,
    order: &Order,
    ops: &mut Ops,
    roots: &[Id],
    fact: Fact,
) -> Result<Id, TableFault>
    requires fits { Fits parts.now }
    requires order { IsOrderOf parts.now order.now }
    requires roots { AreSets parts.now order.now ops.old roots.now }
    requires fact { InRange parts.now.variables fact }
    ensures known { IfOk result (λ id. id < length ops.new) }
    ensures of_states { IfOk result (IsSetOfStates order.now ops.new) }
    ensures meaning { IfOk result (IsTrueExactlyWhere parts.now order.now ops.new roots.now
        (λ values. HasValue values fact)) }
    ensures kept { Keeps ops.old ops.new }
    ensures reduced { IsReduced ops.new }
{
    let _ = ops.table();
    let var = fact.var as usize;
    if parts.variables.as_slice()[var].layer.is_none() {
        bdd_sets::fact_set(ops, order, fact)
    } else if fact.val == parts.initial.as_slice()[var] {
        ops.neg(roots[var])
    } else {
        Ok(roots[var])
    }
}

/// The states in which the variables of all the facts have their values.
pub(crate) fn values_set(
    parts: &TaskParts,
    order: &Order,
    ops: &mut Ops,
    roots: &[Id],
    facts: &[Fact],
) -> Result<Id, TableFault>
    requires fits { Fits parts.now }
    requires order { IsOrderOf parts.now order.now }
    requires roots { AreSets parts.now order.now ops.old roots.now }
    requires facts { All (InRange parts.now.variables) facts.now }
    ensures known { IfOk result (λ id. id < length ops.new) }
    ensures of_states { IfOk result (IsSetOfStates order.now ops.new) }
    ensures meaning { IfOk result (IsTrueExactlyWhere parts.now order.now ops.new roots.now
        (λ values. All (HasValue values)
        facts.now)) }
    ensures kept { Keeps ops.old ops.new }
    ensures reduced { IsReduced ops.new }
{
    let _ = ops.table();
    let mut all = TRUE;
    for fact in facts {
        let set = value_set(parts, order, ops, roots, *fact)?;
        all = ops.conj(all, set)?;
    }
    Ok(all)
}
