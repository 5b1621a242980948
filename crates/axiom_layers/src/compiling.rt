//! The derived variables of a task, layer by layer.

ghost use Rattle.std.specs.Prelude.{◌≡◌, ◌<◌, ◌≤◌, ℕ, List, length, slice_index_or, replicate, All, IfOk, IfSome};
ghost use Rattle.bdd_table.specs.Diagram.{Keeps, IsReduced};
ghost use Rattle.task_run.specs.Counted.{IsLayer};
ghost use Rattle.var_order.specs.Layout.{IsOrderOf};
ghost use Rattle.axiom_layers.specs.Roots.{AreRoots};

use crate::derived::Derived;
use crate::layer::close_layer;
use bdd_ops::Ops;
use bdd_table::{FALSE, Id, TableFault};
use std::alloc::Global;
use symk_task::{Memory, Task, Variable};
use task_run::{Counting, Rules};
use var_order::Order;

/// A number above each layer.
fn layer_count(variables: &[Variable]) -> u32
    requires { All (λ v. IfSome v.layer (λ layer. layer < 65536)) variables.now }
    ensures { All (λ v. IfSome v.layer (λ layer. layer < result)) variables.now }
{
    let mut count = 0;
    for variable in variables {
        if let Some(layer) = variable.layer {
            if layer >= count {
                count = layer + 1;
            }
        }
    }
    count
}

/// Where the rules of the layer end that begin at the place.
fn layer_end(rules: &[Counting], layer: u32, from: usize) -> usize
    requires { from ≤ length rules.now }
    ensures { IsLayer rules.now layer from result }
{
    let mut end = from;
    'same: while end < rules.len() && rules[end].layer == layer {
        end += 1;
    }
    end
}

/// The set of no states, so many times.
fn no_states(alloc: Global, count: usize) -> Result<Vec<Id>, Memory>
    ensures { IfOk result (λ roots. roots.items ≡ replicate count 0) }
{
    Ok(vec![in alloc; FALSE; count]?)
}

/// For each derived variable the states in which it is raised.
///
/// The rules of one layer are added to the sets of their variables until nothing changes, in any order, with the sets
/// of the lower layers fixed; a rule to the default value has no effect. Stratified rules for derived variables and
/// their fixpoint are those of Thiébaux, Hoffmann and Nebel, "In Defense of PDDL Axioms" (2005). Diagrams of them,
/// with each derived variable put in terms of base variables alone, are those of Speck, Geißer, Mattmüller and
/// Torralba, "Symbolic Planning with Axioms" (2019).
pub fn compile(
    alloc: Global,
    task: &Task,
    order: &Order,
    ops: &mut Ops,
) -> Result<Derived, TableFault>
    requires { IsOrderOf task.now order.now }
    ensures roots { IfOk result (AreRoots task.now order.now ops.new) }
    ensures kept { Keeps ops.old ops.new }
    ensures reduced { IsReduced ops.new }
{
    let _ = ops.table();
    let parts = task.parts();
    let rules = Rules::of(alloc, task)?;
    let counting = rules.as_slice();
    let mut roots = no_states(alloc, parts.variables.len())?;
    let mut from = 0;
    'layers: for layer in 0..layer_count(parts.variables.as_slice()) {
        let end = layer_end(counting, layer, from);
        close_layer(parts, order, ops, &mut roots, &counting[from..end])?;
        from = end;
    }
    Ok(Derived::of(roots))
}
