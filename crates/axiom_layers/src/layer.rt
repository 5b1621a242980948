//! The closing of one layer, in all states at once.

ghost use Rattle.std.specs.Prelude.{◌≡◌, ◌≢◌, ◌<◌, ℕ, List, length, slice_index, slice_set, All, IfOk, IsFalse};
ghost use Rattle.bdd_table.specs.Diagram.{means, Keeps, IsReduced};
ghost use Rattle.symk_task.specs.Fits.{Fits, FitsRule};
ghost use Rattle.task_run.specs.Counted.{IsCounting};
ghost use Rattle.var_order.specs.Layout.{IsOrderOf};
ghost use Rattle.bdd_sets.specs.Sets.{IsSetOfStates};
ghost use Rattle.axiom_layers.specs.Roots.{AreSets, EachState};
ghost use Rattle.axiom_layers.specs.Raising.{RuleTurn, PassTurn, Closes, AreOfLayer, values_of};

use crate::conditions::values_set;
use bdd_ops::Ops;
use bdd_table::{Id, TableFault};
use symk_task::{Rule, TaskParts};
use task_run::Counting;
use var_order::Order;

/// The set of the rule's variable, with the states in which the rule's conditions have their values.
fn widened(
    parts: &TaskParts,
    order: &Order,
    ops: &mut Ops,
    roots: &[Id],
    rule: &Rule,
) -> Result<Id, TableFault>
    requires fits { Fits parts.now }
    requires order { IsOrderOf parts.now order.now }
    requires roots { AreSets parts.now order.now ops.old roots.now }
    requires rule { FitsRule parts.now rule.now }
    requires counts { rule.now.new ≢ slice_index parts.now.initial rule.now.var }
    ensures known { IfOk result (λ root. root < length ops.new) }
    ensures of_states { IfOk result (IsSetOfStates order.now ops.new) }
    ensures turn { IfOk result (λ root. EachState parts.now order.now (λ s b.
        RuleTurn parts.now rule.now (values_of parts.now ops.old roots.now s b)
        (values_of parts.now ops.new (slice_set roots.now rule.now.var root) s b))) }
    ensures kept { Keeps ops.old ops.new }
    ensures reduced { IsReduced ops.new }
{
    let _ = ops.table();
    let conds = values_set(parts, order, ops, roots, rule.conds.as_slice())?;
    ops.disj(roots[rule.var as usize], conds)
}

/// Adds the states in which the rule's conditions have their values to the set of its variable. Whether the set
/// changed.
fn add_rule(
    parts: &TaskParts,
    order: &Order,
    ops: &mut Ops,
    roots: &mut Vec<Id>,
    rule: &Rule,
) -> Result<bool, TableFault>
    requires fits { Fits parts.now }
    requires order { IsOrderOf parts.now order.now }
    requires roots { AreSets parts.now order.now ops.old roots.old.items }
    requires rule { FitsRule parts.now rule.now }
    requires counts { rule.now.new ≢ slice_index parts.now.initial rule.now.var }
    ensures turn { IfOk result (λ _. EachState parts.now order.now (λ s b.
        RuleTurn parts.now rule.now (values_of parts.now ops.old roots.old.items s b)
        (values_of parts.now ops.new roots.new.items s b))) }
    ensures same { IfOk result (λ changed. IsFalse changed → roots.new.items ≡ roots.old.items) }
    ensures roots { AreSets parts.now order.now ops.new roots.new.items }
    ensures kept { Keeps ops.old ops.new }
    ensures reduced { IsReduced ops.new }
{
    let _ = ops.table();
    let var = rule.var as usize;
    let root = widened(parts, order, ops, roots, rule)?;
    if root == roots[var] {
        return Ok(false);
    }
    roots[var] = root;
    Ok(true)
}

/// One pass over the rules. Whether any set changed.
fn pass(
    parts: &TaskParts,
    order: &Order,
    ops: &mut Ops,
    roots: &mut Vec<Id>,
    rules: &[Counting],
) -> Result<bool, TableFault>
    requires fits { Fits parts.now }
    requires order { IsOrderOf parts.now order.now }
    requires roots { AreSets parts.now order.now ops.old roots.old.items }
    requires rules { All (IsCounting parts.now) rules.now }
    ensures turn { IfOk result (λ _. (layer : ℕ) → AreOfLayer parts.now layer rules.now → EachState parts.now
        order.now (λ s b.
        PassTurn parts.now layer rules.now (length rules.now) (values_of parts.now ops.old roots.old.items s b)
        (values_of parts.now ops.new roots.new.items s b))) }
    ensures same { IfOk result (λ changed. IsFalse changed → roots.new.items ≡ roots.old.items) }
    ensures roots { AreSets parts.now order.now ops.new roots.new.items }
    ensures kept { Keeps ops.old ops.new }
    ensures reduced { IsReduced ops.new }
{
    let _ = ops.table();
    let mut changed = false;
    for counting in rules {
        let rule = &parts.rules.as_slice()[counting.rule as usize];
        if add_rule(parts, order, ops, roots, rule)? {
            changed = true;
        }
    }
    Ok(changed)
}

/// Passes over the rules of a layer until no set changes. In a state in which the layer isn't closed yet, each pass
/// raises a variable, so as many passes as variables are enough.
pub(crate) fn close_layer(
    parts: &TaskParts,
    order: &Order,
    ops: &mut Ops,
    roots: &mut Vec<Id>,
    rules: &[Counting],
) -> Result<(), TableFault>
    requires fits { Fits parts.now }
    requires order { IsOrderOf parts.now order.now }
    requires roots { AreSets parts.now order.now ops.old roots.old.items }
    requires rules { All (IsCounting parts.now) rules.now }
    ensures closes { IfOk result (λ _. (layer : ℕ) → AreOfLayer parts.now layer rules.now
        → EachState parts.now order.now (λ s b.
        Closes parts.now layer (values_of parts.now ops.old roots.old.items s b)
        (values_of parts.now ops.new roots.new.items s b))) }
    ensures roots { AreSets parts.now order.now ops.new roots.new.items }
    ensures kept { Keeps ops.old ops.new }
    ensures reduced { IsReduced ops.new }
{
    let _ = ops.table();
    'passes: for _ in 0..parts.variables.len() {
        let changed = pass(parts, order, ops, roots, rules)?;
        if !changed {
            return Ok(());
        }
    }
    Ok(())
}
