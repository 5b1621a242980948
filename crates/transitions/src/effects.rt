//! The bits of the next state after the effects of an operator.

ghost use Rattle.std.specs.Prelude.{◌≡◌, ◌<◌, ◌≤◌, ◌+◌, ◌↔◌, ◌==◌, ℕ, true, List, length, All, IfOk, if◌then◌else◌};
ghost use Rattle.bdd_table.specs.Diagram.{Bits, means, Keeps, IsReduced};
ghost use Rattle.symk_task.specs.declared.parts.Effect.{Effect as EffectOf};
ghost use Rattle.symk_task.specs.Fits.{FitsEffect};
ghost use Rattle.symk_task.specs.Variables.{IsBase};
ghost use Rattle.var_order.specs.Layout.{IsOrderOf, level_at};
ghost use Rattle.var_order.specs.Codes.{number};
ghost use Rattle.axiom_layers.specs.Roots.{AreRoots, EachState};
ghost use Rattle.transitions.specs.NextValues.{agree, EffectTurn, IsNextValue, Arrives};

use axiom_layers::Derived;
use bdd_ops::Ops;
use bdd_sets::next_fact_set;
use bdd_table::{Id, TRUE, TableFault};
use symk_task::{Effect, Fact, Task};
use var_order::Order;

/// Frame axiom of a bit: where that of the next state at the place is that of the state.
pub fn same_bit(ops: &mut Ops, place: u32) -> Result<Id, TableFault>
    requires { place < 2147483647 }
    ensures known { IfOk result (λ id. id < length ops.new) }
    ensures meaning { IfOk result (λ id. (b : Bits) → means ops.new id b ≡ agree (b (level_at 0 place))
        (b (level_at 1 place))) }
    ensures kept { Keeps ops.old ops.new }
    ensures reduced { IsReduced ops.new }
{
    let now = ops.literal(2 * place, true)?;
    let next = ops.literal(2 * place + 1, true)?;
    let both = ops.conj(now, next)?;
    let either = ops.disj(now, next)?;
    let neither = ops.neg(either)?;
    ops.disj(both, neither)
}

/// Where the bits of the next state from the place on spell the number that those of the state spell.
fn stays(ops: &mut Ops, place: u32, width: u32) -> Result<Id, TableFault>
    requires { 0 < width → place + width < 2147483648 }
    ensures known { IfOk result (λ id. id < length ops.new) }
    ensures meaning { IfOk result (λ id. (b : Bits) → means ops.new id b ≡ (number b 1 place width == number b
        0 place width)) }
    ensures kept { Keeps ops.old ops.new }
    ensures reduced { IsReduced ops.new }
{
    let _ = ops.table();
    if width == 0 {
        return Ok(TRUE);
    }
    let rest = stays(ops, place + 1, width - 1)?;
    let first = same_bit(ops, place)?;
    ops.conj(first, rest)
}

/// What `yes` says where the condition holds, and what `no` says elsewhere.
fn choice(ops: &mut Ops, condition: Id, yes: Id, no: Id) -> Result<Id, TableFault>
    requires condition { condition < length ops.old }
    requires yes { yes < length ops.old }
    requires no { no < length ops.old }
    ensures known { IfOk result (λ id. id < length ops.new) }
    ensures meaning { IfOk result (λ id. (b : Bits) → means ops.new id b
        ≡ (if means ops.old condition b then means ops.old yes b else means ops.old no b)) }
    ensures kept { Keeps ops.old ops.new }
    ensures reduced { IsReduced ops.new }
{
    let chosen = ops.conj(condition, yes)?;
    let left = ops.minus(no, condition)?;
    ops.disj(chosen, left)
}

/// What the effects before this one ask of the next bits of the variable, with this one.
fn with_effect(
    task: &Task,
    order: &Order,
    ops: &mut Ops,
    derived: &Derived,
    effect: &Effect,
    var: u32,
    asked: Id,
) -> Result<Id, TableFault>
    requires order { IsOrderOf task.now order.now }
    requires roots { AreRoots task.now order.now ops.old derived.now }
    requires effect { FitsEffect task.now.variables effect.now }
    requires asked { asked < length ops.old }
    ensures known { IfOk result (λ id. id < length ops.new) }
    ensures turn { IfOk result (λ id. EachState task.now order.now (λ s b.
        EffectTurn task.now order.now effect.now var s b (means ops.old asked b) (means ops.new id b))) }
    ensures kept { Keeps ops.old ops.new }
    ensures reduced { IsReduced ops.new }
{
    let _ = ops.table();
    if effect.var != var {
        return Ok(asked);
    }
    let fires = derived.facts_set(task, order, ops, effect.conds.as_slice())?;
    let val = effect.post;
    let post = next_fact_set(ops, order, Fact { var, val })?;
    choice(ops, fires, post, asked)
}

/// Where the next bits of a base variable spell its value after the effects: that of the last that fires, or else its
/// own.
fn next_value(
    task: &Task,
    order: &Order,
    ops: &mut Ops,
    derived: &Derived,
    effects: &[Effect],
    var: u32,
) -> Result<Id, TableFault>
    requires order { IsOrderOf task.now order.now }
    requires roots { AreRoots task.now order.now ops.old derived.now }
    requires effects { All (FitsEffect task.now.variables) effects.now }
    requires var { IsBase task.now var }
    ensures known { IfOk result (λ id. id < length ops.new) }
    ensures meaning { IfOk result (λ id. EachState task.now order.now (λ s b.
        IsNextValue task.now order.now effects.now var s b (means ops.new id b))) }
    ensures kept { Keeps ops.old ops.new }
    ensures reduced { IsReduced ops.new }
{
    let _ = ops.table();
    let block = order.block_of(var);
    let mut asked = stays(ops, block.first, block.width)?;
    for effect in effects {
        asked = with_effect(task, order, ops, derived, effect, var, asked)?;
    }
    Ok(asked)
}

/// Where the next bits of each variable that an effect is on spell its value after the effects.
pub fn next_values(
    task: &Task,
    order: &Order,
    ops: &mut Ops,
    derived: &Derived,
    effects: &[Effect],
) -> Result<Id, TableFault>
    requires order { IsOrderOf task.now order.now }
    requires roots { AreRoots task.now order.now ops.old derived.now }
    requires effects { All (FitsEffect task.now.variables) effects.now }
    ensures known { IfOk result (λ id. id < length ops.new) }
    ensures meaning { IfOk result (λ id. EachState task.now order.now (λ s b. (means ops.new id b ≡ true)
        ↔ All (λ (effect : EffectOf). Arrives task.now order.now effects.now effect.var s b) effects.now)) }
    ensures kept { Keeps ops.old ops.new }
    ensures reduced { IsReduced ops.new }
{
    let _ = ops.table();
    let mut all = TRUE;
    for effect in effects {
        let value = next_value(task, order, ops, derived, effects, effect.var)?;
        all = ops.conj(all, value)?;
    }
    Ok(all)
}
