//! The sets of a fact, of all states and of one.

ghost use Rattle.std.specs.Prelude.{◌≡◌, ℕ, ◌<◌, ◌↔◌, ◌==◌, List, Bool, true, length, IfOk, IsSome};
ghost use Rattle.bdd_table.specs.Diagram.{Bits, means, Keeps, IsReduced};
ghost use Rattle.var_order.specs.Layout.{slot_of, block_of};
ghost use Rattle.var_order.specs.Codes.{coded_value, spelt_value, IsCode, IsStateOf};
ghost use Rattle.bdd_sets.specs.Sets.{IsOfState, IsSetOfStates};

use crate::values::{value_at_most, value_is};
use bdd_ops::Ops;
use bdd_table::{Id, TRUE, TableFault};
use symk_task::{Fact, State};
use var_order::Order;

/// Diagram of a fact: the states in which it holds. It is a fact of a base variable.
pub fn fact_set(ops: &mut Ops, order: &Order, fact: Fact) -> Result<Id, TableFault>
    requires { IsSome (slot_of order.now fact.var) }
    ensures known { IfOk result (λ id. id < length ops.new) }
    ensures meaning { IfOk result (λ id. (b : Bits) → means ops.new id b ≡ (spelt_value order.now 0 b fact.var ==
        fact.val)) }
    ensures states { IfOk result (λ id. (s : List ℕ) (b : Bits) → IsCode order.now 0 s b
        → means ops.new id b ≡ (coded_value order.now s fact.var == fact.val)) }
    ensures of_states { IfOk result (IsSetOfStates order.now ops.new) }
    ensures kept { Keeps ops.old ops.new }
    ensures reduced { IsReduced ops.new }
{
    let block = order.block_of(fact.var);
    value_is(ops, 0, block.first, block.width, fact.val)
}

/// The same of the levels of the state that an operator leads to.
pub fn next_fact_set(ops: &mut Ops, order: &Order, fact: Fact) -> Result<Id, TableFault>
    requires { IsSome (slot_of order.now fact.var) }
    ensures known { IfOk result (λ id. id < length ops.new) }
    ensures meaning { IfOk result (λ id. (b : Bits) → means ops.new id b ≡ (spelt_value order.now 1 b fact.var ==
        fact.val)) }
    ensures states { IfOk result (λ id. (s : List ℕ) (b : Bits) → IsCode order.now 1 s b
        → means ops.new id b ≡ (coded_value order.now s fact.var == fact.val)) }
    ensures kept { Keeps ops.old ops.new }
    ensures reduced { IsReduced ops.new }
{
    let block = order.block_of(fact.var);
    value_is(ops, 1, block.first, block.width, fact.val)
}

/// Diagram of all states, the invalid codes left out: it holds for the bits that are those of a state, and for no
/// others.
pub fn valid_set(ops: &mut Ops, order: &Order) -> Result<Id, TableFault>
    ensures known { IfOk result (λ id. id < length ops.new) }
    ensures meaning { IfOk result (λ id. (b : Bits) → (means ops.new id b ≡ true) ↔ IsOfState order.now b) }
    ensures of_states { IfOk result (IsSetOfStates order.now ops.new) }
    ensures kept { Keeps ops.old ops.new }
    ensures reduced { IsReduced ops.new }
{
    let _ = ops.table();
    let mut all = TRUE;
    let blocks = order.blocks();
    for slot in (0..blocks.len()).rev() {
        let block = blocks[slot];
        let in_range = value_at_most(ops, 0, block.first, block.width, block.values - 1)?;
        all = ops.conj(in_range, all)?;
    }
    Ok(all)
}

/// Diagram of one state: it holds for its bits, and for no others.
pub fn state_set(ops: &mut Ops, order: &Order, state: &State) -> Result<Id, TableFault>
    requires { IsStateOf order.now state.now }
    ensures known { IfOk result (λ id. id < length ops.new) }
    ensures meaning { IfOk result (λ id. (b : Bits) → (means ops.new id b ≡ true) ↔ IsCode order.now 0 state.now b) }
    ensures of_states { IfOk result (IsSetOfStates order.now ops.new) }
    ensures kept { Keeps ops.old ops.new }
    ensures reduced { IsReduced ops.new }
{
    let _ = ops.table();
    let values = state.as_slice();
    let blocks = order.blocks();
    let mut all = TRUE;
    for slot in (0..blocks.len()).rev() {
        let block = blocks[slot];
        let value = value_is(ops, 0, block.first, block.width, values[slot])?;
        all = ops.conj(value, all)?;
    }
    Ok(all)
}
