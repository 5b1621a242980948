//! Whether a set has a state.

ghost use Rattle.std.specs.Prelude.{◌≡◌, ℕ, ◌<◌, ◌↔◌, Bool, length, IsTrue};
ghost use Rattle.bdd_table.specs.Diagram.{Bits, means};
ghost use Rattle.var_order.specs.Codes.{IsCode, IsStateOf};
ghost use Rattle.bdd_sets.specs.Sets.{HasCodedState, IsSetOfStates, only_state_bits};

use bdd_ops::Ops;
use bdd_table::{Id, TRUE};
use symk_task::State;
use var_order::Order;

/// Membership: whether the Id holds for the bits of the state, with false at every level that is of none of them:
/// whether it has the state, if it is a set of states. It goes down one path of the diagram, and allocates nothing.
pub fn has(ops: &Ops, order: &Order, set: Id, state: &State) -> bool
    requires set { set < length ops.now }
    requires state { IsStateOf order.now state.now }
    ensures bits { (b : Bits) → IsCode order.now 0 state.now b
        → means ops.now set (only_state_bits order.now b) ≡ result }
    ensures states { IsSetOfStates order.now ops.now set
        → (IsTrue result ↔ HasCodedState order.now ops.now set state.now) }
{
    let _ = order.blocks();
    let table = ops.table();
    let mut id = set;
    while id > TRUE {
        id = if bit_at(order, state, table.level(id)) {
            table.hi(id)
        } else {
            table.lo(id)
        };
    }
    id == TRUE
}

/// The bit of the state at the level, false where the state has none there.
fn bit_at(order: &Order, state: &State, level: u32) -> bool
    requires { IsStateOf order.now state.now }
    ensures { (b : Bits) → IsCode order.now 0 state.now b → only_state_bits order.now b level ≡ result }
{
    level % 2 == 0 && level / 2 < order.bits() && order.bit(state, level / 2)
}
