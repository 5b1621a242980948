//! The same steps over more touched places.

ghost use Rattle.std.specs.Prelude.{◌≡◌, ◌<◌, ◌↔◌, true, length, IfOk};
ghost use Rattle.bdd_table.specs.Diagram.{Bits, means, Keeps, IsReduced};
ghost use Rattle.trans_merge.specs.Widened.{stays_at, Stay};

use crate::places::is_among;
use bdd_ops::Ops;
use bdd_table::{Id, TRUE, TableFault};
use transitions::same_bit;
use var_order::Order;

/// Where the bit at the place stays, if the place is one of `wide` but not of `own`; else everywhere.
fn stay_at(ops: &mut Ops, own: &[u32], wide: &[u32], place: u32) -> Result<Id, TableFault>
    requires { place < 2147483647 }
    ensures known { IfOk result (λ id. id < length ops.new) }
    ensures meaning { IfOk result (λ id. (b : Bits) → means ops.new id b ≡ stays_at own.now wide.now b place) }
    ensures kept { Keeps ops.old ops.new }
    ensures reduced { IsReduced ops.new }
{
    let _ = ops.table();
    let free = is_among(own, place) | !is_among(wide, place);
    if free { Ok(TRUE) } else { same_bit(ops, place) }
}

/// Where the bits stay at all places of `wide` that are not of `own`.
fn stays(ops: &mut Ops, order: &Order, own: &[u32], wide: &[u32]) -> Result<Id, TableFault>
    ensures known { IfOk result (λ id. id < length ops.new) }
    ensures meaning { IfOk result (λ id. (b : Bits) → (means ops.new id b ≡ true) ↔ Stay order.now own.now wide.now b) }
    ensures kept { Keeps ops.old ops.new }
    ensures reduced { IsReduced ops.new }
{
    let _ = ops.table();
    let mut all = TRUE;
    let bits = order.bits();
    for place in (0..bits).rev() {
        let stay = stay_at(ops, own, wide, place)?;
        all = ops.conj(stay, all)?;
    }
    Ok(all)
}

/// The steps of the diagram, which touch the places `own`, as steps that may touch those of `wide` too: at the places
/// that are added the bits stay.
pub fn widen(
    ops: &mut Ops,
    order: &Order,
    root: Id,
    own: &[u32],
    wide: &[u32],
) -> Result<Id, TableFault>
    requires { root < length ops.old }
    ensures known { IfOk result (λ id. id < length ops.new) }
    ensures meaning { IfOk result (λ id. (b : Bits) → (means ops.new id b ≡ true)
        ↔ ((means ops.old root b ≡ true) × Stay order.now own.now wide.now b)) }
    ensures kept { Keeps ops.old ops.new }
    ensures reduced { IsReduced ops.new }
{
    let all = stays(ops, order, own, wide)?;
    ops.conj(root, all)
}
