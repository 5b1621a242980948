//! The operations on Ids that come from lists and structs, of which no contract says that the table has them.

ghost use Rattle.std.specs.Prelude.{◌≡◌, ℕ, ◌<◌, length, IfOk, EachIndex, slice_index};

use bdd_ops::Ops;
use bdd_table::{FALSE, Id, TableFault};

/// The Id, or false if the table doesn't have it.
pub fn known(ops: &Ops, id: Id) -> Id
    ensures { result < length ops.now }
{
    if id < ops.table().held() + 2 {
        id
    } else {
        FALSE
    }
}

/// Puts false in place of each Id that the table doesn't have.
pub fn known_all(ops: &Ops, ids: &mut [Id])
    ensures { EachIndex ids.new (λ i. slice_index ids.new i < length ops.now) }
{
    'ids: for i in 0..ids.len() {
        ids[i] = known(ops, ids[i]);
    }
}

/// Where both hold.
pub fn conj(ops: &mut Ops, f: Id, g: Id) -> Result<Id, TableFault>
    ensures { IfOk result (λ id. id < length ops.new) }
{
    let f = known(ops, f);
    let g = known(ops, g);
    ops.conj(f, g)
}

/// Where one holds, or both.
pub fn disj(ops: &mut Ops, f: Id, g: Id) -> Result<Id, TableFault>
    ensures { IfOk result (λ id. id < length ops.new) }
{
    let f = known(ops, f);
    let g = known(ops, g);
    ops.disj(f, g)
}

/// Where the first holds and the second doesn't.
pub fn minus(ops: &mut Ops, f: Id, g: Id) -> Result<Id, TableFault>
    ensures { IfOk result (λ id. id < length ops.new) }
{
    let f = known(ops, f);
    let g = known(ops, g);
    ops.minus(f, g)
}

/// Where it holds for some values of the levels.
pub fn quantify(ops: &mut Ops, levels: &[u32], f: Id) -> Result<Id, TableFault>
    ensures { IfOk result (λ id. id < length ops.new) }
{
    let f = known(ops, f);
    ops.quantify(levels, f)
}

/// Where the level is true, or where it is false. A level of the constants counts as the one before.
pub fn literal(ops: &mut Ops, level: u32, positive: bool) -> Result<Id, TableFault>
    ensures { IfOk result (λ id. id < length ops.new) }
{
    ops.literal(level.min(u32::MAX - 1), positive)
}
