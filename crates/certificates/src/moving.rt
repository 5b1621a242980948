//! A diagram over other levels.

ghost use Rattle.std.specs.Prelude.{◌≡◌, ◌<◌, ◌≤◌, true, length, All, IfOk, if◌then◌else◌, slice_index};
ghost use Rattle.bdd_table.specs.Diagram.{Bits, at, level_of, means, Keeps, IsReduced};
ghost use Rattle.certificates.specs.Levels.{AreSmall, spread};

use crate::choosing::choice;
use crate::levels::bit_at_level;
use bdd_ops::Ops;
use bdd_table::{FALSE, Id, TRUE, Table, mark};
use std::alloc::Global;
use symk_task::Memory;

/// What an Id of the old table says, where its children stand in the new one.
fn moved(
    old: &Table,
    ops: &mut Ops,
    indexes: &[Option<u32>],
    ids: &[Id],
    id: Id,
) -> Result<Id, Memory>
    requires known { id < length old.now }
    requires small { AreSmall indexes.now }
    requires ids { All (λ i. i < length ops.old) ids.now }
    requires lo { (at old.now id).lo < length ids.now }
    requires hi { (at old.now id).hi < length ids.now }
    ensures known { IfOk result (λ new. new < length ops.new) }
    ensures meaning { IfOk result (λ new. (b : Bits) → means ops.new new b
        ≡ (if spread indexes.now b (level_of old.now id)
        then means ops.old (slice_index ids.now (at old.now id).hi) b
        else means ops.old (slice_index ids.now (at old.now id).lo) b)) }
    ensures kept { Keeps ops.old ops.new }
    ensures reduced { IsReduced ops.new }
{
    let _ = ops.table();
    let node = old.get(id);
    let lo = ids[node.lo as usize];
    let hi = ids[node.hi as usize];
    match bit_at_level(indexes, node.level) {
        Some(bit) => choice(ops, bit, lo, hi),
        None => Ok(lo),
    }
}

/// The same where the Id is wanted, and else false, which nothing asks for.
fn moved_if_wanted(
    old: &Table,
    ops: &mut Ops,
    indexes: &[Option<u32>],
    ids: &[Id],
    is_wanted: bool,
    id: Id,
) -> Result<Id, Memory>
    requires known { id < length old.now }
    requires small { AreSmall indexes.now }
    requires ids { All (λ i. i < length ops.old) ids.now }
    requires lo { (at old.now id).lo < length ids.now }
    requires hi { (at old.now id).hi < length ids.now }
    ensures known { IfOk result (λ new. new < length ops.new) }
    ensures meaning { IfOk result (λ new. is_wanted ≡ true → (b : Bits) → means ops.new new b
        ≡ (if spread indexes.now b (level_of old.now id)
        then means ops.old (slice_index ids.now (at old.now id).hi) b
        else means ops.old (slice_index ids.now (at old.now id).lo) b)) }
    ensures kept { Keeps ops.old ops.new }
    ensures reduced { IsReduced ops.new }
{
    if is_wanted {
        moved(old, ops, indexes, ids, id)
    } else {
        let _ = ops.table();
        Ok(FALSE)
    }
}

/// What the root says, over the bits that stand at its levels; where none stands, the level counts as false. Only
/// what the root reaches is looked at: children have smaller Ids, so one rising pass is enough.
pub fn rebuilt(
    alloc: Global,
    old: &Table,
    ops: &mut Ops,
    indexes: &[Option<u32>],
    root: Id,
) -> Result<Id, Memory>
    requires known { root < length old.now }
    requires small { AreSmall indexes.now }
    ensures known { IfOk result (λ new. new < length ops.new) }
    ensures meaning { IfOk result (λ new. (b : Bits) → means ops.new new b ≡ means old.now root
        (spread indexes.now b)) }
    ensures kept { Keeps ops.old ops.new }
    ensures reduced { IsReduced ops.new }
{
    let _ = ops.table();
    let held = old.held();
    prove!(root < held + 2);
    let wanted = mark(alloc, old, &[root])?;
    let mut ids: Vec<Id> = Vec::new(alloc);
    ids.push(FALSE)?;
    ids.push(TRUE)?;
    'ids: for id in 2..root + 1 {
        let new = moved_if_wanted(old, ops, indexes, &ids, wanted[id], id)?;
        ids.push(new)?;
    }
    Ok(ids[root])
}
