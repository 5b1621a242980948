//! The nodes that roots reach.

ghost use Rattle.std.specs.Prelude.{◌≡◌, ℕ, ◌+◌, ◌<◌, ◌≤◌, ◌⊎◌, true, length, IfOk, slice_index, EachIndex};
ghost use Rattle.bdd_table.specs.Diagram.{at};
ghost use Rattle.bdd_table.specs.Collected.{MarkedFrom, is_marked_id};

use crate::table::{Id, Table, TableFault};
use std::alloc::Global;

/// Marks the children of a node, if it is marked itself.
fn mark_children(table: &Table, marks: &mut Vec<bool>, id: Id)
    requires inner { 2 ≤ id }
    requires known { id < length table.now }
    requires as_long { length marks.old.items ≡ length table.now }
    ensures as_long { length marks.new.items ≡ length marks.old.items }
    ensures kept { (k : ℕ) → is_marked_id marks.old.items k ≡ true → is_marked_id marks.new.items k ≡ true }
    ensures later { (k : ℕ) → id ≤ k → is_marked_id marks.new.items k ≡ is_marked_id marks.old.items k }
    ensures lo { is_marked_id marks.old.items id ≡ true → is_marked_id marks.new.items (at table.now id).lo ≡ true }
    ensures hi { is_marked_id marks.old.items id ≡ true → is_marked_id marks.new.items (at table.now id).hi ≡ true }
    ensures only { (k : ℕ) → is_marked_id marks.new.items k ≡ true → (is_marked_id marks.old.items k ≡ true)
        ⊎ ((is_marked_id marks.old.items id ≡ true) × ((k ≡ (at table.now id).lo) ⊎ (k ≡ (at table.now id).hi))) }
{
    if marks[id] {
        let lo = table.lo(id);
        let hi = table.hi(id);
        marks[lo] = true;
        marks[hi] = true;
    }
}

/// Mark phase of a collection: marks the roots and all that they reach, and nothing else. Children have smaller Ids,
/// so one falling pass is enough.
pub fn mark(alloc: Global, table: &Table, roots: &[Id]) -> Result<Vec<bool>, TableFault>
    requires { EachIndex roots.now (λ i. slice_index roots.now i < length table.now) }
    ensures { IfOk result (λ marks. MarkedFrom table.now roots.now marks.items 2) }
{
    let count = table.held() + 2;
    let mut marks: Vec<bool> = vec![in alloc; false; count]?;
    'roots: for root in roots {
        marks[*root] = true;
    }
    'nodes: for step in 0..count - 2 {
        mark_children(table, &mut marks, count - 1 - step);
    }
    Ok(marks)
}
