//! One step of the walk down a diagram: over the bits of one variable.

ghost use Rattle.std.specs.Prelude.{◌≡◌, ◌<◌, ◌⊎◌, ◌↔◌, ℕ, true, length, OnOk, All};
ghost use Rattle.bdd_table.specs.Diagram.{Bits, means};
ghost use Rattle.bdd_sets.specs.Marks.{block_value, PassesBlock};
ghost use Rattle.bdd_sets.specs.Ends.{CanPass, HasId, AreKnown, AddsEnd, AddsEnds};

use crate::following::{OneValue, follow, one_value};
use crate::marking::{mark, mark_all};
use bdd_table::{FALSE, Id, Table};
use symk_task::Memory;
use var_order::Block;

/// Adds the Id at the end, unless it stands there.
fn put(ends: &mut Vec<Id>, id: Id) -> Result<(), Memory>
    ensures { OnOk result ((q : ℕ) → HasId ends.new.items q ↔ (HasId ends.old.items q ⊎ (q ≡ id))) }
{
    if let Some(last) = ends.len().checked_sub(1) {
        if ends[last] == id {
            return Ok(());
        }
    }
    ends.push(id)?;
    Ok(())
}

/// Leaves each Id once.
fn once(ends: &mut Vec<Id>)
    ensures { (q : ℕ) → HasId ends.new.items q ↔ HasId ends.old.items q }
{
    if ends.len() < 2 {
        return;
    }
    ends.sort_unstable();
    ends.dedup();
}

/// Marks the place and adds the Id, unless that is false.
fn add_end(place: usize, end: Id, marks: &mut Vec<bool>, ends: &mut Vec<Id>) -> Result<(), Memory>
    ensures { OnOk result (AddsEnd place end ends.old.items ends.new.items marks.old.items marks.new.items) }
{
    if end == FALSE {
        return Ok(());
    }
    mark(marks, place);
    put(ends, end)
}

/// Adds what is left of the Id below each value of the block, and marks the values that leave something.
fn add_ends(
    table: &Table,
    block: Block,
    start: usize,
    id: Id,
    marks: &mut Vec<bool>,
    ends: &mut Vec<Id>,
) -> Result<(), Memory>
    requires id { id < length table.now }
    requires ends { AreKnown table.now ends.old.items }
    requires room { CanPass block start }
    ensures { OnOk result (AddsEnds table.now block start id ends.old.items ends.new.items marks.old.items
        marks.new.items) }
{
    let _ = table.held();
    'values: for value in 0..block.values {
        let end = follow(table, id, block, value);
        add_end(start + value as usize, end, marks, ends)?;
    }
    Ok(())
}

/// Adds the Id, which has no node in the block: it leaves itself below each value.
fn add_skipped(
    table: &Table,
    block: Block,
    start: usize,
    id: Id,
    marks: &mut Vec<bool>,
    ends: &mut Vec<Id>,
) -> Result<(), Memory>
    requires id { id < length table.now }
    requires ends { AreKnown table.now ends.old.items }
    requires room { CanPass block start }
    ensures { OnOk result (AddsEnds table.now block start id ends.old.items ends.new.items marks.old.items
        marks.new.items) }
{
    let _ = table.held();
    mark_all(marks, start, block.values);
    put(ends, id)
}

/// Adds what is left of the Id below the one value that all its codes have.
fn add_forced(
    table: &Table,
    block: Block,
    start: usize,
    id: Id,
    one: OneValue,
    marks: &mut Vec<bool>,
    ends: &mut Vec<Id>,
) -> Result<(), Memory>
    requires end { one.end < length table.now }
    requires ends { AreKnown table.now ends.old.items }
    requires room { CanPass block start }
    requires forced { (b : Bits) → means table.now id b ≡ true
        → (block_value block b ≡ one.value) × (means table.now one.end b ≡ true) }
    ensures { OnOk result (AddsEnds table.now block start id ends.old.items ends.new.items marks.old.items
        marks.new.items) }
{
    let _ = table.held();
    if one.value < block.values {
        add_end(start + one.value as usize, one.end, marks, ends)
    } else {
        Ok(())
    }
}

/// Adds what is left of the Id, which has a node in the block, below the block.
fn add_inside(
    table: &Table,
    block: Block,
    start: usize,
    id: Id,
    marks: &mut Vec<bool>,
    ends: &mut Vec<Id>,
) -> Result<(), Memory>
    requires id { id < length table.now }
    requires ends { AreKnown table.now ends.old.items }
    requires room { CanPass block start }
    ensures { OnOk result (AddsEnds table.now block start id ends.old.items ends.new.items marks.old.items
        marks.new.items) }
{
    match one_value(table, id, block) {
        Some(one) => add_forced(table, block, start, id, one, marks, ends),
        None => add_ends(table, block, start, id, marks, ends),
    }
}

/// Adds what is left of the Id below the block.
fn add(
    table: &Table,
    block: Block,
    start: usize,
    id: Id,
    marks: &mut Vec<bool>,
    ends: &mut Vec<Id>,
) -> Result<(), Memory>
    requires id { id < length table.now }
    requires ends { AreKnown table.now ends.old.items }
    requires room { CanPass block start }
    ensures { OnOk result (AddsEnds table.now block start id ends.old.items ends.new.items marks.old.items
        marks.new.items) }
{
    let _ = table.held();
    if block.width == 0 || table.level(id) >= 2 * (block.first + block.width) {
        add_skipped(table, block, start, id, marks, ends)
    } else {
        add_inside(table, block, start, id, marks, ends)
    }
}

/// Puts what is left of the Ids below the block in the place of other Ids, each once; the values that leave something
/// are marked.
pub fn pass(
    table: &Table,
    block: Block,
    start: usize,
    marks: &mut Vec<bool>,
    ids: &[Id],
    ends: &mut Vec<Id>,
) -> Result<(), Memory>
    requires ids { All (λ id. id < length table.now) ids.now }
    requires room { CanPass block start }
    ensures { OnOk result (PassesBlock table.now block start ids.now ends.new.items marks.old.items marks.new.items) }
{
    let _ = table.held();
    ends.clear();
    'ids: for id in ids {
        add(table, block, start, *id, marks, ends)?;
    }
    once(ends);
    Ok(())
}
