//! Which values occur in a set.

/// Where the marks of values stand, one for each value of each variable.
#[derive(Drop)]
pub struct Places {
    /// For each value of a state the place where the marks of its variable begin.
    pub starts: Vec<usize>,
    /// The values of a state that have bits, by the places of these.
    pub slots: Vec<u32>,
    /// The marks, none of them set.
    pub unmarked: Vec<bool>,
}

ghost use Rattle.std.specs.Prelude.{◌≡◌, ◌+◌, ◌<◌, ℕ, true, length, slice_index, IfOk, OnOk, All, Contains};
ghost use Rattle.bdd_table.specs.Diagram.{Bits, means};
ghost use Rattle.var_order.specs.Layout.{IsLayout, block_at};
ghost use Rattle.var_order.specs.Codes.{value_at, IsInRange};
ghost use Rattle.bdd_sets.specs.Marks.{is_marked};
ghost use Rattle.bdd_sets.specs.Occurs.{AreStarts, AreInOrder, AreMarked, ArePlaces, AreOccurring};

use crate::walking::pass;
use bdd_table::{Id, Table};
use std::alloc::Global;
use std::mem::swap;
use symk_task::Memory;
use var_order::{Block, Order};

/// Adds so many places that are not marked.
fn add_row(marks: &mut Vec<bool>, count: u32) -> Result<(), Memory> {
    for _ in 0..count {
        marks.push(false)?;
    }
    Ok(())
}

/// Where the marks of each block begin, and the marks, none of them set.
fn rows(alloc: Global, blocks: &[Block]) -> Result<(Vec<usize>, Vec<bool>), Memory>
    ensures { IfOk result (λ r. AreStarts blocks.now r.0.items) }
{
    let mut starts = Vec::new(alloc);
    let mut marks = Vec::new(alloc);
    for block in blocks {
        starts.push(marks.len())?;
        add_row(&mut marks, block.values)?;
    }
    Ok((starts, marks))
}

/// The blocks that have bits, by the places of these.
fn in_order(alloc: Global, order: &Order) -> Result<Vec<u32>, Memory>
    ensures { IfOk result (λ slots. AreInOrder order.now slots.items) }
{
    let blocks = order.blocks();
    let mut slots = Vec::new(alloc);
    'places: for place in 0..order.bits() {
        let slot = order.owner(place);
        if blocks[slot as usize].first == place {
            slots.push(slot)?;
        }
    }
    Ok(slots)
}

/// Walks down the set block by block, and marks the values that lead on.
fn walk(
    alloc: Global,
    table: &Table,
    order: &Order,
    set: Id,
    slots: &[u32],
    starts: &[usize],
    marks: &mut Vec<bool>,
) -> Result<(), Memory>
    requires set { set < length table.now }
    requires slots { All (λ slot. slot < length order.now.blocks) slots.now }
    requires starts { AreStarts order.now.blocks starts.now }
    ensures { OnOk result (AreMarked order.now table.now set starts.now marks.new.items slots.now (length slots.now)) }
{
    let _ = table.held();
    let blocks = order.blocks();
    let mut ids = Vec::new(alloc);
    let mut ends = Vec::new(alloc);
    ids.push(set)?;
    'slots: for slot in slots {
        let at = *slot as usize;
        pass(table, blocks[at], starts[at], marks, &ids, &mut ends)?;
        swap(&mut ids, &mut ends);
    }
    Ok(())
}

impl Places {
    /// The places for the values of an order.
    pub fn of(alloc: Global, order: &Order) -> Result<Places, Memory>
        ensures { IfOk result (ArePlaces order.now) }
    {
        let (starts, unmarked) = rows(alloc, order.blocks())?;
        let slots = in_order(alloc, order)?;
        Ok(Places {
            starts,
            slots,
            unmarked,
        })
    }
}

/// The values that the variables have in states of the set, marked, and perhaps others.
///
/// The walk goes variable by variable, in the order of the bits, and follows the bits of each value from each Id that
/// is left below the variables before. So it takes room in proportion to the nodes of the set, and time in proportion
/// to these times the values of a variable.
pub(crate) fn marks_of(
    alloc: Global,
    table: &Table,
    order: &Order,
    places: &Places,
    set: Id,
) -> Result<Vec<bool>, Memory>
    requires set { set < length table.now }
    requires places { ArePlaces order.now places.now }
    ensures { IfOk result (λ marks. AreOccurring order.now table.now set places.now.starts.items marks.items) }
{
    let mut marks = Vec::from_slice(alloc, &places.unmarked)?;
    walk(
        alloc,
        table,
        order,
        set,
        &places.slots,
        &places.starts,
        &mut marks,
    )?;
    Ok(marks)
}
