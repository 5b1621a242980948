//! Diagrams of many levels, one node or three a place.

use crate::calls::{conj, disj, literal};
use crate::moves::{Move, image};
use crate::places::{Place, Side, alike, level};
use crate::work::Made;
use bdd_ops::Ops;
use bdd_table::{Id, TRUE, TableFault};
use std::alloc::Global;

/// The places below `n`.
fn below(alloc: Global, n: u16) -> Result<Vec<Place>, TableFault> {
    let mut places = Vec::new(alloc);
    for place in 0..n {
        places.push(place)?;
    }
    Ok(places)
}

/// The state in which all bits are true.
fn all_on(ops: &mut Ops, n: u16) -> Result<Id, TableFault> {
    let mut all = TRUE;
    for place in (0..n).rev() {
        let on = literal(ops, level(Side::Now, place), true)?;
        all = conj(ops, on, all)?;
    }
    Ok(all)
}

/// Each bit of the state that comes is as it was.
fn stays(ops: &mut Ops, n: u16) -> Result<Id, TableFault> {
    let mut all = TRUE;
    for place in (0..n).rev() {
        let same = alike(ops, level(Side::Now, place), level(Side::Next, place))?;
        all = conj(ops, same, all)?;
    }
    Ok(all)
}

/// The image of a state of `n` bits by the step that changes nothing, and the conjunction of both, which binds
/// no level: calls that go down all `2 n` levels.
pub fn deep(ops: &mut Ops, n: u16) -> Result<Made, TableFault> {
    let places = below(ops.table().allocator(), n)?;
    let state = all_on(ops, n)?;
    let relation = stays(ops, n)?;
    let both = conj(ops, state, relation)?;
    let step = Move { places, relation };
    let first = image(ops, &step, both)?;
    let again = image(ops, &step, first)?;
    let set = disj(ops, first, again)?;
    Ok(Made {
        rounds: 2,
        ..Made::of(set)
    })
}
