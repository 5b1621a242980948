//! The nodes that a collection keeps, renumbered.

ghost use Rattle.std.specs.Prelude.{◌≡◌, ℕ, ◌+◌, ◌<◌, ◌≤◌, ◌∷◌, ◌++◌, [], length, IfOk};
ghost use Rattle.bdd_table.specs.Diagram.{IsReduced};
ghost use Rattle.bdd_table.specs.Collected.{AreMoved, IsClosed};

use crate::node::Node;
use crate::table::{Id, Table, TableFault, constant};
use std::alloc::{AllocError, Global};

/// Moves an Id: keeps its node, with the places of its children, where it is marked. The place of an Id that isn't is 0,
/// which nothing asks for.
fn move_node(
    old: &Table,
    marks: &[bool],
    kept: &mut Vec<Node>,
    places: &[u32],
    id: Id,
) -> Result<u32, TableFault>
    requires reduced { IsReduced old.now }
    requires closed { IsClosed old.now marks.now }
    requires inner { 2 ≤ id }
    requires known { id < length old.now }
    requires moved { AreMoved old.now marks.now kept.old.items places.now id }
    ensures moved { IfOk result (λ place. AreMoved old.now marks.now kept.new.items (places.now ++ place ∷ []) (id + 1)) }
    ensures fits { length kept.new.items ≤ length kept.old.items + 1 }
{
    if !marks[id] {
        return Ok(0);
    }
    let place = kept.len();
    if place > u32::MAX as usize {
        return Err(AllocError);
    }
    let node = old.get(id);
    kept.push(Node {
        level: node.level,
        lo: places[node.lo as usize],
        hi: places[node.hi as usize],
    })?;
    Ok(place as u32)
}

/// Compaction of a collection: the marked nodes after the constants, and the place of each Id among them. Children come
/// first, so one rising pass is enough.
pub fn renumber(
    alloc: Global,
    old: &Table,
    marks: &[bool],
) -> Result<(Vec<Node>, Vec<u32>), TableFault>
    requires { IsClosed old.now marks.now }
    ensures moved { IfOk result (λ r. AreMoved old.now marks.now (r.0.items) (r.1.items) (length old.now)) }
    ensures fits { IfOk result (λ r. length r.0.items ≤ length old.now) }
{
    let count = marks.iter().filter(|mark| **mark).count();
    let mut kept = Vec::with_capacity(alloc, count.saturating_add(2))?;
    kept.push(constant(0))?;
    kept.push(constant(1))?;
    let held = old.held();
    let mut places = Vec::with_capacity(alloc, held + 2)?;
    places.push(0)?;
    places.push(1)?;
    for id in 2..held + 2 {
        let place = move_node(old, marks, &mut kept, &places, id)?;
        places.push(place)?;
    }
    Ok((kept, places))
}
