//! Ranks by which variables that bear on one another stand near one another.
//!
//! Two base variables are neighbours where an operator changes one and asks for the other, or changes both. The one
//! with most neighbours comes first; then, of those with a neighbour that has its rank, the one with most neighbours
//! that have theirs less those that have none. So each next variable is tied to what stands before it, and leaves few
//! ties open.

use crate::order::Order;
use std::alloc::Global;
use std::collections::BTreeSet;
use symk_task::{Effect, Fact, Memory, Operator, Task};

/// More variables than so many keep the order of the file: to rank them takes time by the square of their number.
const MOST: usize = 2000;

/// An operator that makes more pairs of neighbours than so many tells little, and is passed over.
const DENSE: usize = 20_000;

/// The neighbours of each value of a state.
type Neighbours = Vec<BTreeSet<u32>>;

/// How a value of a state stands to those that have a rank.
#[derive(Clone, Copy)]
struct Standing {
    /// How many neighbours it has.
    near: usize,
    /// How many of them have a rank.
    ranked: usize,
    /// Whether it has a rank itself.
    done: bool,
}

/// The rank of a value of a state.
pub(crate) fn rank_of(ranks: &[usize], slot: u32) -> usize {
    ranks.get(slot as usize).copied().unwrap_or(0)
}

/// Adds the values of a state that the facts are of.
fn add_facts(order: &Order, facts: &[Fact], slots: &mut Vec<u32>) -> Result<(), Memory> {
    for fact in facts {
        if let Some(slot) = order.slot(fact.var) {
            slots.push(slot)?;
        }
    }
    Ok(())
}

/// Adds the values of a state that the effects change.
fn add_changed(order: &Order, effects: &[Effect], slots: &mut Vec<u32>) -> Result<(), Memory> {
    for effect in effects {
        if let Some(slot) = order.slot(effect.var) {
            slots.push(slot)?;
        }
    }
    Ok(())
}

/// Adds the values of a state that the conditions of effects are of.
fn add_conditions(order: &Order, effects: &[Effect], slots: &mut Vec<u32>) -> Result<(), Memory> {
    for effect in effects {
        add_facts(order, effect.conds.as_slice(), slots)?;
    }
    Ok(())
}

/// Makes the second a neighbour of the first, unless both are one.
fn join(near: &mut Neighbours, a: u32, b: u32) -> Result<(), Memory> {
    if a != b
        && let Some(others) = near.get_mut(a as usize)
    {
        others.insert(b)?;
    }
    Ok(())
}

/// Makes the value a neighbour of each of the others, and these of it.
fn join_each(near: &mut Neighbours, a: u32, others: &[u32]) -> Result<(), Memory> {
    for b in others {
        join(near, a, *b)?;
        join(near, *b, a)?;
    }
    Ok(())
}

/// Makes neighbours of what the operator changes and of all that it asks for.
fn join_operator(
    alloc: Global,
    order: &Order,
    operator: &Operator,
    near: &mut Neighbours,
) -> Result<(), Memory> {
    let effects = operator.effects.as_slice();
    let mut changed = Vec::new(alloc);
    add_changed(order, effects, &mut changed)?;
    let mut all = Vec::new(alloc);
    add_changed(order, effects, &mut all)?;
    add_conditions(order, effects, &mut all)?;
    add_facts(order, operator.prevail.as_slice(), &mut all)?;
    if changed.len().saturating_mul(all.len()) > DENSE {
        return Ok(());
    }
    for slot in &changed {
        join_each(near, *slot, &all)?;
    }
    Ok(())
}

/// No neighbours of so many values.
fn no_neighbours(alloc: Global, count: usize) -> Result<Neighbours, Memory> {
    let mut near = Vec::new(alloc);
    for _ in 0..count {
        near.push(BTreeSet::new(alloc))?;
    }
    Ok(near)
}

/// The neighbours of each value of a state.
fn neighbours(alloc: Global, task: &Task, order: &Order) -> Result<Neighbours, Memory> {
    let mut near = no_neighbours(alloc, order.blocks().len())?;
    for operator in task.parts().operators.as_slice() {
        join_operator(alloc, order, operator, &mut near)?;
    }
    Ok(near)
}

/// Each value without a rank.
fn standings(alloc: Global, near: &[BTreeSet<u32>]) -> Result<Vec<Standing>, Memory> {
    let mut all = Vec::new(alloc);
    for others in near {
        all.push(Standing {
            near: others.len(),
            ranked: 0,
            done: false,
        })?;
    }
    Ok(all)
}

/// Whether the first is to have a rank before the second: where none has one, the one of more neighbours.
fn is_before(a: Standing, b: Standing) -> bool {
    if a.ranked == 0 && b.ranked == 0 {
        return b.near < a.near;
    }
    if a.ranked == 0 || b.ranked == 0 {
        return b.ranked == 0;
    }
    let one = a.ranked.saturating_mul(2).saturating_add(b.near);
    let other = b.ranked.saturating_mul(2).saturating_add(a.near);
    other < one
}

/// The value that has the next rank.
fn next(all: &[Standing]) -> Option<usize> {
    let mut best: Option<(usize, Standing)> = None;
    for (slot, standing) in all.iter().enumerate() {
        let comes = match best {
            None => true,
            Some((_, so_far)) => is_before(*standing, so_far),
        };
        if comes && !standing.done {
            best = Some((slot, *standing));
        }
    }
    best.map(|found| found.0)
}

/// Counts for each of the neighbours that one more of its own has a rank.
fn note_ranked(all: &mut Vec<Standing>, others: &BTreeSet<u32>) {
    for other in others {
        if let Some(standing) = all.get_mut(*other as usize) {
            standing.ranked = standing.ranked.saturating_add(1);
        }
    }
}

/// The value has its rank.
fn settle(all: &mut Vec<Standing>, near: &[BTreeSet<u32>], slot: usize) {
    if let Some(standing) = all.get_mut(slot) {
        standing.done = true;
    }
    if let Some(others) = near.get(slot) {
        note_ranked(all, others);
    }
}

/// A rank for each value of a state; none where there are too many.
pub(crate) fn ranks_of(alloc: Global, task: &Task, order: &Order) -> Result<Vec<usize>, Memory> {
    let count = order.blocks().len();
    if count > MOST {
        return Ok(Vec::new(alloc));
    }
    let near = neighbours(alloc, task, order)?;
    let mut all = standings(alloc, &near)?;
    let mut ranks = vec![in alloc; 0; count]?;
    for rank in 0..count {
        if let Some(slot) = next(&all) {
            settle(&mut all, &near, slot);
            if let Some(place) = ranks.get_mut(slot) {
                *place = rank;
            }
        }
    }
    Ok(ranks)
}
