//! The places of the marks of facts.

ghost use Rattle.std.specs.Prelude.{◌≡◌, ◌↔◌, ◌⊎◌, ℕ, IfOk, MatchOption, OnOk, Contains};
ghost use Rattle.std.specs.List.{AllZip};
ghost use Rattle.bdd_sets.specs.Occurs.{AreStarts};
ghost use Rattle.bdd_sets.specs.Placed.{IsPlaceOf, ArePlacesOf};

use std::alloc::Global;
use symk_task::{Fact, List, Memory};
use var_order::Order;

/// The place of the mark of a fact, if its variable has bits.
fn place_of(order: &Order, starts: &[usize], fact: Fact) -> Option<usize>
    requires { AreStarts order.now.blocks starts.now }
    ensures { MatchOption result ((p : ℕ) → ¬ IsPlaceOf order.now starts.now fact p)
        (λ place. (p : ℕ) → IsPlaceOf order.now starts.now fact p ↔ (p ≡ place)) }
{
    let slot = order.slot(fact.var)? as usize;
    if order.blocks()[slot].width == 0 {
        return None;
    }
    Some(starts[slot] + fact.val as usize)
}

/// Adds the place of the mark of a fact, if its variable has bits.
fn add_place(
    order: &Order,
    starts: &[usize],
    fact: Fact,
    places: &mut List<usize>,
) -> Result<(), Memory>
    requires { AreStarts order.now.blocks starts.now }
    ensures { OnOk result ((p : ℕ) → Contains places.new p ↔ (Contains places.old p
        ⊎ IsPlaceOf order.now starts.now fact p)) }
{
    if let Some(place) = place_of(order, starts, fact) {
        places.push(place)?;
    }
    Ok(())
}

/// The places of the marks of these facts, but of facts whose variables have no bits.
fn places_of(
    alloc: Global,
    order: &Order,
    starts: &[usize],
    facts: &[Fact],
) -> Result<List<usize>, Memory>
    requires { AreStarts order.now.blocks starts.now }
    ensures { IfOk result (ArePlacesOf order.now starts.now facts.now) }
{
    let mut places = List::of(Vec::new(alloc));
    'facts: for fact in facts {
        add_place(order, starts, *fact, &mut places)?;
    }
    Ok(places)
}

/// The places of the marks of the facts of each list.
pub fn all_places(
    alloc: Global,
    order: &Order,
    starts: &[usize],
    lists: &[List<Fact>],
) -> Result<Vec<List<usize>>, Memory>
    requires { AreStarts order.now.blocks starts.now }
    ensures { IfOk result (λ all. AllZip (ArePlacesOf order.now starts.now) lists.now all.items) }
{
    let mut all = Vec::new(alloc);
    'lists: for facts in lists {
        all.push(places_of(alloc, order, starts, facts.as_slice())?)?;
    }
    Ok(all)
}
