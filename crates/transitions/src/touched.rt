//! Which places an operator touches.

ghost use Rattle.std.specs.Prelude.{◌≡◌, ◌<◌, IfOk};
ghost use Rattle.var_order.specs.Layout.{bits};
ghost use Rattle.transitions.specs.Touched.{is_on, is_touched, touched_places};

use std::alloc::Global;
use symk_task::{Effect, Memory};
use var_order::Order;

/// Whether the effect is on the variable whose value this is in a state.
fn is_on(order: &Order, slot: u32, effect: &Effect) -> bool
    ensures { result ≡ is_on order.now slot effect.now }
{
    match order.slot(effect.var) {
        Some(other) => other == slot,
        None => false,
    }
}

/// Whether one of the effects is on the variable whose bit stands at the place.
fn is_touched(order: &Order, effects: &[Effect], place: u32) -> bool
    requires { place < bits order.now }
    ensures { result ≡ is_touched order.now effects.now place }
{
    let slot = order.owner(place);
    effects.iter().any(|effect| is_on(order, slot, effect))
}

/// The places of the variables that the effects are on, rising.
pub fn touched_places(alloc: Global, order: &Order, effects: &[Effect]) -> Result<Vec<u32>, Memory>
    ensures { IfOk result (λ places. places.items ≡ touched_places order.now effects.now) }
{
    let mut places = Vec::new(alloc);
    for place in 0..order.bits() {
        if is_touched(order, effects, place) {
            places.push(place)?;
        }
    }
    Ok(places)
}
