//! The places that two relations touch.

ghost use Rattle.std.specs.Prelude.{◌≡◌, ◌==◌, IfOk};
ghost use Rattle.std.specs.List.{list_any};
ghost use Rattle.trans_merge.specs.Widened.{united};

use std::alloc::Global;
use symk_task::Memory;
use var_order::Order;

/// Whether the place is one of these.
pub fn is_among(places: &[u32], place: u32) -> bool
    ensures { result ≡ list_any (λ q. q == place) places.now }
{
    places.iter().any(|other| *other == place)
}

/// The places of either list, rising.
pub fn united(alloc: Global, order: &Order, a: &[u32], b: &[u32]) -> Result<Vec<u32>, Memory>
    ensures { IfOk result (λ places. places.items ≡ united order.now a.now b.now) }
{
    let mut places = Vec::new(alloc);
    for place in 0..order.bits() {
        let touched = is_among(a, place) | is_among(b, place);
        if touched {
            places.push(place)?;
        }
    }
    Ok(places)
}
