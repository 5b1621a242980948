//! Where operators of one cost lead on from an entry, and the numbers of rings.

ghost use Rattle.std.specs.Prelude.{◌≡◌, ◌≤◌, ◌-◌, ◌<◌, ◌^◌, ◌↔◌, ℕ, Some, IsTrue, IfOk};
ghost use Rattle.symk_task.specs.Variables.{IsState};
ghost use Rattle.space_api.specs.View.{View, Valid, Has};
ghost use Rattle.space_api.specs.Frames.{Stays};
ghost use Rattle.cost_layers.specs.Layers.{Held, union_at, Stands as StandsIn};
ghost use Rattle.reconstruct.specs.Ways.{IsLeastRing, IsFirstRing, IsLayerTo, IsWay};

use cost_layers::Layers;
use space_api::{Space, SpaceFault};
use symk_task::State;

/// Whether operators of a cost may lead on: the layer into which they do, or None where none does.
#[derive(Clone, Copy)]
pub(crate) struct Way<T: Copy> {
    pub(crate) cost: u64,
    pub(crate) layer: Option<T>,
}

/// The number of the first ring of this cost that has a state of the set, 0 where none has.
pub(crate) fn least_ring<S: Space>(
    space: &mut S,
    layers: &Layers<S::Set>,
    cost: u64,
    set: S::Set,
) -> Result<u64, SpaceFault>
    requires held { Held (S.view space.old) layers.now }
    requires set { Valid (S.view space.old) set }
    ensures stays { Stays (S.view space.old) (S.view space.new) }
    ensures ok { IfOk result (IsLeastRing (S.view space.old) layers.now cost set) }
    ensures fits { IfOk result (λ n. n < 2 ^ 64) }
{
    if layers.rings(cost) < 2 {
        return Ok(0);
    }
    match layers.least_ring_meeting(space, cost, set)? {
        Some(ring) => Ok(ring),
        None => Ok(0),
    }
}

/// Whether the ring of this number has the state.
fn in_ring<S: Space>(space: &S, layers: &Layers<S::Set>, cost: u64, i: u64, state: &State) -> bool
    requires held { Held (S.view space.now) layers.now }
    requires state { IsState (S.view space.now).task state.now }
    ensures { IsTrue result ↔ StandsIn (S.view space.now) layers.now cost i state.now }
{
    match layers.ring(cost, i) {
        Some(ring) => space.has(ring, state),
        None => false,
    }
}

/// The number of the first ring of this cost that has the state, 0 where none has. It takes no memory.
pub(crate) fn first_ring<S: Space>(
    space: &S,
    layers: &Layers<S::Set>,
    cost: u64,
    state: &State,
) -> u64
    requires held { Held (S.view space.now) layers.now }
    requires state { IsState (S.view space.now).task state.now }
    ensures { IsFirstRing (S.view space.now) layers.now cost state.now result }
{
    let rings = layers.rings(cost);
    if rings < 2 {
        return 0;
    }
    for i in 0..rings {
        if in_ring(space, layers, cost, i, state) {
            return i;
        }
    }
    0
}

/// The layer of what is left of the cost after `w`.
fn layer_to<T: Copy>(layers: &Layers<T>, cost: u64, w: u64) -> Option<T>
    ensures { IsLayerTo layers.now cost w result }
{
    if w > cost {
        return None;
    }
    layers.layer(cost - w)
}

/// The layer of operators of cost `w`. Trying an operator is the test whether it leads on.
pub(crate) fn way_for<T: Copy>(layers: &Layers<T>, cost: u64, w: u64) -> Way<T>
    ensures cost { result.cost ≡ w }
    ensures way { IsWay layers.now cost result }
{
    Way {
        cost: w,
        layer: layer_to(layers, cost, w),
    }
}

/// The same, where the way of another cost or of this one is at hand.
pub(crate) fn way_after<T: Copy>(layers: &Layers<T>, cost: u64, last: Way<T>, w: u64) -> Way<T>
    requires { IsWay layers.now cost last }
    ensures cost { result.cost ≡ w }
    ensures way { IsWay layers.now cost result }
{
    if last.cost == w {
        last
    } else {
        way_for(layers, cost, w)
    }
}
