//! The costs that have a layer, one after the other, and the first whose layer has a state of a set, or one state.

ghost use Rattle.std.specs.Prelude.{◌≡◌, ◌<◌, ◌^◌, ◌↔◌, ℕ, None, IsTrue, IfOk, MatchOption};
ghost use Rattle.task_system.specs.System.{State};
ghost use Rattle.space_api.specs.View.{View, Valid, Has};
ghost use Rattle.space_api.specs.Frames.{Stays};
ghost use Rattle.space_api.specs.States.{IsReached};
ghost use Rattle.run_graph.specs.Layering.{InLayer};
ghost use Rattle.cost_layers.specs.Layers.{union_at, Held, Stands};
ghost use Rattle.cost_search.specs.Meeting.{IsFirstFrom, IsFirstIn, IsLayerMeeting};

use cost_layers::Layers;
use space_api::{Space, SpaceFault, has_state, meets};
use symk_task::State;

/// The next cost after this one that has a layer, or None where no later cost has one.
///
/// Public, so that who walks the layers of a search, as both its sides together do, need not prove it again.
pub fn cost_after<T: Copy>(layers: &Layers<T>, cost: u64) -> Option<u64>
    ensures { MatchOption result ((c : ℕ) → cost < c → c < 2 ^ 64 → union_at layers.now c ≡ None)
        (λ n. (cost < n) × (n < 2 ^ 64) × ((c : ℕ) → cost < c → c < n → union_at layers.now c ≡ None)) }
{
    if cost == u64::MAX {
        None
    } else {
        layers.next_cost(cost + 1)
    }
}

/// Whether the layer of this cost has a state of the set.
fn layer_meets<S: Space>(
    space: &mut S,
    layers: &Layers<S::Set>,
    cost: u64,
    set: S::Set,
) -> Result<bool, SpaceFault>
    requires held { Held (S.view space.old) layers.now }
    requires set { Valid (S.view space.old) set }
    ensures stays { Stays (S.view space.old) (S.view space.new) }
    ensures ok { IfOk result (λ r. IsTrue r ↔ IsLayerMeeting (S.view space.old) layers.now set cost) }
{
    match layers.layer(cost) {
        Some(whole) => Ok(meets(space, whole, set)?),
        None => Ok(false),
    }
}

/// The least cost from this one on whose layer has a state of the set. None exactly where no such layer has one.
///
/// Public, so that who knows that no cheaper layer has one need not prove it again.
pub fn first_meeting<S: Space>(
    space: &mut S,
    layers: &Layers<S::Set>,
    low: u64,
    set: S::Set,
) -> Result<Option<u64>, SpaceFault>
    requires held { Held (S.view space.old) layers.now }
    requires set { Valid (S.view space.old) set }
    ensures stays { Stays (S.view space.old) (S.view space.new) }
    ensures ok { IfOk result (IsFirstFrom (S.view space.old) layers.now set low) }
{
    let mut next = layers.next_cost(low);
    'costs: while let Some(cost) = next {
        if layer_meets(space, layers, cost, set)? {
            return Ok(Some(cost));
        }
        next = cost_after(layers, cost);
    }
    Ok(None)
}

/// Whether the layer of this cost has the state.
fn layer_has<S: Space>(space: &S, layers: &Layers<S::Set>, cost: u64, state: &State) -> bool
    requires held { Held (S.view space.now) layers.now }
    requires state { IsReached (S.view space.now).system state.now }
    ensures { IsTrue result ↔ InLayer (Stands (S.view space.now) layers.now) cost state.now }
{
    match layers.layer(cost) {
        Some(whole) => has_state(space, whole, state),
        None => false,
    }
}

/// The least cost from this one on whose layer has the state, which operators reach. None exactly where no such layer has
/// it. It takes no memory.
///
/// Public, so that who asks the layers of a search for one state need not prove it again.
pub fn first_with_state<S: Space>(
    space: &S,
    layers: &Layers<S::Set>,
    low: u64,
    state: &State,
) -> Option<u64>
    requires held { Held (S.view space.now) layers.now }
    requires state { IsReached (S.view space.now).system state.now }
    ensures { IsFirstIn (S.view space.now) layers.now state.now low result }
{
    let mut next = layers.next_cost(low);
    'costs: while let Some(cost) = next {
        if layer_has(space, layers, cost, state) {
            return Some(cost);
        }
        next = cost_after(layers, cost);
    }
    None
}
