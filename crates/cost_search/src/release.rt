//! Layers that are given back.

ghost use Rattle.std.specs.Prelude.{◌≡◌, ◌<◌, ◌≤◌, ◌^◌, ◌⊎◌, ℕ, None, IfSome};
ghost use Rattle.space_api.specs.View.{View, Valid};
ghost use Rattle.space_api.specs.Frames.{Forgot};
ghost use Rattle.space_api.specs.Owned.{Trades};
ghost use Rattle.cost_layers.specs.Layers.{rings_at, union_at, Held, KeepsSet, IsRing, IsWhole};
ghost use Rattle.cost_search.specs.Giving.{IsKeptAt, AreOnce, AreInRange};

use crate::costs::cost_after;
use cost_layers::Layers;
use space_api::Space;

/// Gives one ring back.
fn give_back_ring<S: Space>(space: &mut S, layers: &Layers<S::Set>, cost: u64, i: u64)
    requires { (a : S.Set) → IsRing (rings_at layers.now) cost i a → Valid (S.view space.old) a }
    ensures { Trades (S.view space.old) (S.view space.new) (IsRing (rings_at layers.now) cost i) (λ a. ⊥) }
{
    if let Some(ring) = layers.ring(cost, i) {
        space.forget(ring);
    }
}

/// Gives the rings of one cost back.
fn give_back_rings<S: Space>(space: &mut S, layers: &Layers<S::Set>, cost: u64)
    requires valid { (a : S.Set) → IsKeptAt layers.now cost a → Valid (S.view space.old) a }
    requires once { AreOnce layers.now }
    ensures { Trades (S.view space.old) (S.view space.new) (λ a. (i : ℕ) × IsRing (rings_at layers.now) cost i
        a) (λ a. ⊥) }
{
    'rings: for i in 0..layers.rings(cost) {
        give_back_ring(space, layers, cost, i);
    }
}

/// Gives the union of one cost back, where it is no ring.
fn give_back_whole<S: Space>(space: &mut S, layers: &Layers<S::Set>, cost: u64)
    requires { (a : S.Set) → IsWhole (rings_at layers.now) (union_at layers.now) cost a → Valid (S.view space.old) a }
    ensures { Trades (S.view space.old) (S.view space.new)
        (IsWhole (rings_at layers.now) (union_at layers.now) cost) (λ a. ⊥) }
{
    if layers.rings(cost) > 1
        && let Some(whole) = layers.layer(cost)
    {
        space.forget(whole);
    }
}

/// Gives the layer of one cost back.
fn give_back_layer<S: Space>(space: &mut S, layers: &Layers<S::Set>, cost: u64)
    requires valid { (a : S.Set) → IsKeptAt layers.now cost a → Valid (S.view space.old) a }
    requires once { AreOnce layers.now }
    ensures { Trades (S.view space.old) (S.view space.new) (IsKeptAt layers.now cost) (λ a. ⊥) }
{
    give_back_rings(space, layers, cost);
    give_back_whole(space, layers, cost);
}

/// Gives each set that the layers keep back.
pub(crate) fn give_back_layers<S: Space>(space: &mut S, layers: &Layers<S::Set>)
    requires held { Held (S.view space.old) layers.now }
    requires range { AreInRange layers.now }
    ensures { Trades (S.view space.old) (S.view space.new) (KeepsSet layers.now) (λ a. ⊥) }
{
    let mut next = layers.next_cost(0);
    'costs: while let Some(cost) = next {
        give_back_layer(space, layers, cost);
        next = cost_after(layers, cost);
    }
}
