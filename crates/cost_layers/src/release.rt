//! Sets given back.

ghost use Rattle.std.specs.Prelude.{◌≡◌, ◌<◌, ◌≤◌, ℕ, IsTrue, MatchBool, length};
ghost use Rattle.space_api.specs.View.{View, Valid};
ghost use Rattle.space_api.specs.Frames.{Forgot};
ghost use Rattle.space_api.specs.Owned.{Trades};
ghost use Rattle.cost_layers.specs.Rings.{HasEachOnce};
ghost use Rattle.cost_layers.specs.Layers.{OfLayer, IsApart};
ghost use Rattle.cost_layers.specs.Parts.{IsPartFrom, IsRingFrom};

use crate::layers::Layer;
use space_api::Space;

/// Gives a set back, if it is to be.
pub(crate) fn give_back<S: Space>(space: &mut S, own: bool, a: S::Set)
    requires { IsTrue own → Valid (S.view space.old) a }
    ensures { MatchBool own (Forgot (S.view space.old) (S.view space.new) a) (S.view space.new ≡ S.view space.old) }
{
    if own {
        space.forget(a);
    }
}

/// Gives the rings from this number on back.
fn forget_rings<S: Space>(space: &mut S, rings: &[S::Set], start: usize)
    requires parts { (a : S.Set) → IsRingFrom start rings.now a → Valid (S.view space.old) a }
    requires once { HasEachOnce rings.now }
    ensures { Trades (S.view space.old) (S.view space.new) (IsRingFrom start rings.now) (λ a. ⊥) }
{
    for i in start..rings.len() {
        space.forget(rings[i]);
    }
}

/// Gives the rings from this number on back, and the union where that is no ring.
pub(crate) fn forget_from<S: Space>(space: &mut S, layer: &Layer<S::Set>, start: usize)
    requires parts { (a : S.Set) → IsPartFrom start layer.now.rings.items layer.now.whole a
        → Valid (S.view space.old) a }
    requires apart { IsApart layer.now }
    ensures { Trades (S.view space.old) (S.view space.new) (IsPartFrom start layer.now.rings.items
        layer.now.whole) (λ a. ⊥) }
{
    forget_rings(space, &layer.rings, start);
    give_back(space, layer.rings.len() > 1, layer.whole);
}

/// Gives the sets of a layer by itself back.
pub fn forget_layer<S: Space>(space: &mut S, layer: &Layer<S::Set>)
    requires parts { (a : S.Set) → OfLayer layer.now a → Valid (S.view space.old) a }
    requires apart { IsApart layer.now }
    ensures { Trades (S.view space.old) (S.view space.new) (OfLayer layer.now) (λ a. ⊥) }
{
    forget_from(space, layer, 0);
}
