//! Whether an operator leads past the range of costs to a state of a set.

ghost use Rattle.std.specs.Prelude.{◌-◌, ◌<◌, ◌^◌, ◌↔◌, ℕ, IsTrue, IfOk};
ghost use Rattle.task_system.specs.System.{State};
ghost use Rattle.space_api.specs.View.{View, Valid, Has};
ghost use Rattle.space_api.specs.Frames.{Stays};
ghost use Rattle.run_graph.specs.Graph.{seen_from};
ghost use Rattle.run_graph.specs.Layering.{InLayer};
ghost use Rattle.cost_layers.specs.Arcs.{Escapes};
ghost use Rattle.cost_layers.specs.Layers.{Held, Stands};
ghost use Rattle.plan_cuts.specs.Meeting.{SeesDearer};

use crate::crossing::cost_from;
use cost_layers::{Layers, escapes};
use cost_search::cost_after;
use run_graph::Side;
use space_api::{Space, SpaceFault};

/// Whether an arc leads past the range from the layer of this cost to a state of the set.
fn layer_passes<S: Space>(
    space: &mut S,
    side: Side,
    layers: &Layers<S::Set>,
    cost: u64,
    set: S::Set,
) -> Result<bool, SpaceFault>
    requires layers { Held (S.view space.old) layers.now }
    requires set { Valid (S.view space.old) set }
    ensures stays { Stays (S.view space.old) (S.view space.new) }
    ensures ok { IfOk result (λ r. IsTrue r ↔ Escapes (seen_from side (S.view space.old).system)
        (2 ^ 64 - cost) (InLayer (Stands (S.view space.old) layers.now) cost) (Has (S.view space.old) set)) }
{
    match layers.layer(cost) {
        Some(whole) => escapes(space, side, (1u128 << 64) - cost as u128, whole, set),
        None => Ok(false),
    }
}

/// Whether an arc leads past the range from some layer to a state of the set.
pub(crate) fn passes<S: Space>(
    space: &mut S,
    side: Side,
    layers: &Layers<S::Set>,
    set: S::Set,
) -> Result<bool, SpaceFault>
    requires layers { Held (S.view space.old) layers.now }
    requires set { Valid (S.view space.old) set }
    ensures stays { Stays (S.view space.old) (S.view space.new) }
    ensures ok { IfOk result (λ r. IsTrue r ↔ SeesDearer side (S.view space.old).system
        (Stands (S.view space.old) layers.now) (Has (S.view space.old) set)) }
{
    let mut next = cost_from(layers, 0);
    'costs: while let Some(cost) = next {
        if layer_passes(space, side, layers, cost, set)? {
            return Ok(true);
        }
        next = cost_after(layers, cost);
    }
    Ok(false)
}
