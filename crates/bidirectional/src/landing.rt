//! The states into which plans of one cost cross.

ghost use Rattle.std.specs.Prelude.{◌≡◌, ◌+◌, ◌<◌, ◌≤◌, ◌⊎◌, ℕ, IfOk, OnErr};
ghost use Rattle.task_system.specs.System.{State};
ghost use Rattle.space_api.specs.View.{View, Valid, Has};
ghost use Rattle.space_api.specs.Frames.{Kept, NoMore, Gives};
ghost use Rattle.space_api.specs.Owned.{Trades};
ghost use Rattle.run_graph.specs.Graph.{seen_from};
ghost use Rattle.run_graph.specs.declared.Side.TheVariants.{Ahead};
ghost use Rattle.cost_layers.specs.Layers.{Stands};
ghost use Rattle.cost_layers.specs.Arcs.{AlongIn};
ghost use Rattle.cost_layers.specs.Gathered.{Joins};
ghost use Rattle.bidirectional.specs.Crossing.{AreHeld};
ghost use Rattle.bidirectional.specs.Cutting.{Lands, LandsBy};

use crate::crossing::Meeting;
use crate::cutting::cost_before;
use cost_layers::unite_along;
use run_graph::Side;
use space_api::{Space, SpaceFault};

/// The states of a set, and those of `to` into which operators of cost `w` lead from the other set. The states from
/// which they lead into `to` come first: they are few, and so is what they lead to.
fn land_back<S: Space>(
    space: &mut S,
    from: S::Set,
    w: u64,
    to: S::Set,
    landed: S::Set,
) -> Result<S::Set, SpaceFault>
    requires from { Valid (S.view space.old) from }
    requires to { Valid (S.view space.old) to }
    requires landed { Valid (S.view space.old) landed }
    ensures kept { Kept (S.view space.old) (S.view space.new) }
    ensures ok { IfOk result (Gives (S.view space.old) (S.view space.new) (λ s. Has (S.view space.old) landed
        s ⊎ AlongIn (seen_from Ahead (S.view space.old).system) (S.view space.old) w from to s)) }
    ensures err { OnErr result (NoMore (S.view space.old) (S.view space.new)) }
{
    let before = space.pre_cost(w, to, from)?;
    let more = unite_along(space, Side::Ahead, to, landed, w, before);
    space.forget(before);
    more
}

/// The same, by a step of this side.
fn land_from<S: Space>(
    space: &mut S,
    from: S::Set,
    w: u64,
    to: S::Set,
    landed: S::Set,
    by: Side,
) -> Result<S::Set, SpaceFault>
    requires from { Valid (S.view space.old) from }
    requires to { Valid (S.view space.old) to }
    requires landed { Valid (S.view space.old) landed }
    ensures kept { Kept (S.view space.old) (S.view space.new) }
    ensures ok { IfOk result (Gives (S.view space.old) (S.view space.new) (λ s. Has (S.view space.old) landed
        s ⊎ AlongIn (seen_from Ahead (S.view space.old).system) (S.view space.old) w from to s)) }
    ensures err { OnErr result (NoMore (S.view space.old) (S.view space.new)) }
{
    match by {
        Side::Ahead => unite_along(space, Side::Ahead, to, landed, w, from),
        Side::Back => land_back(space, from, w, to, landed),
    }
}

/// The same in place of the set, which is given back, also when out of memory.
fn add_from<S: Space>(
    space: &mut S,
    from: S::Set,
    w: u64,
    to: S::Set,
    landed: S::Set,
    by: Side,
) -> Result<S::Set, SpaceFault>
    requires from { Valid (S.view space.old) from }
    requires to { Valid (S.view space.old) to }
    requires landed { Valid (S.view space.old) landed }
    ensures ok { IfOk result (Joins (S.view space.old) (S.view space.new) landed
        (AlongIn (seen_from Ahead (S.view space.old).system) (S.view space.old) w from to)) }
    ensures err { OnErr result (Trades (S.view space.old) (S.view space.new) (λ a. a ≡ landed) (λ a. ⊥)) }
{
    let more = land_from(space, from, w, to, landed, by);
    space.forget(landed);
    more
}

/// The states of `to` into which operators of cost `w` cross at this cost, beside those of a set that they take the
/// place of.
fn add_landing<S: Space>(
    space: &mut S,
    meeting: Meeting<'_, S::Set>,
    cost: u64,
    z: u64,
    w: u64,
    to: S::Set,
    landed: S::Set,
) -> Result<S::Set, SpaceFault>
    requires layers { AreHeld (S.view space.old) meeting }
    requires to { Valid (S.view space.old) to }
    requires landed { Valid (S.view space.old) landed }
    ensures ok { IfOk result (Joins (S.view space.old) (S.view space.new) landed
        (LandsBy (S.view space.old).system (Stands (S.view space.old) meeting.entry.front.now) (Has (S.view space.old) to)
        cost meeting.entry.b z w)) }
    ensures err { OnErr result (Trades (S.view space.old) (S.view space.new) (λ a. a ≡ landed) (λ a. ⊥)) }
{
    match cost_before(cost, meeting.b, w, z) {
        Some(x) => match meeting.front.layer(x) {
            Some(whole) => add_from(space, whole, w, to, landed, meeting.by),
            None => Ok(landed),
        },
        None => Ok(landed),
    }
}

/// The states of `to` into which operators cross at this cost, as a new set.
pub(crate) fn landing<S: Space>(
    space: &mut S,
    meeting: Meeting<'_, S::Set>,
    cost: u64,
    z: u64,
    to: S::Set,
) -> Result<S::Set, SpaceFault>
    requires layers { AreHeld (S.view space.old) meeting }
    requires to { Valid (S.view space.old) to }
    ensures kept { Kept (S.view space.old) (S.view space.new) }
    ensures ok { IfOk result (Gives (S.view space.old) (S.view space.new) (Lands (S.view space.old).system
        (Stands (S.view space.old) meeting.entry.front.now) (Has (S.view space.old) to) cost meeting.entry.b z)) }
    ensures err { OnErr result (NoMore (S.view space.old) (S.view space.new)) }
{
    let mut landed = space.empty()?;
    'costs: for i in 0..space.costs() {
        let w = space.cost_at(i);
        landed = add_landing(space, meeting, cost, z, w, to, landed)?;
    }
    Ok(landed)
}
