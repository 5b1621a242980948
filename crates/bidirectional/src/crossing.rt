//! The least cost at which layers of both sides meet.

use cost_layers::Layers;
use run_graph::Side;

/// The two sides where they meet: the forward layers, the backward ones, what these are known below, and the set that
/// their states are kept to; by which side's steps it is found where they meet, and whether a step back is made inside
/// that set, as the backward side makes it when it goes on, or inside a forward layer.
#[derive(Clone, Copy)]
pub(crate) struct Meeting<'a, T> {
    pub(crate) front: &'a Layers<T>,
    pub(crate) back: &'a Layers<T>,
    pub(crate) b: u128,
    pub(crate) room: &'a T,
    pub(crate) by: Side,
    pub(crate) whole: bool,
}

ghost use Rattle.std.specs.Prelude.{◌≡◌, ◌+◌, ◌<◌, ◌≤◌, ◌^◌, ◌↔◌, ℕ, None, IsTrue, IfOk, MatchOption};
ghost use Rattle.task_system.specs.System.{State};
ghost use Rattle.space_api.specs.View.{View, Valid, Has, CostPreimage};
ghost use Rattle.space_api.specs.Frames.{Stays};
ghost use Rattle.run_graph.specs.Layering.{InLayer};
ghost use Rattle.cost_layers.specs.Layers.{union_at, Held, Stands};
ghost use Rattle.bidirectional.specs.Crossing.{AreHeld, LeadsOnlyFrom, MeetsBy, CrossAt, CrossBy, CrossIn, IsLeastOf, IsLeastWhole};

use cost_search::cost_after;
use space_api::{Space, SpaceFault, meets};

/// The first cost from this bound on that has a layer.
pub(crate) fn cost_from<T: Copy>(layers: &Layers<T>, bound: u128) -> Option<u64>
    ensures { MatchOption result ((c : ℕ) → bound ≤ c → c < 2 ^ 64 → union_at layers.now c ≡ None)
        (λ n. (bound ≤ n) × (n < 2 ^ 64) × ((c : ℕ) → bound ≤ c → c < n → union_at layers.now c ≡ None)) }
{
    if bound < (1u128 << 64) {
        layers.next_cost(bound as u64)
    } else {
        None
    }
}

/// Whether an operator of cost `w` leads from one set into the other, by what leads into it from a set that has each
/// such state.
fn meets_back<S: Space>(
    space: &mut S,
    from: S::Set,
    w: u64,
    to: S::Set,
    room: S::Set,
) -> Result<bool, SpaceFault>
    requires from { Valid (S.view space.old) from }
    requires to { Valid (S.view space.old) to }
    requires room { Valid (S.view space.old) room }
    requires inside { (s : State) → CostPreimage (S.view space.old) w to from s → Has (S.view space.old) room s }
    ensures stays { Stays (S.view space.old) (S.view space.new) }
    ensures ok { IfOk result (λ r. IsTrue r ↔ ((s : State) × CostPreimage (S.view space.old) w to from s)) }
{
    let before = space.pre_cost(w, to, room)?;
    let some = meets(space, before, from);
    space.forget(before);
    some
}

/// Whether an operator of cost `w` leads from one set into the other, by what it leads to.
fn meets_ahead<S: Space>(
    space: &mut S,
    from: S::Set,
    w: u64,
    to: S::Set,
) -> Result<bool, SpaceFault>
    requires from { Valid (S.view space.old) from }
    requires to { Valid (S.view space.old) to }
    ensures stays { Stays (S.view space.old) (S.view space.new) }
    ensures ok { IfOk result (λ r. IsTrue r ↔ ((s : State) × CostPreimage (S.view space.old) w to from s)) }
{
    let image = space.image_cost(w, from)?;
    let some = meets(space, image, to);
    space.forget(image);
    some
}

/// Whether an operator of cost `w` leads from one set into the other, by a step of this side; a step back is made inside
/// a set that has each state from which one does.
fn meets_by<S: Space>(
    space: &mut S,
    from: S::Set,
    w: u64,
    to: S::Set,
    room: S::Set,
    by: Side,
) -> Result<bool, SpaceFault>
    requires from { Valid (S.view space.old) from }
    requires to { Valid (S.view space.old) to }
    requires room { Valid (S.view space.old) room }
    requires inside { (s : State) → CostPreimage (S.view space.old) w to from s → Has (S.view space.old) room s }
    ensures stays { Stays (S.view space.old) (S.view space.new) }
    ensures ok { IfOk result (λ r. IsTrue r ↔ ((s : State) × CostPreimage (S.view space.old) w to from s)) }
{
    match by {
        Side::Ahead => meets_ahead(space, from, w, to),
        Side::Back => meets_back(space, from, w, to, room),
    }
}

/// Whether an operator of cost `w` leads from forward layer `x` into the set, as it is to be found where sides meet.
fn layer_meets<S: Space>(
    space: &mut S,
    meeting: Meeting<'_, S::Set>,
    x: u64,
    w: u64,
    to: S::Set,
) -> Result<bool, SpaceFault>
    requires layers { AreHeld (S.view space.old) meeting }
    requires to { Valid (S.view space.old) to }
    requires inside { LeadsOnlyFrom (S.view space.old).system (Stands (S.view space.old) meeting.front.now)
        (Has (S.view space.old) to) (Has (S.view space.old) meeting.room.now) }
    ensures stays { Stays (S.view space.old) (S.view space.new) }
    ensures ok { IfOk result (λ r. IsTrue r ↔ MeetsBy (S.view space.old).system
        (Stands (S.view space.old) meeting.entry.front.now) (Has (S.view space.old) to) x w) }
{
    match meeting.front.layer(x) {
        Some(layer) if meeting.whole => {
            Ok(meets_by(space, layer, w, to, *meeting.room, meeting.by)?)
        }
        Some(layer) => Ok(meets_by(space, layer, w, to, layer, meeting.by)?),
        None => Ok(false),
    }
}

/// The same, by what leads into the set from the layer.
pub(crate) fn layer_leads_by<S: Space>(
    space: &mut S,
    front: &Layers<S::Set>,
    x: u64,
    w: u64,
    to: S::Set,
) -> Result<bool, SpaceFault>
    requires front { Held (S.view space.old) front.now }
    requires to { Valid (S.view space.old) to }
    ensures stays { Stays (S.view space.old) (S.view space.new) }
    ensures ok { IfOk result (λ r. IsTrue r ↔ MeetsBy (S.view space.old).system
        (Stands (S.view space.old) front.now) (Has (S.view space.old) to) x w) }
{
    match front.layer(x) {
        Some(layer) => Ok(meets_back(space, layer, w, to, layer)?),
        None => Ok(false),
    }
}

/// The least cost from `low` on and below `high` at which a forward layer meets the set by an operator of cost `w`,
/// if what is left would no longer be below b with it; `high` where there is none.
fn least_by<S: Space>(
    space: &mut S,
    meeting: Meeting<'_, S::Set>,
    z: u64,
    w: u64,
    to: S::Set,
    low: u128,
    high: u128,
) -> Result<u128, SpaceFault>
    requires layers { AreHeld (S.view space.old) meeting }
    requires to { Valid (S.view space.old) to }
    requires inside { LeadsOnlyFrom (S.view space.old).system (Stands (S.view space.old) meeting.front.now)
        (Has (S.view space.old) to) (Has (S.view space.old) meeting.room.now) }
    requires range { high ≤ 2 ^ 64 }
    ensures stays { Stays (S.view space.old) (S.view space.new) }
    ensures ok { IfOk result (IsLeastOf (CrossAt (S.view space.old).system
        (Stands (S.view space.old) meeting.entry.front.now) (Has (S.view space.old) to) meeting.entry.b z w) low high) }
{
    let part = w as u128 + z as u128;
    if part < meeting.b {
        return Ok(high);
    }
    let mut next = cost_from(meeting.front, low.saturating_sub(part));
    'costs: while let Some(x) = next {
        let cost = x as u128 + part;
        if high <= cost {
            return Ok(high);
        }
        if layer_meets(space, meeting, x, w, to)? {
            return Ok(cost);
        }
        next = cost_after(meeting.front, x);
    }
    Ok(high)
}

/// The same, by an operator of any cost.
fn least_into<S: Space>(
    space: &mut S,
    meeting: Meeting<'_, S::Set>,
    z: u64,
    to: S::Set,
    low: u128,
    high: u128,
) -> Result<u128, SpaceFault>
    requires layers { AreHeld (S.view space.old) meeting }
    requires to { Valid (S.view space.old) to }
    requires inside { LeadsOnlyFrom (S.view space.old).system (Stands (S.view space.old) meeting.front.now)
        (Has (S.view space.old) to) (Has (S.view space.old) meeting.room.now) }
    requires range { high ≤ 2 ^ 64 }
    ensures stays { Stays (S.view space.old) (S.view space.new) }
    ensures ok { IfOk result (IsLeastOf (CrossBy (S.view space.old).system
        (Stands (S.view space.old) meeting.entry.front.now) (Has (S.view space.old) to) meeting.entry.b z) low high) }
{
    let mut least = high;
    'costs: for i in 0..space.costs() {
        let w = space.cost_at(i);
        least = least_by(space, meeting, z, w, to, low, least)?;
    }
    Ok(least)
}

/// The same, into the backward layer of this cost.
fn least_at<S: Space>(
    space: &mut S,
    meeting: Meeting<'_, S::Set>,
    z: u64,
    low: u128,
    high: u128,
) -> Result<u128, SpaceFault>
    requires layers { AreHeld (S.view space.old) meeting }
    requires range { high ≤ 2 ^ 64 }
    ensures stays { Stays (S.view space.old) (S.view space.new) }
    ensures ok { IfOk result (IsLeastOf (CrossBy (S.view space.old).system
        (Stands (S.view space.old) meeting.entry.front.now) (InLayer (Stands (S.view space.old) meeting.entry.back.now) z)
        meeting.entry.b z) low high) }
{
    match meeting.back.layer(z) {
        Some(whole) => least_into(space, meeting, z, whole, low, high),
        None => Ok(high),
    }
}

/// The greatest cost of an operator, 0 where there is none.
fn dearest<S: Space>(space: &S) -> u64
    ensures { (op : ℕ) → op < (S.view space.now).system.operators → (S.view space.now).system.cost op ≤ result }
{
    let mut most = 0;
    'costs: for i in 0..space.costs() {
        most = most.max(space.cost_at(i));
    }
    most
}

/// The least cost from `low` on and below `high` at which layers of both sides meet; `high` where there is none. An
/// operator crosses into no layer that even the dearest one leaves below b.
pub(crate) fn least_cross<S: Space>(
    space: &mut S,
    meeting: Meeting<'_, S::Set>,
    low: u128,
    high: u128,
) -> Result<u128, SpaceFault>
    requires layers { AreHeld (S.view space.old) meeting }
    requires range { high ≤ 2 ^ 64 }
    ensures stays { Stays (S.view space.old) (S.view space.new) }
    ensures ok { IfOk result (IsLeastOf (CrossIn (S.view space.old).system
        (Stands (S.view space.old) meeting.entry.front.now) (Stands (S.view space.old) meeting.entry.back.now) meeting.entry.b) low high) }
{
    let mut least = high;
    let mut next = cost_from(
        meeting.back,
        meeting.b.saturating_sub(dearest(space) as u128),
    );
    'costs: while let Some(z) = next {
        least = least_at(space, meeting, z, low, least)?;
        next = cost_after(meeting.back, z);
    }
    Ok(least)
}

/// Whether the backward layer of this cost has the initial state.
pub(crate) fn has_start<S: Space>(space: &S, back: &Layers<S::Set>, z: u64) -> bool
    requires { Held (S.view space.now) back.now }
    ensures { IsTrue result ↔ InLayer (Stands (S.view space.now) back.now) z (S.view space.now).system.initial }
{
    match back.layer(z) {
        Some(whole) => space.has_init(whole),
        None => false,
    }
}

/// The least cost from `low` on whose backward layer has the initial state.
pub(crate) fn least_whole<S: Space>(space: &S, back: &Layers<S::Set>, low: u128) -> Option<u64>
    requires { Held (S.view space.now) back.now }
    ensures { IsLeastWhole (S.view space.now).system (Stands (S.view space.now) back.now) low result }
{
    let mut next = cost_from(back, low);
    'costs: while let Some(z) = next {
        if has_start(space, back, z) {
            return Some(z);
        }
        next = cost_after(back, z);
    }
    None
}
