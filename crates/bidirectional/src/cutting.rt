//! The cuts of one cost, one after the other.

/// Operators that cross, in order, and the cost that is left after each.
#[derive(Drop)]
pub(crate) struct Crossing {
    pub(crate) z: u64,
    pub(crate) ops: Vec<u32>,
}

/// How many crossings are wanted of those that leave the same cost.
#[derive(Clone, Copy)]
pub(crate) enum Wanted {
    One,
    All,
}

/// A place in the order of crossings: first by the cost that is left, then by the operator.
#[derive(Clone, Copy)]
pub(crate) struct Place {
    pub(crate) z: u64,
    pub(crate) op: u64,
}

ghost use Rattle.std.specs.Prelude.{◌≡◌, ◌+◌, ◌<◌, ◌≤◌, ◌↔◌, ℕ, IsTrue, IfOk, MatchOption, All, map};
ghost use Rattle.task_system.specs.System.{State};
ghost use Rattle.space_api.specs.View.{View, Valid, Has, Preimage};
ghost use Rattle.space_api.specs.Frames.{Stays};
ghost use Rattle.run_graph.specs.Layering.{InLayer};
ghost use Rattle.cost_layers.specs.Layers.{union_at, Held, Stands};
ghost use Rattle.bidirectional.specs.Crossing.{AreHeld};
ghost use Rattle.bidirectional.specs.Cutting.{LeadsFromLayer, CutsBy, IsFirstOp, HasEach, Begin, AreFirstCuts, cross_at};

use crate::crossing::{Meeting, cost_from, layer_leads_by};
use crate::landing::landing;
use cost_layers::Layers;
use cost_search::cost_after;
use plan_cuts::Cut;
use space_api::{Space, SpaceFault};
use std::alloc::Global;

/// Whether the operator leads from one set into the other.
fn leads_into<S: Space>(
    space: &mut S,
    from: S::Set,
    op: u32,
    to: S::Set,
) -> Result<bool, SpaceFault>
    requires from { Valid (S.view space.old) from }
    requires to { Valid (S.view space.old) to }
    requires op { op < (S.view space.old).system.operators }
    ensures stays { Stays (S.view space.old) (S.view space.new) }
    ensures ok { IfOk result (λ r. IsTrue r ↔ ((s : State) × Preimage (S.view space.old) op to from s)) }
{
    let before = space.pre_op(op, to, from)?;
    let empty = space.is_empty(before);
    space.forget(before);
    Ok(!empty)
}

/// Whether the operator leads from layer `x` into the set.
fn layer_leads<S: Space>(
    space: &mut S,
    front: &Layers<S::Set>,
    x: u64,
    op: u32,
    to: S::Set,
) -> Result<bool, SpaceFault>
    requires front { Held (S.view space.old) front.now }
    requires to { Valid (S.view space.old) to }
    requires op { op < (S.view space.old).system.operators }
    ensures stays { Stays (S.view space.old) (S.view space.new) }
    ensures ok { IfOk result (λ r. IsTrue r ↔ LeadsFromLayer (S.view space.old).system
        (Stands (S.view space.old) front.now) (Has (S.view space.old) to) x op) }
{
    match front.layer(x) {
        Some(whole) => Ok(leads_into(space, whole, op, to)?),
        None => Ok(false),
    }
}

/// The cost before an operator of cost `w`, where what is left is `z`; None where the sums are not those of a cut.
pub(crate) fn cost_before(cost: u64, b: u128, w: u64, z: u64) -> Option<u64>
    ensures { MatchOption result ((x : ℕ) → x + w + z ≡ cost → b ≤ z + w → ⊥) (λ x. (x + w + z ≡ cost) × (b ≤ z + w)) }
{
    let part = w as u128 + z as u128;
    if part < b || (cost as u128) < part {
        return None;
    }
    Some((cost as u128 - part) as u64)
}

/// Whether forward layers meet the set by operators of cost `w`, at this cost.
fn cost_meets<S: Space>(
    space: &mut S,
    meeting: Meeting<'_, S::Set>,
    cost: u64,
    z: u64,
    w: u64,
    to: S::Set,
) -> Result<bool, SpaceFault>
    requires layers { AreHeld (S.view space.old) meeting }
    requires to { Valid (S.view space.old) to }
    ensures stays { Stays (S.view space.old) (S.view space.new) }
    ensures ok { IfOk result (λ r. (op : ℕ) → (S.view space.old).system.cost op ≡ w
        → CutsBy (S.view space.old).system (Stands (S.view space.old) meeting.entry.front.now) (Has (S.view space.old) to)
        cost meeting.entry.b z op → IsTrue r) }
{
    match cost_before(cost, meeting.b, w, z) {
        Some(x) => layer_leads_by(space, meeting.front, x, w, to),
        None => Ok(false),
    }
}

/// The costs of operators by which forward layers meet the set, at this cost: each is tested once.
fn meeting_costs<S: Space>(
    alloc: Global,
    space: &mut S,
    meeting: Meeting<'_, S::Set>,
    cost: u64,
    z: u64,
    to: S::Set,
) -> Result<Vec<u64>, SpaceFault>
    requires layers { AreHeld (S.view space.old) meeting }
    requires to { Valid (S.view space.old) to }
    ensures stays { Stays (S.view space.old) (S.view space.new) }
    ensures ok { IfOk result (λ costs. HasEach (S.view space.old).system (Stands (S.view space.old) meeting.entry.front.now)
        (Has (S.view space.old) to) cost meeting.entry.b z costs.items) }
{
    let mut costs = Vec::new(alloc);
    'costs: for i in 0..space.costs() {
        let w = space.cost_at(i);
        if cost_meets(space, meeting, cost, z, w, to)? {
            costs.push(w)?;
        }
    }
    Ok(costs)
}

/// Whether the operator crosses into the set at this cost; no operator whose cost isn't listed is tried.
fn op_cuts<S: Space>(
    space: &mut S,
    meeting: Meeting<'_, S::Set>,
    cost: u64,
    z: u64,
    op: u32,
    costs: &[u64],
    to: S::Set,
) -> Result<bool, SpaceFault>
    requires layers { AreHeld (S.view space.old) meeting }
    requires to { Valid (S.view space.old) to }
    requires op { op < (S.view space.old).system.operators }
    requires costs { HasEach (S.view space.old).system (Stands (S.view space.old) meeting.front.now)
        (Has (S.view space.old) to) cost meeting.b z costs.now }
    ensures stays { Stays (S.view space.old) (S.view space.new) }
    ensures ok { IfOk result (λ r. IsTrue r ↔ CutsBy (S.view space.old).system
        (Stands (S.view space.old) meeting.entry.front.now) (Has (S.view space.old) to) cost meeting.entry.b z op) }
{
    let w = space.cost_of(op);
    if !costs.contains(&w) {
        return Ok(false);
    }
    match cost_before(cost, meeting.b, w, z) {
        Some(x) => layer_leads(space, meeting.front, x, op, to),
        None => Ok(false),
    }
}

/// The operators from this place on that cross into the set at this cost and leave what it leaves, in order; all,
/// unless one is wanted. None is tried that leads into no state of it.
fn ops_among<S: Space>(
    alloc: Global,
    space: &mut S,
    meeting: Meeting<'_, S::Set>,
    cost: u64,
    place: Place,
    to: S::Set,
    wanted: Wanted,
) -> Result<Vec<u32>, SpaceFault>
    requires layers { AreHeld (S.view space.old) meeting }
    requires to { Valid (S.view space.old) to }
    ensures stays { Stays (S.view space.old) (S.view space.new) }
    ensures ok { IfOk result (λ ops. Begin (IsFirstOp (S.view space.old).system
        (Stands (S.view space.old) meeting.entry.front.now) (Has (S.view space.old) to) cost meeting.entry.b place.z)
        wanted place.op ops.items) }
{
    let costs = meeting_costs(alloc, space, meeting, cost, place.z, to)?;
    let ops = space.operators_into(alloc, to)?;
    let mut found = Vec::new(alloc);
    'operators: for op in &ops {
        if place.op <= *op as u64 && op_cuts(space, meeting, cost, place.z, *op, &costs, to)? {
            found.push(*op)?;
            if let Wanted::One = wanted {
                return Ok(found);
            }
        }
    }
    Ok(found)
}

/// The same; no operator is asked for where the set has no state.
fn ops_landed<S: Space>(
    alloc: Global,
    space: &mut S,
    meeting: Meeting<'_, S::Set>,
    cost: u64,
    place: Place,
    to: S::Set,
    wanted: Wanted,
) -> Result<Vec<u32>, SpaceFault>
    requires layers { AreHeld (S.view space.old) meeting }
    requires to { Valid (S.view space.old) to }
    ensures stays { Stays (S.view space.old) (S.view space.new) }
    ensures ok { IfOk result (λ ops. Begin (IsFirstOp (S.view space.old).system
        (Stands (S.view space.old) meeting.entry.front.now) (Has (S.view space.old) to) cost meeting.entry.b place.z)
        wanted place.op ops.items) }
{
    if space.is_empty(to) {
        return Ok(Vec::new(alloc));
    }
    ops_among(alloc, space, meeting, cost, place, to, wanted)
}

/// The same. They are looked for among those that lead into the states of the set into which some operator crosses,
/// which are few; these are found once.
fn ops_from<S: Space>(
    alloc: Global,
    space: &mut S,
    meeting: Meeting<'_, S::Set>,
    cost: u64,
    place: Place,
    to: S::Set,
    wanted: Wanted,
) -> Result<Vec<u32>, SpaceFault>
    requires layers { AreHeld (S.view space.old) meeting }
    requires to { Valid (S.view space.old) to }
    ensures stays { Stays (S.view space.old) (S.view space.new) }
    ensures ok { IfOk result (λ ops. Begin (IsFirstOp (S.view space.old).system
        (Stands (S.view space.old) meeting.entry.front.now) (Has (S.view space.old) to) cost meeting.entry.b place.z)
        wanted place.op ops.items) }
{
    let landed = landing(space, meeting, cost, place.z, to)?;
    let ops = ops_landed(alloc, space, meeting, cost, place, landed, wanted);
    space.forget(landed);
    ops
}

/// The same, into the backward layer of the cost that is left.
fn ops_into<S: Space>(
    alloc: Global,
    space: &mut S,
    meeting: Meeting<'_, S::Set>,
    cost: u64,
    place: Place,
    wanted: Wanted,
) -> Result<Vec<u32>, SpaceFault>
    requires layers { AreHeld (S.view space.old) meeting }
    ensures stays { Stays (S.view space.old) (S.view space.new) }
    ensures ok { IfOk result (λ ops. Begin (IsFirstOp (S.view space.old).system
        (Stands (S.view space.old) meeting.entry.front.now) (InLayer (Stands (S.view space.old) meeting.entry.back.now) place.z)
        cost meeting.entry.b place.z) wanted place.op ops.items) }
{
    match meeting.back.layer(place.z) {
        Some(whole) => ops_from(alloc, space, meeting, cost, place, whole, wanted),
        None => Ok(Vec::new(alloc)),
    }
}

/// Where the operators begin: at the given one in its own layer, and at the first in a later one.
fn first_op(z: u64, first: Place) -> u64
    ensures { (z ≡ first.z → result ≡ first.op) × (first.z < z → result ≡ 0) }
{
    if z == first.z { first.op } else { 0 }
}

/// The operators by which layers of both sides meet at this cost where the least cost is left at which some do, from
/// this place on; all of them, unless one is wanted. None where no layers meet.
pub(crate) fn first_cross<S: Space>(
    alloc: Global,
    space: &mut S,
    meeting: Meeting<'_, S::Set>,
    cost: u64,
    first: Place,
    wanted: Wanted,
) -> Result<Option<Crossing>, SpaceFault>
    requires layers { AreHeld (S.view space.old) meeting }
    ensures stays { Stays (S.view space.old) (S.view space.new) }
    ensures ok { IfOk result (AreFirstCuts (S.view space.old).system (Stands (S.view space.old) meeting.entry.front.now)
        (Stands (S.view space.old) meeting.entry.back.now) cost meeting.entry.b wanted first.z first.op) }
{
    let mut next = cost_from(meeting.back, first.z as u128);
    'costs: while let Some(z) = next {
        let place = Place {
            z,
            op: first_op(z, first),
        };
        let ops = ops_into(alloc, space, meeting, cost, place, wanted)?;
        if !ops.is_empty() {
            return Ok(Some(Crossing { z, ops }));
        }
        next = cost_after(meeting.back, z);
    }
    Ok(None)
}

/// The cuts of plans of this cost by these operators, `z` being what is left after each.
pub(crate) fn cuts_by<S: Space>(
    alloc: Global,
    space: &S,
    cost: u64,
    z: u64,
    ops: &[u32],
) -> Result<Vec<Cut>, SpaceFault>
    requires known { All (λ op. op < (S.view space.now).system.operators) ops.now }
    requires sums { All (λ op. (S.view space.now).system.cost op + z ≤ cost) ops.now }
    ensures { IfOk result (λ cuts. cuts.items ≡ map (cross_at (S.view space.now).system cost z) ops.now) }
{
    let mut cuts = Vec::with_capacity(alloc, ops.len())?;
    'operators: for op in ops {
        cuts.push(Cut::Cross {
            x: cost - z - space.cost_of(*op),
            op: *op,
            y: z,
        })?;
    }
    Ok(cuts)
}
