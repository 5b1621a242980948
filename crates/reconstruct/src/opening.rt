//! Cuts, opened.

ghost use Rattle.std.specs.Prelude.{IfOk, OnErr};
ghost use Rattle.space_api.specs.View.{View, Valid};
ghost use Rattle.space_api.specs.Frames.{Stays};
ghost use Rattle.cost_layers.specs.Layers.{Held};
ghost use Rattle.reconstruct.specs.Opened.{IsDrawable, OpensCross, OpenedEntry, OpenedWhole, OpenedCross};

use crate::entries::{Entry, Prefix, Suffix};
use crate::ways::{first_ring, least_ring};
use cost_layers::Layers;
use plan_cuts::Cut;
use space_api::{Space, SpaceFault, start};
use std::alloc::{AllocError, Global};

/// The entry of plans that are not cut: the suffix of this cost from the initial state on.
fn open_whole<S: Space>(
    alloc: Global,
    space: &S,
    back: &Layers<S::Set>,
    cost: u64,
) -> Result<Entry<S::Set>, SpaceFault>
    requires back { Held (S.view space.now) back.now }
    ensures { IfOk result (OpenedWhole (S.view space.now) back.now cost) }
{
    let state = start(alloc, space)?;
    let ring = first_ring(space, back, cost, &state);
    Ok(Entry::After(Suffix {
        state,
        cost,
        ring,
        operators: Vec::new(alloc),
    }))
}

/// The prefix of cost `x` from this set on, which ends with the crossing operator.
fn cross_from<S: Space>(
    alloc: Global,
    space: &mut S,
    front: &Layers<S::Set>,
    x: u64,
    op: u32,
    y: u64,
    set: S::Set,
) -> Result<Prefix<S::Set>, SpaceFault>
    requires front { Held (S.view space.old) front.now }
    requires set { Valid (S.view space.old) set }
    ensures stays { Stays (S.view space.old) (S.view space.new) }
    ensures ok { IfOk result (OpensCross (S.view space.old) front.now x op y set) }
{
    let ring = least_ring(space, front, x, set)?;
    let mut operators = Vec::new(alloc);
    operators.push(op)?;
    Ok(Prefix {
        set,
        cost: x,
        ring,
        operators,
        after: y,
    })
}

/// The entry of plans that are cut at this operator, from one layer into the other.
fn open_cross<S: Space>(
    alloc: Global,
    space: &mut S,
    front: &Layers<S::Set>,
    back: &Layers<S::Set>,
    x: u64,
    op: u32,
    y: u64,
) -> Result<Entry<S::Set>, SpaceFault>
    requires front { Held (S.view space.old) front.now }
    requires back { Held (S.view space.old) back.now }
    requires cut { IsDrawable (S.view space.old) front.now back.now (Cut.Cross x op y) }
    ensures ok { IfOk result (OpenedCross (S.view space.old) (S.view space.new) front.now back.now x op y) }
    ensures err { OnErr result (Stays (S.view space.old) (S.view space.new)) }
{
    match (front.layer(x), back.layer(y)) {
        (Some(before), Some(after)) => {
            let set = space.pre_op(op, after, before)?;
            match cross_from(alloc, space, front, x, op, y, set) {
                Ok(prefix) => Ok(Entry::Before(prefix)),
                Err(fault) => {
                    space.forget(set);
                    Err(fault)
                }
            }
        }
        _ => Err(AllocError),
    }
}

/// The first entry of a cut of plans of this cost. Out of memory, it leaves all sets as they were.
pub(crate) fn open_cut<S: Space>(
    alloc: Global,
    space: &mut S,
    front: &Layers<S::Set>,
    back: &Layers<S::Set>,
    cost: u64,
    cut: Cut,
) -> Result<Entry<S::Set>, SpaceFault>
    requires front { Held (S.view space.old) front.now }
    requires back { Held (S.view space.old) back.now }
    requires cut { IsDrawable (S.view space.old) front.now back.now cut }
    ensures ok { IfOk result (OpenedEntry (S.view space.old) (S.view space.new) front.now back.now cost cut) }
    ensures err { OnErr result (Stays (S.view space.old) (S.view space.new)) }
{
    match cut {
        Cut::Whole => open_whole(alloc, space, back, cost),
        Cut::Cross { x, op, y } => open_cross(alloc, space, front, back, x, op, y),
    }
}
