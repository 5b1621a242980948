//! The children of a prefix, each with a set of its own.

/// A step backwards out of a prefix's set: the operator, its cost, and the states from which it leads there.
#[derive(Clone, Copy)]
struct StepBack<T: Copy> {
    op: u32,
    cost: u64,
    set: T,
}

ghost use Rattle.std.specs.Prelude.{IfSome, ◌≡◌, ◌<◌, ◌≤◌, ◌++◌, [], IfOk, OnOk, OnErr};
ghost use Rattle.space_api.specs.View.{View, Valid, HasMember};
ghost use Rattle.space_api.specs.Frames.{Kept, Stays};
ghost use Rattle.space_api.specs.Operators.{LeadInto};
ghost use Rattle.cost_layers.specs.Layers.{Held};
ghost use Rattle.reconstruct.specs.Entries.{EntryOk, MakesEntries};
ghost use Rattle.reconstruct.specs.Ways.{IsWay, FoundBefore};
ghost use Rattle.reconstruct.specs.Grown.{GrownBefore, PutsBefore, MakesOn, AddsBefore, GathersBefore};

use crate::children::Children;
use crate::entries::{Entry, Prefix, prepend};
use crate::partial::{all_listed, is_partial, put_partial};
use crate::ways::{Way, least_ring, way_after, way_for};
use cost_layers::Layers;
use space_api::{Space, SpaceFault};
use std::alloc::Global;

/// The prefix that grows by this step.
fn grow_before<S: Space>(
    alloc: Global,
    space: &mut S,
    front: &Layers<S::Set>,
    prefix: &Prefix<S::Set>,
    step: StepBack<S::Set>,
) -> Result<Prefix<S::Set>, SpaceFault>
    requires held { Held (S.view space.old) front.now }
    requires set { Valid (S.view space.old) step.set }
    requires fits { step.cost ≤ prefix.now.cost }
    ensures stays { Stays (S.view space.old) (S.view space.new) }
    ensures ok { IfOk result (GrownBefore (S.view space.old) front.now prefix.now step.op step.cost step.set) }
{
    let cost = prefix.cost - step.cost;
    let ring = least_ring(space, front, cost, step.set)?;
    let operators = prepend(alloc, step.op, &prefix.operators)?;
    Ok(Prefix {
        set: step.set,
        cost,
        ring,
        operators,
        after: prefix.after,
    })
}

/// The child by this step is made and put last. A refusal leaves the children as they were.
fn put_grown<S: Space>(
    alloc: Global,
    space: &mut S,
    front: &Layers<S::Set>,
    prefix: &Prefix<S::Set>,
    step: StepBack<S::Set>,
    children: &mut Children<S::Set>,
) -> Result<(), SpaceFault>
    requires front { Held (S.view space.old) front.now }
    requires set { Valid (S.view space.old) step.set }
    requires fits { step.cost ≤ prefix.now.cost }
    ensures stays { Stays (S.view space.old) (S.view space.new) }
    ensures ok { OnOk result (PutsBefore (S.view space.old) front.now prefix.now step.op step.cost step.set
        children.old.level.items children.old.falling.items children.new.level.items children.new.falling.items) }
    ensures level { OnErr result (children.new.level.items ≡ children.old.level.items) }
    ensures falling { OnErr result (children.new.falling.items ≡ children.old.falling.items) }
{
    let child = grow_before(alloc, space, front, prefix, step)?;
    children.put_before(prefix.cost, prefix.ring, child)
}

/// The states of the layer from which the operator leads into the set. None where there is none.
pub(crate) fn set_before<S: Space>(
    space: &mut S,
    prefix: &Prefix<S::Set>,
    op: u32,
    within: S::Set,
) -> Result<Option<S::Set>, SpaceFault>
    requires set { Valid (S.view space.old) prefix.now.set }
    requires within { Valid (S.view space.old) within }
    requires op { op < (S.view space.old).system.operators }
    ensures kept { Kept (S.view space.old) (S.view space.new) }
    ensures ok { IfOk result (FoundBefore (S.view space.old) (S.view space.new) prefix.now op within) }
    ensures member { IfOk result (λ found. IfSome found (HasMember (S.view space.new))) }
    ensures err { OnErr result (Stays (S.view space.old) (S.view space.new)) }
{
    let found = space.pre_op(op, prefix.set, within)?;
    if space.is_empty(found) {
        space.forget(found);
        return Ok(None);
    }
    Ok(Some(found))
}

/// Adds the child by this operator, if there is one.
fn add_before<S: Space>(
    alloc: Global,
    space: &mut S,
    front: &Layers<S::Set>,
    prefix: &Prefix<S::Set>,
    way: Way<S::Set>,
    op: u32,
    children: &mut Children<S::Set>,
) -> Result<(), SpaceFault>
    requires front { Held (S.view space.old) front.now }
    requires entry { EntryOk (S.view space.old) (Entry.Before prefix.now) }
    requires op { op < (S.view space.old).system.operators }
    requires cost { way.cost ≡ (S.view space.old).system.cost op }
    requires way { IsWay front.now prefix.now.cost way }
    ensures makes { MakesOn (S.view space.old) (S.view space.new)
        (children.old.level.items ++ children.old.falling.items)
        (children.new.level.items ++ children.new.falling.items) }
    ensures added { OnOk result (AddsBefore (S.view space.old) (S.view space.new) front.now prefix.now op
        children.old.level.items children.old.falling.items children.new.level.items children.new.falling.items) }
{
    let Some(within) = way.layer else {
        return Ok(());
    };
    match set_before(space, prefix, op, within)? {
        None => Ok(()),
        Some(set) => {
            let step = StepBack {
                op,
                cost: way.cost,
                set,
            };
            match put_grown(alloc, space, front, prefix, step, children) {
                Ok(()) => Ok(()),
                Err(fault) => {
                    space.forget(set);
                    Err(fault)
                }
            }
        }
    }
}

/// Adds the children by these operators, one after the other. After a refusal the children so far are there.
fn gather_each<S: Space>(
    alloc: Global,
    space: &mut S,
    front: &Layers<S::Set>,
    prefix: &Prefix<S::Set>,
    ops: &[u32],
    children: &mut Children<S::Set>,
) -> Result<(), SpaceFault>
    requires front { Held (S.view space.old) front.now }
    requires entry { EntryOk (S.view space.old) (Entry.Before prefix.now) }
    requires into { LeadInto (S.view space.old) prefix.now.set ops.now }
    requires level { children.old.level.items ≡ [] }
    requires falling { children.old.falling.items ≡ [] }
    ensures makes { MakesEntries (S.view space.old) (S.view space.new)
        (children.new.level.items ++ children.new.falling.items) }
    ensures ok { OnOk result (GathersBefore (S.view space.old) (S.view space.new) front.now prefix.now
        children.new.level.items children.new.falling.items) }
{
    let mut way = way_for(front, prefix.cost, 0);
    'operators: for op in ops {
        way = way_after(front, prefix.cost, way, space.cost_of(*op));
        add_before(alloc, space, front, prefix, way, *op, children)?;
    }
    Ok(())
}

/// Adds the children by all operators: only what may lead on by the values of the prefix's set is tried. Where they
/// are more than a few and each operator costs something, they are found as they are asked for, and the prefix stands for
/// them until then. After a refusal the children so far are there.
pub(crate) fn gather_before<S: Space>(
    alloc: Global,
    space: &mut S,
    front: &Layers<S::Set>,
    prefix: &Prefix<S::Set>,
    children: &mut Children<S::Set>,
) -> Result<(), SpaceFault>
    requires front { Held (S.view space.old) front.now }
    requires entry { EntryOk (S.view space.old) (Entry.Before prefix.now) }
    requires level { children.old.level.items ≡ [] }
    requires falling { children.old.falling.items ≡ [] }
    ensures makes { MakesEntries (S.view space.old) (S.view space.new)
        (children.new.level.items ++ children.new.falling.items) }
    ensures ok { OnOk result (GathersBefore (S.view space.old) (S.view space.new) front.now prefix.now
        children.new.level.items children.new.falling.items) }
{
    let ops = space.operators_into(alloc, prefix.set)?;
    if is_partial(space, &ops) {
        all_listed(space)?;
        put_partial(alloc, space, prefix, &ops, &mut children.falling)
    } else {
        gather_each(alloc, space, front, prefix, &ops, children)
    }
}
