//! Partial expansion: the children of a prefix, found one after the other as they are asked for. Source: Yoshizumi, Miura
//! and Ishida, "A* with Partial Expansion for Large Branching Factor Problems" (2000).

/// A child's set, the operator that leads on from it, and how many operators before that one are left.
#[derive(Clone, Copy)]
pub(crate) struct Found<T: Copy> {
    set: T,
    op: u32,
    before: usize,
}

ghost use Rattle.std.specs.Prelude.{◌≡◌, ◌<◌, ◌≤◌, ◌++◌, [], false, length, None, IsTrue, IfOk, OnOk, OnErr};
ghost use Rattle.space_api.specs.View.{View, Valid, Has};
ghost use Rattle.space_api.specs.Frames.{Kept, Gives, Stays};
ghost use Rattle.space_api.specs.Owned.{Trades};
ghost use Rattle.space_api.specs.Listing.{ListsReached};
ghost use Rattle.cost_layers.specs.Layers.{Held};
ghost use Rattle.reconstruct.specs.Entries.{EntryOk, MakesEntries, SetIn};
ghost use Rattle.reconstruct.specs.Ways.{IsNewSet};
ghost use Rattle.reconstruct.specs.Turned.{IsQueue, EndsSingle, EndsPartial, Replaces};
ghost use Rattle.reconstruct.specs.Walked.{AreEntriesApart};
ghost use Rattle.reconstruct.specs.Parts.{CostsSome, IsPartialOf, PutsPartial, FindsChild, FindsLast, GrownFirst, PartsInto, ArePartsOf, StandsForSame};

use crate::before::set_before;
use crate::entries::{Entry, Partial, Prefix, give_back, give_back_entries, prepend};
use crate::queue::Queue;
use crate::ways::way_for;
use cost_layers::Layers;
use space_api::{Space, SpaceFault};
use std::alloc::{AllocError, Global};

/// Where no more operators than these may lead on, all children are found at once: that costs less than to keep the
/// prefix for those that are still to be found.
const FEW: usize = 16;

/// Whether each operator costs something.
fn each_costs<S: Space>(space: &S) -> bool
    ensures { IsTrue result → CostsSome (S.view space.now).system }
{
    space.costs() > 0 && space.cost_at(0) > 0
}

/// Whether a prefix that these operators may lead into has its children found one by one: each operator costs something,
/// and these are more than a few.
pub(crate) fn is_partial<S: Space>(space: &S, ops: &[u32]) -> bool
    ensures { IsTrue result → CostsSome (S.view space.now).system }
{
    ops.len() > FEW && each_costs(space)
}

/// Asks for all states once: then it is known that the system lists each state that runs reach.
pub(crate) fn all_listed<S: Space>(space: &mut S) -> Result<(), SpaceFault>
    ensures stays { Stays (S.view space.old) (S.view space.new) }
    ensures lists { OnOk result (ListsReached (S.view space.old).system) }
{
    let all = space.all()?;
    space.forget(all);
    Ok(())
}

/// The prefix with a set of its own, and these operators left.
fn partial_of<S: Space>(
    alloc: Global,
    space: &mut S,
    prefix: &Prefix<S::Set>,
    left: &[u32],
) -> Result<Partial<S::Set>, SpaceFault>
    requires set { Valid (S.view space.old) prefix.now.set }
    ensures kept { Kept (S.view space.old) (S.view space.new) }
    ensures ok { IfOk result (IsPartialOf (S.view space.old) (S.view space.new) prefix.now left.now) }
    ensures err { OnErr result (Stays (S.view space.old) (S.view space.new)) }
{
    let operators = Vec::from_slice(alloc, &prefix.operators)?;
    let left = Vec::from_slice(alloc, left)?;
    let set = space.meet(prefix.set, prefix.set)?;
    Ok(Partial {
        prefix: Prefix {
            set,
            cost: prefix.cost,
            ring: prefix.ring,
            operators,
            after: prefix.after,
        },
        left,
    })
}

/// Puts the prefix last, in place of its children by these operators, which are found later. Out of memory, it leaves the
/// entries as they were.
pub(crate) fn put_partial<S: Space>(
    alloc: Global,
    space: &mut S,
    prefix: &Prefix<S::Set>,
    left: &[u32],
    entries: &mut Vec<Entry<S::Set>>,
) -> Result<(), SpaceFault>
    requires set { Valid (S.view space.old) prefix.now.set }
    ensures kept { Kept (S.view space.old) (S.view space.new) }
    ensures ok { OnOk result (PutsPartial (S.view space.old) (S.view space.new) prefix.now left.now
        entries.old.items entries.new.items) }
    ensures same { OnErr result (entries.new.items ≡ entries.old.items) }
    ensures err { OnErr result (Stays (S.view space.old) (S.view space.new)) }
{
    let partial = partial_of(alloc, space, prefix, left)?;
    match entries.push(Entry::Partial(partial)) {
        Ok(()) => Ok(()),
        Err(refused) => {
            give_back(space, &refused.value);
            Err(AllocError)
        }
    }
}

/// The states from which the operator leads into the prefix's set, in the layer of the cost that is left. None where
/// there is none.
fn set_by<S: Space>(
    space: &mut S,
    front: &Layers<S::Set>,
    prefix: &Prefix<S::Set>,
    op: u32,
) -> Result<Option<S::Set>, SpaceFault>
    requires front { Held (S.view space.old) front.now }
    requires entry { EntryOk (S.view space.old) (Entry.Before prefix.now) }
    requires op { op < (S.view space.old).system.operators }
    ensures kept { Kept (S.view space.old) (S.view space.new) }
    ensures ok { IfOk result (FindsChild (S.view space.old) (S.view space.new) front.now prefix.now op) }
    ensures err { OnErr result (Stays (S.view space.old) (S.view space.new)) }
{
    let way = way_for(front, prefix.cost, space.cost_of(op));
    match way.layer {
        None => Ok(None),
        Some(within) => set_before(space, prefix, op, within),
    }
}

/// The child by the last operator left that has one. None where none has.
fn last_child<S: Space>(
    space: &mut S,
    front: &Layers<S::Set>,
    partial: &Partial<S::Set>,
) -> Result<Option<Found<S::Set>>, SpaceFault>
    requires front { Held (S.view space.old) front.now }
    requires entry { EntryOk (S.view space.old) (Entry.Partial partial.now) }
    ensures kept { Kept (S.view space.old) (S.view space.new) }
    ensures ok { IfOk result (FindsLast (S.view space.old) (S.view space.new) front.now partial.now) }
    ensures err { OnErr result (Stays (S.view space.old) (S.view space.new)) }
{
    let mut left: &[u32] = &partial.left;
    'operators: while let Some((op, before)) = left.split_last() {
        if let Some(set) = set_by(space, front, &partial.prefix, *op)? {
            return Ok(Some(Found {
                set,
                op: *op,
                before: before.len(),
            }));
        }
        left = before;
    }
    Ok(None)
}

/// The child by this operator, from this set on: each of its states stands in ring 0.
fn child_of<S: Space>(
    alloc: Global,
    space: &S,
    prefix: &Prefix<S::Set>,
    set: S::Set,
    op: u32,
) -> Result<Prefix<S::Set>, SpaceFault>
    requires op { op < (S.view space.now).system.operators }
    requires fits { (S.view space.now).system.cost op ≤ prefix.now.cost }
    ensures { IfOk result (GrownFirst (S.view space.now) prefix.now op set) }
{
    let operators = prepend(alloc, op, &prefix.operators)?;
    Ok(Prefix {
        set,
        cost: prefix.cost - space.cost_of(op),
        ring: 0,
        operators,
        after: prefix.after,
    })
}

/// Puts the prefix with so many operators left, and then the child. After a refusal what was put so far is there.
fn put_parts<S: Space>(
    alloc: Global,
    space: &mut S,
    partial: &Partial<S::Set>,
    set: S::Set,
    op: u32,
    before: usize,
    entries: &mut Vec<Entry<S::Set>>,
) -> Result<(), SpaceFault>
    requires entry { EntryOk (S.view space.old) (Entry.Partial partial.now) }
    requires op { op < (S.view space.old).system.operators }
    requires fits { (S.view space.old).system.cost op ≤ partial.now.prefix.cost }
    requires before { before ≤ length partial.now.left.items }
    requires empty { entries.old.items ≡ [] }
    ensures kept { Kept (S.view space.old) (S.view space.new) }
    ensures ok { OnOk result (PartsInto (S.view space.old) (S.view space.new) partial.now set op before
        entries.new.items) }
    ensures err { OnErr result (MakesEntries (S.view space.old) (S.view space.new) entries.new.items) }
{
    let child = child_of(alloc, space, &partial.prefix, set, op)?;
    put_partial(
        alloc,
        space,
        &partial.prefix,
        &partial.left[..before],
        entries,
    )?;
    entries.push(Entry::Before(child))?;
    Ok(())
}

/// The prefix with so many operators left, and then the child. A refusal gives all sets back, that of the child too.
fn parted<S: Space>(
    alloc: Global,
    space: &mut S,
    partial: &Partial<S::Set>,
    set: S::Set,
    op: u32,
    before: usize,
) -> Result<Vec<Entry<S::Set>>, SpaceFault>
    requires entry { EntryOk (S.view space.old) (Entry.Partial partial.now) }
    requires op { op < (S.view space.old).system.operators }
    requires fits { (S.view space.old).system.cost op ≤ partial.now.prefix.cost }
    requires before { before ≤ length partial.now.left.items }
    requires set { Valid (S.view space.old) set }
    ensures kept { IfOk result (λ _. Kept (S.view space.old) (S.view space.new)) }
    ensures ok { IfOk result (λ es. PartsInto (S.view space.old) (S.view space.new) partial.now set op before es.items) }
    ensures err { OnErr result ((u : View S.Set) → Kept u (S.view space.old) → IsNewSet u (S.view space.old) set
        → Stays u (S.view space.new)) }
{
    let mut entries = Vec::new(alloc);
    match put_parts(alloc, space, partial, set, op, before, &mut entries) {
        Ok(()) => Ok(entries),
        Err(fault) => {
            give_back_entries(space, &entries);
            space.forget(set);
            Err(fault)
        }
    }
}

/// What stands for the children of the prefix that are still to be found: nothing where no operator left has one, else
/// the last of them, and before it the prefix with fewer operators left.
fn find_parts<S: Space>(
    alloc: Global,
    space: &mut S,
    front: &Layers<S::Set>,
    partial: &Partial<S::Set>,
) -> Result<Vec<Entry<S::Set>>, SpaceFault>
    requires front { Held (S.view space.old) front.now }
    requires entry { EntryOk (S.view space.old) (Entry.Partial partial.now) }
    ensures ok { IfOk result (λ es. ArePartsOf (S.view space.old) (S.view space.new) front.now partial.now es.items) }
    ensures err { OnErr result (Stays (S.view space.old) (S.view space.new)) }
{
    match last_child(space, front, partial)? {
        None => Ok(Vec::new(alloc)),
        Some(found) => parted(alloc, space, partial, found.set, found.op, found.before),
    }
}

/// Puts these entries in place of the last one, and gives its set back. Out of memory, it gives theirs back.
fn replace_partial<S: Space>(
    space: &mut S,
    queue: &mut Queue<S::Set>,
    entries: Vec<Entry<S::Set>>,
) -> Result<(), SpaceFault>
    requires made { (u : View S.Set) × MakesEntries u (S.view space.old) entries.items × IsQueue u queue.old }
    requires partial { EndsPartial queue.old }
    ensures ok { OnOk result (Replaces (S.view space.old) (S.view space.new) queue.old queue.new entries.items
        false None) }
    ensures back { OnErr result ((u : View S.Set) → MakesEntries u (S.view space.old) entries.items
        → Stays u (S.view space.new)) }
    ensures err { OnErr result (queue.new ≡ queue.old) }
{
    let mut entries = entries;
    match queue.part(&mut entries) {
        Ok(entry) => {
            give_back(space, &entry);
            Ok(())
        }
        Err(fault) => {
            give_back_entries(space, &entries);
            Err(fault)
        }
    }
}

/// Finds the child that comes next, where a prefix stands last whose children are still to be found. What the queue
/// stands for stays the same. Out of memory too, and no set is lost.
pub(crate) fn single_out<S: Space>(
    alloc: Global,
    space: &mut S,
    front: &Layers<S::Set>,
    queue: &mut Queue<S::Set>,
) -> Result<(), SpaceFault>
    requires front { Held (S.view space.old) front.now }
    requires queue { IsQueue (S.view space.old) queue.old }
    requires apart { AreEntriesApart queue.old front.now }
    ensures queue { IsQueue (S.view space.new) queue.new }
    ensures trades { Trades (S.view space.old) (S.view space.new) (SetIn queue.old) (SetIn queue.new) }
    ensures same { StandsForSame (S.view space.old) (S.view space.new) front.now queue.old queue.new }
    ensures ok { OnOk result (EndsSingle queue.new) }
{
    'parts: while let Some(partial) = queue.partial() {
        let entries = find_parts(alloc, space, front, partial)?;
        replace_partial(space, queue, entries)?;
    }
    Ok(())
}
