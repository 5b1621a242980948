//! The set of states to which a search backward may be kept, at a small price: groups that hold each by itself, joined
//! while their set stays small.

ghost use Rattle.std.specs.Prelude.{◌≡◌, ◌≢◌, ◌+◌, ◌≤◌, ◌↔◌, ◌∷◌, [], ℕ, All, Contains, IsSome, IsTrue, IfOk, OnErr, length};
ghost use Rattle.symk_task.specs.declared.parts.Fact.{Fact};
ghost use Rattle.task_system.specs.System.{State};
ghost use Rattle.run_graph.specs.Reached.{Useful};
ghost use Rattle.space_api.specs.View.{View, Valid, Has, Meets};
ghost use Rattle.space_api.specs.Frames.{Kept, NoMore, Gives};
ghost use Rattle.space_api.specs.Owned.{Trades};
ghost use Rattle.mutex_use.specs.Groups.{mutex_group_at, IsBaseGroup};
ghost use Rattle.mutex_use.specs.Sets.{HasAll, KeepsHolding, MayGive, MayKeepOne, MayKeepMore, NarrowsHolding};
ghost use Rattle.mutex_use.specs.Writers.{AreWriters};

use crate::groups::{base_groups, facts_of};
use crate::keepers::{kept_more, tidied};
use crate::standing::stands;
use crate::writers::writers_of;
use space_api::{Space, SpaceFault};
use std::alloc::Global;
use symk_task::{Fact, List, Memory, Task};

/// How many nodes more a set may take that a group joins: a larger one costs a search more than it saves.
const JOINED: usize = 4096;

/// How much work is done for groups, by the space's count, before no further one is tried: thousandths of a second.
const TRIED: u64 = 1 << 15;

/// The states of both sets, as a new set, where that takes so few nodes more; else none.
fn small_meet<S: Space>(space: &mut S, a: S::Set, b: S::Set) -> Result<Option<S::Set>, SpaceFault>
    requires a { Valid (S.view space.old) a }
    requires b { Valid (S.view space.old) b }
    ensures kept { Kept (S.view space.old) (S.view space.new) }
    ensures ok { IfOk result (MayGive (S.view space.old) (S.view space.new) (Meets (S.view space.old) a b)) }
    ensures small { IfOk result (λ both. IsSome both ↔
        ((S.view space.new).held ≤ (S.view space.old).held + JOINED)) }
    ensures err { OnErr result (NoMore (S.view space.old) (S.view space.new)) }
    ensures task { (S.view space.new).task ≡ (S.view space.old).task }
{
    let before = space.held();
    let both = space.meet(a, b)?;
    if space.held().saturating_sub(before) <= JOINED {
        return Ok(Some(both));
    }
    space.forget(both);
    Ok(None)
}

/// The states that keep the group, as a new set, where the group holds by itself; else none.
fn keepers_alone<S: Space>(
    alloc: Global,
    space: &mut S,
    task: &Task,
    writers: &[List<u32>],
    all: S::Set,
    group: u32,
) -> Result<Option<S::Set>, SpaceFault>
    requires task { (S.view space.old).task ≡ task.now }
    requires writers { AreWriters task.now (length task.now.operators) writers.now }
    requires valid { Valid (S.view space.old) all }
    requires all { HasAll (S.view space.old) all }
    requires group { IsBaseGroup task.now group }
    ensures kept { Kept (S.view space.old) (S.view space.new) }
    ensures ok { IfOk result (MayKeepOne (S.view space.old) (S.view space.new) task.now group) }
    ensures err { OnErr result (NoMore (S.view space.old) (S.view space.new)) }
    ensures task { (S.view space.new).task ≡ (S.view space.old).task }
{
    let kept = kept_more(alloc, space, all, all, facts_of(task, group))?;
    let stands = stands(alloc, space, task, writers, all, kept, group);
    match stands {
        Ok(true) => Ok(Some(kept)),
        Ok(false) => {
            space.forget(kept);
            Ok(None)
        }
        Err(fault) => {
            space.forget(kept);
            Err(fault)
        }
    }
}

/// The states of `kept` that keep the group, as a new set, where the group holds by itself and the set stays small;
/// else none.
fn join_one<S: Space>(
    alloc: Global,
    space: &mut S,
    task: &Task,
    writers: &[List<u32>],
    all: S::Set,
    kept: S::Set,
    group: u32,
) -> Result<Option<S::Set>, SpaceFault>
    requires task { (S.view space.old).task ≡ task.now }
    requires writers { AreWriters task.now (length task.now.operators) writers.now }
    requires valid { Valid (S.view space.old) all }
    requires all { HasAll (S.view space.old) all }
    requires set { Valid (S.view space.old) kept }
    requires group { IsBaseGroup task.now group }
    ensures kept { Kept (S.view space.old) (S.view space.new) }
    ensures ok { IfOk result (MayKeepMore (S.view space.old) (S.view space.new) task.now kept group) }
    ensures err { OnErr result (NoMore (S.view space.old) (S.view space.new)) }
    ensures task { (S.view space.new).task ≡ (S.view space.old).task }
{
    let keepers = keepers_alone(alloc, space, task, writers, all, group)?;
    match keepers {
        None => Ok(None),
        Some(keepers) => {
            let both = small_meet(space, kept, keepers);
            space.forget(keepers);
            both
        }
    }
}

/// The same in place of `kept`, or `kept` itself, which is given back when the space is out of memory. The space may
/// collect.
fn joined<S: Space>(
    alloc: Global,
    space: &mut S,
    task: &Task,
    writers: &[List<u32>],
    all: S::Set,
    kept: S::Set,
    group: u32,
) -> Result<S::Set, SpaceFault>
    requires task { (S.view space.old).task ≡ task.now }
    requires writers { AreWriters task.now (length task.now.operators) writers.now }
    requires valid { Valid (S.view space.old) all }
    requires all { HasAll (S.view space.old) all }
    requires set { Valid (S.view space.old) kept }
    requires group { IsBaseGroup task.now group }
    ensures ok { IfOk result (NarrowsHolding (S.view space.old) (S.view space.new) task.now kept group) }
    ensures err { OnErr result (Trades (S.view space.old) (S.view space.new) (λ a. a ≡ kept) (λ a. ⊥)) }
    ensures task { (S.view space.new).task ≡ (S.view space.old).task }
{
    let next = join_one(alloc, space, task, writers, all, kept, group);
    match next {
        Err(fault) => {
            space.forget(kept);
            Err(fault)
        }
        Ok(next) => match next {
            None => tidied(space, kept),
            Some(both) => {
                space.forget(kept);
                tidied(space, both)
            }
        },
    }
}

/// Whether the facts are of two variables or more. Of one variable no two facts ever hold, so they cut nothing.
fn are_of_several(facts: &[Fact]) -> bool
    ensures { IsTrue result ↔
        ((f : Fact) × Contains facts.now f × ((h : Fact) × Contains facts.now h × (f.var ≢ h.var))) }
{
    match facts.first() {
        None => false,
        Some(first) => facts.iter().any(|fact| fact.var != first.var),
    }
}

/// Those of the groups whose facts are of several variables, in their order.
fn of_several(alloc: Global, task: &Task, groups: &[u32]) -> Result<Vec<u32>, Memory>
    requires { All (IsBaseGroup task.now) groups.now }
    ensures { IfOk result (λ left. All (IsBaseGroup task.now) left.items) }
{
    let mut left = Vec::new(alloc);
    'groups: for i in 0..groups.len() {
        if are_of_several(facts_of(task, groups[i])) {
            left.push(groups[i])?;
        }
    }
    Ok(left)
}

/// How many facts the group has; none where there is no such group.
fn size_of(task: &Task, group: u32) -> usize
    ensures { result ≡ length (mutex_group_at task.now group) }
{
    match task.parts().mutexes.as_slice().get(group as usize) {
        Some(facts) => facts.len(),
        None => 0,
    }
}

/// The groups to join, the smallest first: those over base variables alone whose facts are of several variables.
fn groups_to_join(alloc: Global, task: &Task) -> Result<Vec<u32>, Memory>
    ensures { IfOk result (λ groups. All (IsBaseGroup task.now) groups.items) }
{
    let base = base_groups(alloc, task)?;
    let mut groups = of_several(alloc, task, &base)?;
    groups.sort_by_key(|group| size_of(task, *group))?;
    Ok(groups)
}

/// The states that keep those of the groups that are joined, as a new set; `all` has every state. Once a trifle of
/// work is done, no further group is tried.
fn join_each<S: Space>(
    alloc: Global,
    space: &mut S,
    task: &Task,
    all: S::Set,
    groups: &[u32],
) -> Result<S::Set, SpaceFault>
    requires task { (S.view space.old).task ≡ task.now }
    requires valid { Valid (S.view space.old) all }
    requires all { HasAll (S.view space.old) all }
    requires groups { All (IsBaseGroup task.now) groups.now }
    ensures kept { Kept (S.view space.old) (S.view space.new) }
    ensures ok { IfOk result (KeepsHolding (S.view space.old) (S.view space.new) task.now) }
    ensures err { OnErr result (NoMore (S.view space.old) (S.view space.new)) }
    ensures task { (S.view space.new).task ≡ (S.view space.old).task }
{
    let writers = writers_of(alloc, task)?;
    let begun = space.work();
    let mut kept = space.all()?;
    'groups: for i in 0..groups.len() {
        if space.work().wrapping_sub(begun) > TRIED {
            break;
        }
        kept = joined(alloc, space, task, &writers, all, kept, groups[i])?;
    }
    Ok(kept)
}

/// The states that keep some mutex groups that hold, as a new set. Each useful state is one of them.
///
/// So an engine's search backward may be kept to it. Groups that hold each by itself are found one by one, and joined
/// from the smallest on. One with which the set would take many nodes more is left out, and so are those that are left
/// when some work is done: the set costs little beside a search. The task is the space's. Out of memory is the one
/// refusal, and leaves no new set. Backward layers cut by mutex groups: Torralba and Alcázar 2013.
pub fn within<S: Space>(alloc: Global, space: &mut S, task: &Task) -> Result<S::Set, SpaceFault>
    requires { (S.view space.old).task ≡ task.now }
    ensures kept { Kept (S.view space.old) (S.view space.new) }
    ensures ok { IfOk result (KeepsHolding (S.view space.old) (S.view space.new) task.now) }
    ensures useful { IfOk result (λ set.
        (s : State) → Useful (S.view space.old).system s → Has (S.view space.new) set s) }
    ensures err { OnErr result (NoMore (S.view space.old) (S.view space.new)) }
    ensures task { (S.view space.new).task ≡ (S.view space.old).task }
{
    // A task fits, and so its runs pass states alone.
    let _ = task.parts();
    let groups = groups_to_join(alloc, task)?;
    let all = space.all()?;
    let kept = join_each(alloc, space, task, all, &groups);
    space.forget(all);
    kept
}
