//! The states that keep groups.

ghost use Rattle.std.specs.Prelude.{◌≡◌, All, IfOk, OnOk, OnErr};
ghost use Rattle.task_system.specs.System.{State};
ghost use Rattle.space_api.specs.View.{View, Valid, Has};
ghost use Rattle.space_api.specs.Frames.{Kept, NoMore, Gives, Stays};
ghost use Rattle.space_api.specs.Owned.{Trades};
ghost use Rattle.mutex_use.specs.Groups.{AreBaseFacts, HasAtMostOne, IsBaseGroup, IsKeeper};
ghost use Rattle.mutex_use.specs.Sets.{HasAll, KeepsIn, NarrowsSet};

use crate::counts::breaking;
use crate::groups::facts_of;
use space_api::{Space, SpaceFault};
use std::alloc::Global;
use symk_task::{Fact, Task};

/// The states of `kept`, which is inside `all`, where at most one of the facts holds, as a new set.
pub(crate) fn kept_more<S: Space>(
    alloc: Global,
    space: &mut S,
    all: S::Set,
    kept: S::Set,
    facts: &[Fact],
) -> Result<S::Set, SpaceFault>
    requires all { Valid (S.view space.old) all }
    requires valid { Valid (S.view space.old) kept }
    requires inside { (s : State) → Has (S.view space.old) kept s → Has (S.view space.old) all s }
    requires base { AreBaseFacts (S.view space.old).task facts.now }
    ensures kept { Kept (S.view space.old) (S.view space.new) }
    ensures ok { IfOk result (Gives (S.view space.old) (S.view space.new)
        (KeepsIn (S.view space.old) kept facts.now)) }
    ensures err { OnErr result (NoMore (S.view space.old) (S.view space.new)) }
    ensures task { (S.view space.new).task ≡ (S.view space.old).task }
{
    let broken = breaking(alloc, space, all, facts)?;
    let left = space.minus(kept, broken);
    space.forget(broken);
    left
}

/// The set, once the space had the occasion to collect. It is given back where that is refused.
pub(crate) fn tidied<S: Space>(space: &mut S, set: S::Set) -> Result<S::Set, SpaceFault>
    requires { Valid (S.view space.old) set }
    ensures same { IfOk result (λ same. same ≡ set) }
    ensures stays { OnOk result (Stays (S.view space.old) (S.view space.new)) }
    ensures err { OnErr result (Trades (S.view space.old) (S.view space.new) (λ a. a ≡ set) (λ a. ⊥)) }
    ensures task { (S.view space.new).task ≡ (S.view space.old).task }
{
    match space.tidy() {
        Ok(()) => Ok(set),
        Err(fault) => {
            space.forget(set);
            Err(fault)
        }
    }
}

/// The same in place of `kept`, which is given back, also when out of memory. The space may
/// collect.
fn keep_one<S: Space>(
    alloc: Global,
    space: &mut S,
    all: S::Set,
    kept: S::Set,
    facts: &[Fact],
) -> Result<S::Set, SpaceFault>
    requires all { Valid (S.view space.old) all }
    requires valid { Valid (S.view space.old) kept }
    requires inside { (s : State) → Has (S.view space.old) kept s → Has (S.view space.old) all s }
    requires base { AreBaseFacts (S.view space.old).task facts.now }
    ensures ok { IfOk result (NarrowsSet (S.view space.old) (S.view space.new) kept
        (HasAtMostOne (S.view space.old).task facts.now)) }
    ensures err { OnErr result (Trades (S.view space.old) (S.view space.new) (λ a. a ≡ kept) (λ a. ⊥)) }
    ensures task { (S.view space.new).task ≡ (S.view space.old).task }
{
    let left = kept_more(alloc, space, all, kept, facts);
    space.forget(kept);
    match left {
        Ok(set) => tidied(space, set),
        Err(fault) => Err(fault),
    }
}

/// The states that keep each of these groups, as a new set; `all` has every state.
pub(crate) fn keep_each<S: Space>(
    alloc: Global,
    space: &mut S,
    task: &Task,
    all: S::Set,
    groups: &[u32],
) -> Result<S::Set, SpaceFault>
    requires task { (S.view space.old).task ≡ task.now }
    requires valid { Valid (S.view space.old) all }
    requires all { HasAll (S.view space.old) all }
    requires groups { All (IsBaseGroup task.now) groups.now }
    ensures kept { Kept (S.view space.old) (S.view space.new) }
    ensures ok { IfOk result (Gives (S.view space.old) (S.view space.new) (IsKeeper task.now groups.now)) }
    ensures err { OnErr result (NoMore (S.view space.old) (S.view space.new)) }
    ensures task { (S.view space.new).task ≡ (S.view space.old).task }
{
    let mut kept = space.all()?;
    'groups: for i in 0..groups.len() {
        kept = keep_one(alloc, space, all, kept, facts_of(task, groups[i]))?;
    }
    Ok(kept)
}

/// The states that keep each of these groups of the space's task, as a new set: those where at most one fact of each
/// group holds. No groups give all states.
///
/// The groups go by their numbers, from 0 in the order of the file. The caller knows that each is one of the task's,
/// over base variables alone. Out of memory is the one refusal, and leaves no new set.
pub fn keeping<S: Space>(
    alloc: Global,
    space: &mut S,
    task: &Task,
    groups: &[u32],
) -> Result<S::Set, SpaceFault>
    requires task { (S.view space.old).task ≡ task.now }
    requires groups { All (IsBaseGroup task.now) groups.now }
    ensures kept { Kept (S.view space.old) (S.view space.new) }
    ensures ok { IfOk result (Gives (S.view space.old) (S.view space.new) (IsKeeper task.now groups.now)) }
    ensures err { OnErr result (NoMore (S.view space.old) (S.view space.new)) }
    ensures task { (S.view space.new).task ≡ (S.view space.old).task }
{
    let all = space.all()?;
    let kept = keep_each(alloc, space, task, all, groups);
    space.forget(all);
    kept
}
