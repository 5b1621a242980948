//! The greatest set of groups that hold.

ghost use Rattle.std.specs.Prelude.{◌≡◌, ◌<◌, ◌≤◌, ◌↔◌, ℕ, All, IsTrue, IfOk, OnErr, length, Contains};
ghost use Rattle.std.specs.List.Sorted.{IsStrictlyIncreasing};
ghost use Rattle.symk_task.specs.Variables.{IsState};
ghost use Rattle.task_system.specs.System.{State};
ghost use Rattle.space_api.specs.View.{View, Valid, Has, Preimage};
ghost use Rattle.space_api.specs.Frames.{Stays};
ghost use Rattle.mutex_use.specs.Groups.{IsBaseGroup, AreGreatestGroups, IsKeeper, IsPartOf, KeepsGroup};
ghost use Rattle.mutex_use.specs.Rounds.{StandsFrom, IsRound, AreGroupsLeft};
ghost use Rattle.mutex_use.specs.Sets.{HasAll, IsSafe, LeadsBetween};
ghost use Rattle.mutex_use.specs.Writers.{AreWriters};

use crate::balance::breaking_operators;
use crate::counts::breaking;
use crate::groups::{base_groups, facts_of};
use crate::keepers::keep_each;
use crate::writers::writers_of;
use space_api::{Space, SpaceFault};
use std::alloc::Global;
use symk_task::{List, Task};

/// Whether the operator leads from a state of `from` to one of `to`.
fn leads<S: Space>(space: &mut S, op: u32, from: S::Set, to: S::Set) -> Result<bool, SpaceFault>
    requires from { Valid (S.view space.old) from }
    requires to { Valid (S.view space.old) to }
    requires op { op < (S.view space.old).system.operators }
    ensures stays { Stays (S.view space.old) (S.view space.new) }
    ensures ok { IfOk result (λ r. IsTrue r ↔ ((s : State) × Preimage (S.view space.old) op to from s)) }
    ensures task { (S.view space.new).task ≡ (S.view space.old).task }
{
    let before = space.pre_op(op, to, from)?;
    let empty = space.is_empty(before);
    space.forget(before);
    Ok(!empty)
}

/// Whether one of the operators does.
fn any_leads<S: Space>(
    space: &mut S,
    operators: &[u32],
    from: S::Set,
    to: S::Set,
) -> Result<bool, SpaceFault>
    requires from { Valid (S.view space.old) from }
    requires to { Valid (S.view space.old) to }
    requires operators { All (λ op. op < (S.view space.old).system.operators) operators.now }
    ensures stays { Stays (S.view space.old) (S.view space.new) }
    ensures ok { IfOk result (λ r. IsTrue r ↔ LeadsBetween (S.view space.old) operators.now from to) }
    ensures task { (S.view space.new).task ≡ (S.view space.old).task }
{
    'operators: for i in 0..operators.len() {
        if leads(space, operators[i], from, to)? {
            return Ok(true);
        }
    }
    Ok(false)
}

/// Whether the initial state is outside the set, and none of the operators leads from a state of `from` into it.
fn is_safe<S: Space>(
    space: &mut S,
    operators: &[u32],
    from: S::Set,
    broken: S::Set,
) -> Result<bool, SpaceFault>
    requires from { Valid (S.view space.old) from }
    requires broken { Valid (S.view space.old) broken }
    requires operators { All (λ op. op < (S.view space.old).system.operators) operators.now }
    ensures stays { Stays (S.view space.old) (S.view space.new) }
    ensures ok { IfOk result (λ r. IsTrue r ↔ IsSafe (S.view space.old) operators.now from broken) }
    ensures task { (S.view space.new).task ≡ (S.view space.old).task }
{
    if space.has_init(broken) {
        return Ok(false);
    }
    let reached = any_leads(space, operators, from, broken)?;
    Ok(!reached)
}

/// Whether the group stands: the initial state keeps it, and no operator leads from a state of `kept` to one that
/// doesn't.
///
/// An operator that has no effect on a variable of the group, or is balanced, is not tried: it leads from a state that
/// keeps the group to one that does.
pub(crate) fn stands<S: Space>(
    alloc: Global,
    space: &mut S,
    task: &Task,
    writers: &[List<u32>],
    all: S::Set,
    kept: S::Set,
    group: u32,
) -> Result<bool, SpaceFault>
    requires task { (S.view space.old).task ≡ task.now }
    requires writers { AreWriters task.now (length task.now.operators) writers.now }
    requires valid { Valid (S.view space.old) all }
    requires all { HasAll (S.view space.old) all }
    requires kept { Valid (S.view space.old) kept }
    requires group { IsBaseGroup task.now group }
    requires keeps { (s : State) → Has (S.view space.old) kept s → IsState task.now s × KeepsGroup task.now s group }
    ensures stays { Stays (S.view space.old) (S.view space.new) }
    ensures ok { IfOk result (λ r. IsTrue r ↔ StandsFrom task.now (Has (S.view space.old) kept) group) }
    ensures task { (S.view space.new).task ≡ (S.view space.old).task }
{
    let operators = breaking_operators(alloc, task, writers, group)?;
    let broken = breaking(alloc, space, all, facts_of(task, group))?;
    let stands = is_safe(space, &operators, kept, broken);
    space.forget(broken);
    stands
}

/// Those of the groups that stand, in their order. After each the space may collect.
fn standing<S: Space>(
    alloc: Global,
    space: &mut S,
    task: &Task,
    writers: &[List<u32>],
    all: S::Set,
    kept: S::Set,
    groups: &[u32],
) -> Result<Vec<u32>, SpaceFault>
    requires task { (S.view space.old).task ≡ task.now }
    requires writers { AreWriters task.now (length task.now.operators) writers.now }
    requires valid { Valid (S.view space.old) all }
    requires all { HasAll (S.view space.old) all }
    requires kept { Valid (S.view space.old) kept }
    requires groups { All (IsBaseGroup task.now) groups.now }
    requires rising { IsStrictlyIncreasing groups.now }
    requires keeps { (s : State) → Has (S.view space.old) kept s → IsKeeper task.now groups.now s }
    ensures stays { Stays (S.view space.old) (S.view space.new) }
    ensures ok { IfOk result (λ left.
        AreGroupsLeft task.now (Has (S.view space.old) kept) groups.now (length groups.now) left.items) }
    ensures task { (S.view space.new).task ≡ (S.view space.old).task }
{
    let mut left = Vec::new(alloc);
    'groups: for i in 0..groups.len() {
        let holds = stands(alloc, space, task, writers, all, kept, groups[i])?;
        space.tidy()?;
        if holds {
            left.push(groups[i])?;
        }
    }
    Ok(left)
}

/// The groups without those that fail where these are the groups.
fn round<S: Space>(
    alloc: Global,
    space: &mut S,
    task: &Task,
    writers: &[List<u32>],
    all: S::Set,
    groups: &[u32],
) -> Result<Vec<u32>, SpaceFault>
    requires task { (S.view space.old).task ≡ task.now }
    requires writers { AreWriters task.now (length task.now.operators) writers.now }
    requires valid { Valid (S.view space.old) all }
    requires all { HasAll (S.view space.old) all }
    requires groups { All (IsBaseGroup task.now) groups.now }
    requires rising { IsStrictlyIncreasing groups.now }
    ensures stays { Stays (S.view space.old) (S.view space.new) }
    ensures round { IfOk result (λ left. IsRound task.now groups.now left.items) }
    ensures rising { IfOk result (λ left. IsStrictlyIncreasing left.items) }
    ensures few { IfOk result (λ left. length left.items ≤ length groups.now) }
    ensures last { IfOk result (λ left. length left.items ≡ length groups.now → IsPartOf groups.now left.items) }
    ensures task { (S.view space.new).task ≡ (S.view space.old).task }
{
    let kept = keep_each(alloc, space, task, all, groups)?;
    let left = standing(alloc, space, task, writers, all, kept, groups);
    space.forget(kept);
    left
}

/// The greatest set of groups that hold: rounds throw out what fails, until nothing does.
fn greatest<S: Space>(
    alloc: Global,
    space: &mut S,
    task: &Task,
    all: S::Set,
) -> Result<Vec<u32>, SpaceFault>
    requires task { (S.view space.old).task ≡ task.now }
    requires valid { Valid (S.view space.old) all }
    requires all { HasAll (S.view space.old) all }
    ensures stays { Stays (S.view space.old) (S.view space.new) }
    ensures greatest { IfOk result (λ groups. AreGreatestGroups task.now groups.items) }
    ensures rising { IfOk result (λ groups. IsStrictlyIncreasing groups.items) }
    ensures task { (S.view space.new).task ≡ (S.view space.old).task }
{
    let writers = writers_of(alloc, task)?;
    let mut groups = base_groups(alloc, task)?;
    'rounds: loop {
        let left = round(alloc, space, task, &writers, all, &groups)?;
        if left.len() == groups.len() {
            return Ok(groups);
        }
        groups = left;
    }
}

/// The greatest set of mutex groups of the space's task that hold, by their numbers, rising.
///
/// Groups hold where they are over base variables alone, the initial state keeps each, and each operator leads from a
/// state that keeps all of them to one that does. The numbers count from 0 in the order of the file. Out of memory is
/// the one refusal. The valid sets are those from before.
///
/// Invariants by throwing out what fails, until nothing does: Rintanen 2000. Mutex groups, and balanced operators:
/// Helmert 2009.
pub fn inductive_groups<S: Space>(
    alloc: Global,
    space: &mut S,
    task: &Task,
) -> Result<Vec<u32>, SpaceFault>
    requires { (S.view space.old).task ≡ task.now }
    ensures stays { Stays (S.view space.old) (S.view space.new) }
    ensures greatest { IfOk result (λ groups. AreGreatestGroups task.now groups.items) }
    ensures rising { IfOk result (λ groups. IsStrictlyIncreasing groups.items) }
    ensures task { (S.view space.new).task ≡ (S.view space.old).task }
{
    let all = space.all()?;
    let groups = greatest(alloc, space, task, all);
    space.forget(all);
    groups
}
