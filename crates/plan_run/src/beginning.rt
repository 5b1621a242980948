//! Engines that owe all plans of a task, over a space of it.

ghost use Rattle.std.specs.Prelude.{◌≡◌, IsFalse, IfOk, OnOk};
ghost use Rattle.symk_task.specs.declared.parts.Mode.TheVariants.{TopK, Unordered, Loopless};
ghost use Rattle.task_system.specs.Computed.{system_of};
ghost use Rattle.space_api.specs.View.{View};
ghost use Rattle.reconstruct.specs.Engine.{IsReadyFor};
ghost use Rattle.plan_run.specs.Engines.{OwesAll, KeepsEach};

use crate::choice::Patient;
use crate::options::{Direction, Search};
use loopless::LooplessPlans;
use member_plans::MemberPlans;
use prefix_plans::PrefixPlans;
use reconstruct::TopPlans;
use selectors::{Classes, LazyMembers, LazyPlans};
use space_api::Space;
use std::alloc::Global;
use symk_task::{Memory, Task};

/// Whether the mutex groups of the task cut the search backward: where they are asked for, and where the program
/// chooses the side that goes on. Their set costs little beside a search, by what `within` tries.
fn is_cut(search: Search) -> bool {
    search.mutex || search.direction == Direction::Auto
}

/// The set to which the search backward is kept: where it is to be cut and the task states mutex groups, the states
/// that keep some of those that are shown inductive, and else none. Each useful state is one of them. It alone is valid
/// then.
fn kept_to<S: Space>(
    alloc: Global,
    task: &Task,
    cut: bool,
    space: &mut S,
) -> Result<Option<S::Set>, Memory>
    requires task { (S.view space.old).task ≡ task.now }
    requires none { (a : S.Set) → IsFalse ((S.view space.old).valid a) }
    ensures ready { IfOk result (IsReadyFor (S.view space.new)) }
    ensures system { OnOk result ((S.view space.new).system ≡ (S.view space.old).system) }
{
    if !cut || task.parts().mutexes.is_empty() {
        return Ok(None);
    }
    let kept = mutex_use::within(alloc, space, task)?;
    Ok(Some(kept))
}

/// All plans of the task, which grow from the middle outwards, up to a greatest cost where there is one, searched for
/// as is asked. The space is of the task and has no valid set.
pub(crate) fn top_plans<S: Space + Drop>(
    alloc: Global,
    task: &Task,
    search: Search,
    space: S,
    limit: Option<u64>,
) -> Result<TopPlans<S, Patient>, Memory>
    requires task { (S.view space).task ≡ task.now }
    requires system { (S.view space).system ≡ system_of task.now }
    requires none { (a : S.Set) → IsFalse ((S.view space).valid a) }
    ensures { IfOk result (OwesAll ⟦<TopPlans<S, Patient> as LazyPlans>⟧.system
        ⟦<TopPlans<S, Patient> as LazyPlans>⟧.mode
        ⟦<TopPlans<S, Patient> as LazyPlans>⟧.most ⟦<TopPlans<S, Patient> as LazyPlans>⟧.pends
        ⟦<TopPlans<S, Patient> as LazyPlans>⟧.lawful task.now TopK limit) }
{
    let mut space = space;
    let choose = Patient::of(search.direction);
    let within = kept_to(alloc, task, is_cut(search), &mut space)?;
    match within {
        None => match limit {
            None => TopPlans::new(alloc, space, choose),
            Some(most) => TopPlans::within(alloc, space, choose, most),
        },
        Some(kept) if search.direction == Direction::Bidirectional => {
            TopPlans::within_later(alloc, space, choose, limit, kept)
        }
        Some(kept) => match limit {
            None => TopPlans::new_within(alloc, space, choose, kept),
            Some(most) => TopPlans::within_most(alloc, space, choose, most, kept),
        },
    }
}

/// All plans of the task by their prefixes, in the same way. They are searched for from both ends, whatever the direction.
pub(crate) fn prefix_plans<S: Space + Drop>(
    alloc: Global,
    task: &Task,
    search: Search,
    space: S,
    limit: Option<u64>,
) -> Result<PrefixPlans<S>, Memory>
    requires task { (S.view space).task ≡ task.now }
    requires system { (S.view space).system ≡ system_of task.now }
    requires none { (a : S.Set) → IsFalse ((S.view space).valid a) }
    ensures { IfOk result (OwesAll ⟦<PrefixPlans<S> as LazyPlans>⟧.system ⟦<PrefixPlans<S> as LazyPlans>⟧.mode
        ⟦<PrefixPlans<S> as LazyPlans>⟧.most ⟦<PrefixPlans<S> as LazyPlans>⟧.pends
        ⟦<PrefixPlans<S> as LazyPlans>⟧.lawful task.now TopK limit) }
{
    let mut space = space;
    let within = kept_to(alloc, task, is_cut(search), &mut space)?;
    match within {
        None => match limit {
            None => PrefixPlans::new(alloc, space),
            Some(most) => PrefixPlans::within(alloc, space, most),
        },
        Some(kept) => match limit {
            None => PrefixPlans::new_within(alloc, space, kept),
            Some(most) => PrefixPlans::within_most(alloc, space, most, kept),
        },
    }
}

/// Plans of the task, of each class of rearrangements one at least, in the same way.
fn member_plans<'a, S: Space + Drop>(
    alloc: Global,
    task: &'a Task,
    search: Search,
    space: S,
    limit: Option<u64>,
) -> Result<MemberPlans<'a, S>, Memory>
    requires task { (S.view space).task ≡ task.now }
    requires system { (S.view space).system ≡ system_of task.now }
    requires none { (a : S.Set) → IsFalse ((S.view space).valid a) }
    ensures { IfOk result (KeepsEach ⟦<MemberPlans<'a, S> as LazyMembers>⟧.system
        ⟦<MemberPlans<'a, S> as LazyMembers>⟧.most ⟦<MemberPlans<'a, S> as LazyMembers>⟧.pends
        ⟦<MemberPlans<'a, S> as LazyMembers>⟧.lawful task.now limit) }
{
    let mut space = space;
    let within = kept_to(alloc, task, is_cut(search), &mut space)?;
    match within {
        None => match limit {
            None => MemberPlans::new(alloc, task, space),
            Some(most) => MemberPlans::within(alloc, task, space, most),
        },
        Some(kept) => match limit {
            None => MemberPlans::new_within(alloc, task, space, kept),
            Some(most) => MemberPlans::within_most(alloc, task, space, most, kept),
        },
    }
}

/// One plan of each class of rearrangements of the task, in the same way.
pub(crate) fn class_plans<'a, S: Space + Drop>(
    alloc: Global,
    task: &'a Task,
    search: Search,
    space: S,
    limit: Option<u64>,
) -> Result<Classes<MemberPlans<'a, S>>, Memory>
    requires task { (S.view space).task ≡ task.now }
    requires system { (S.view space).system ≡ system_of task.now }
    requires none { (a : S.Set) → IsFalse ((S.view space).valid a) }
    ensures { IfOk result (OwesAll ⟦<Classes<MemberPlans<'a, S>> as LazyPlans>⟧.system
        ⟦<Classes<MemberPlans<'a, S>> as LazyPlans>⟧.mode ⟦<Classes<MemberPlans<'a, S>> as LazyPlans>⟧.most
        ⟦<Classes<MemberPlans<'a, S>> as LazyPlans>⟧.pends ⟦<Classes<MemberPlans<'a, S>> as LazyPlans>⟧.lawful
        task.now Unordered limit) }
{
    let members = member_plans(alloc, task, search, space, limit)?;
    Ok(Classes::new(alloc, members))
}

/// All loopless plans of the task, in the same way. They are searched for backward, whatever the direction.
pub(crate) fn loopless_plans<S: Space + Drop>(
    alloc: Global,
    task: &Task,
    search: Search,
    space: S,
    limit: Option<u64>,
) -> Result<LooplessPlans<S>, Memory>
    requires task { (S.view space).task ≡ task.now }
    requires system { (S.view space).system ≡ system_of task.now }
    requires none { (a : S.Set) → IsFalse ((S.view space).valid a) }
    ensures { IfOk result (OwesAll ⟦<LooplessPlans<S> as LazyPlans>⟧.system ⟦<LooplessPlans<S> as LazyPlans>⟧.mode
        ⟦<LooplessPlans<S> as LazyPlans>⟧.most ⟦<LooplessPlans<S> as LazyPlans>⟧.pends
        ⟦<LooplessPlans<S> as LazyPlans>⟧.lawful task.now Loopless limit) }
{
    let mut space = space;
    let within = kept_to(alloc, task, search.mutex, &mut space)?;
    match within {
        None => match limit {
            None => LooplessPlans::new(alloc, space),
            Some(most) => LooplessPlans::within(alloc, space, most),
        },
        Some(kept) => match limit {
            None => LooplessPlans::new_within(alloc, space, kept),
            Some(most) => LooplessPlans::within_most(alloc, space, most, kept),
        },
    }
}
