//! Rows.

ghost use Rattle.std.specs.Prelude.{◌≡◌, ◌↔◌, All, IsTrue};
ghost use Rattle.symk_task.specs.Variables.{IsBase};
ghost use Rattle.space_api.specs.View.{Valid};
ghost use Rattle.space_api.specs.Frames.{Kept};
ghost use Rattle.mutex_use.specs.Groups.{AreBaseFacts, IsBaseGroup};

use bdd_space::BddSpace;
use explicit_space::{ExplicitSpace, FuseSpace};
use mutex_use::{inductive_groups, keeping, within};
use sas_reader::{ReadFault, read_task};
use space_api::{Space, SpaceFault};
use std::alloc::{AllocError, Global};
use std::process::Abort;
use std::test::Fail;
use symk_task::{Fact, Memory, Task};

/// One of two lamps is on, and an operator makes the other one be on. Of its groups the third fails at the start.
const MOVED: &[u8] = b"begin_version\n3\nend_version\nbegin_metric\n0\nend_metric\n2
begin_variable\na\n-1\n2\noff\non\nend_variable\nbegin_variable\nb\n-1\n2\noff\non\nend_variable\n3
begin_mutex_group\n2\n0 1\n1 1\nend_mutex_group\nbegin_mutex_group\n2\n0 0\n1 0\nend_mutex_group
begin_mutex_group\n2\n0 1\n1 0\nend_mutex_group\nbegin_state\n1\n0\nend_state\nbegin_goal\n1\n1 1\nend_goal
1\nbegin_operator\nmove\n0\n2\n0 0 1 0\n0 1 0 1\n1\nend_operator\n0\n";

/// Two lamps are off, and each is turned on by an operator. A group says that they are never both on.
const SWITCHES: &[u8] = b"begin_version\n3\nend_version\nbegin_metric\n0\nend_metric\n2
begin_variable\na\n-1\n2\noff\non\nend_variable\nbegin_variable\nb\n-1\n2\noff\non\nend_variable\n1
begin_mutex_group\n2\n0 1\n1 1\nend_mutex_group\nbegin_state\n0\n0\nend_state\nbegin_goal\n2\n0 1\n1 1\nend_goal
2\nbegin_operator\na-on\n0\n1\n0 0 0 1\n1\nend_operator\nbegin_operator\nb-on\n0\n1\n0 1 0 1\n1\nend_operator\n0\n";

/// A lamp, and a derived variable. The groups: no fact, one fact twice, and a fact of either variable.
const DERIVED: &[u8] = b"begin_version\n3\nend_version\nbegin_metric\n0\nend_metric\n2
begin_variable\na\n-1\n2\noff\non\nend_variable\nbegin_variable\nd\n0\n2\nno\nyes\nend_variable\n3
begin_mutex_group\n0\nend_mutex_group\nbegin_mutex_group\n2\n0 1\n0 1\nend_mutex_group
begin_mutex_group\n2\n0 0\n1 1\nend_mutex_group\nbegin_state\n0\n0\nend_state\nbegin_goal\n1\n0 1\nend_goal
1\nbegin_operator\na-on\n0\n1\n0 0 0 1\n1\nend_operator\n1\nbegin_rule\n1\n0 1\n1 0 1\nend_rule\n";

/// Each file, and the groups of it that hold.
const ROWS: [(&[u8], &[u32]); 3] = [(MOVED, &[0, 1]), (SWITCHES, &[]), (DERIVED, &[0, 1])];

/// The task of the file.
fn task_of(rt: &impl Abort, alloc: Global, text: &[u8]) -> Result<Task, Memory> {
    match read_task(alloc, text) {
        Ok(task) => Ok(task),
        Err(ReadFault::Memory) => Err(AllocError),
        Err(ReadFault::Offence { .. }) => rt.abort(),
    }
}

/// The groups that hold.
fn found<S: Space + Drop>(alloc: Global, space: S, task: &Task) -> Result<Vec<u32>, SpaceFault>
    requires { (S.view space).task ≡ task.now }
{
    let mut space = space;
    inductive_groups(alloc, &mut space, task)
}

/// Whether these groups are found over each space.
fn are_found(alloc: Global, task: &Task, groups: &[u32]) -> Result<bool, SpaceFault> {
    let by_states = found(alloc, ExplicitSpace::of(alloc, task)?, task)?;
    let by_diagrams = found(alloc, BddSpace::of(alloc, task)?, task)?;
    Ok(by_states.as_slice() == groups && by_diagrams.as_slice() == groups)
}

#[test]
fn groups_that_hold_are_found_and_no_others(rt: HostRuntime) -> Result<(), Fail> {
    let alloc = rt.alloc();
    for (text, groups) in ROWS {
        let task = task_of(&rt, alloc, text)?;
        assert!(rt; are_found(alloc, &task, groups)?);
    }
    Ok(())
}

/// Whether the variable is there and has no layer.
fn is_base(task: &Task, var: u32) -> bool
    ensures { IsTrue result ↔ IsBase task.now var }
{
    match task.parts().variables.as_slice().get(var as usize) {
        Some(variable) => variable.layer.is_none(),
        None => false,
    }
}

/// Whether the states where the first variable has the value 1 are the initial one and a goal state, and where
/// it has the value 0 are all others.
fn splits_by_a_fact<S: Space + Drop>(space: S) -> Result<bool, SpaceFault>
    requires { IsBase (S.view space).task 0 }
{
    let mut space = space;
    let all = space.all()?;
    let on = space.fact_in(Fact { var: 0, val: 1 }, all)?;
    let off = space.fact_in(Fact { var: 0, val: 0 }, all)?;
    let init = space.init()?;
    let goals = space.goal_in(on)?;
    let known = space.unite(init, goals)?;
    let others = space.minus(all, on)?;
    Ok(space.same(on, known) && !space.is_empty(goals) && space.same(off, others))
}

/// Whether each space splits its states by the first variable, where that isn't derived.
fn both_split_by_a_fact(alloc: Global, task: &Task) -> Result<bool, SpaceFault> {
    if !is_base(task, 0) {
        return Ok(false);
    }
    Ok(
        splits_by_a_fact(ExplicitSpace::of(alloc, task)?)?
            && splits_by_a_fact(BddSpace::of(alloc, task)?)?,
    )
}

#[test]
fn a_fact_of_the_first_lamp_holds_whatever_the_second_is(rt: HostRuntime) -> Result<(), Fail> {
    let alloc = rt.alloc();
    let task = task_of(&rt, alloc, MOVED)?;
    assert!(rt; both_split_by_a_fact(alloc, &task)?);
    Ok(())
}

/// Whether the states that keep the groups are the initial one and the one to which the operator leads.
fn keeps_both<S: Space + Drop>(
    rt: &impl Abort,
    alloc: Global,
    space: S,
    task: &Task,
) -> Result<bool, SpaceFault>
    requires { (S.view space).task ≡ task.now }
{
    let mut space = space;
    let kept = within(alloc, &mut space, task)?;
    let init = space.init()?;
    assert!(rt; space.operators() > 0);
    let moved = space.image_op(0, init)?;
    let both = space.unite(init, moved)?;
    Ok(space.same(kept, both))
}

/// Whether each space keeps the two states.
fn each_keeps_both(rt: &impl Abort, alloc: Global, task: &Task) -> Result<bool, SpaceFault> {
    let by_states = keeps_both(rt, alloc, ExplicitSpace::of(alloc, task)?, task)?;
    let by_diagrams = keeps_both(rt, alloc, BddSpace::of(alloc, task)?, task)?;
    Ok(by_states && by_diagrams)
}

#[test]
fn the_states_of_a_plan_are_those_that_keep_the_groups(rt: HostRuntime) -> Result<(), Fail> {
    let alloc = rt.alloc();
    let task = task_of(&rt, alloc, MOVED)?;
    assert!(rt; each_keeps_both(&rt, alloc, &task)?);
    Ok(())
}

/// Whether each fact is one of a base variable.
fn are_base(task: &Task, facts: &[Fact]) -> bool
    ensures { IsTrue result ↔ AreBaseFacts task.now facts.now }
{
    facts.iter().all(|fact| is_base(task, fact.var))
}

/// Whether the group is there, over base variables alone.
fn is_base_group(task: &Task, group: u32) -> bool
    ensures { IsTrue result → IsBaseGroup task.now group }
{
    let groups = task.parts().mutexes.as_slice();
    if group as usize >= groups.len() {
        return false;
    }
    are_base(task, groups[group as usize].as_slice())
}

/// Whether each group is there, over base variables alone.
fn are_base_groups(task: &Task, groups: &[u32]) -> bool
    ensures { IsTrue result → All (IsBaseGroup task.now) groups.now }
{
    groups.iter().all(|group| is_base_group(task, *group))
}

/// Whether the states that keep the groups, which are over base variables alone, are those of the set.
fn are_kept_by<S: Space>(
    alloc: Global,
    space: &mut S,
    task: &Task,
    groups: &[u32],
    set: S::Set,
) -> Result<bool, SpaceFault>
    requires task { (S.view space.old).task ≡ task.now }
    requires set { Valid (S.view space.old) set }
    ensures task { (S.view space.new).task ≡ task.now }
    ensures kept { Kept (S.view space.old) (S.view space.new) }
{
    if !are_base_groups(task, groups) {
        return Ok(false);
    }
    let kept = keeping(alloc, space, task, groups)?;
    Ok(space.same(kept, set))
}

/// Whether no groups keep all states, the first two the initial one and the one to which the operator leads, and the
/// third, which fails at the start, all but the initial one.
fn keeps_by_groups<S: Space>(
    rt: &impl Abort,
    alloc: Global,
    space: &mut S,
    task: &Task,
) -> Result<bool, SpaceFault>
    requires { (S.view space.old).task ≡ task.now }
{
    let all = space.all()?;
    let init = space.init()?;
    assert!(rt; space.operators() > 0);
    let moved = space.image_op(0, init)?;
    let both = space.unite(init, moved)?;
    let others = space.minus(all, init)?;
    let none_keep = are_kept_by(alloc, space, task, &[], all)?;
    let two_keep = are_kept_by(alloc, space, task, &[0, 1], both)?;
    let third_keeps = are_kept_by(alloc, space, task, &[2], others)?;
    Ok(none_keep && two_keep && third_keeps)
}

/// Whether they do over this space.
fn is_kept_over<S: Space + Drop>(
    rt: &impl Abort,
    alloc: Global,
    space: S,
    task: &Task,
) -> Result<bool, SpaceFault>
    requires { (S.view space).task ≡ task.now }
{
    let mut space = space;
    keeps_by_groups(rt, alloc, &mut space, task)
}

/// Whether they do over each space.
fn is_kept_over_both(rt: &impl Abort, alloc: Global, task: &Task) -> Result<bool, SpaceFault> {
    let by_states = is_kept_over(rt, alloc, ExplicitSpace::of(alloc, task)?, task)?;
    let by_diagrams = is_kept_over(rt, alloc, BddSpace::of(alloc, task)?, task)?;
    Ok(by_states && by_diagrams)
}

#[test]
fn groups_that_are_handed_over_are_kept_whether_they_hold_or_not(
    rt: HostRuntime,
) -> Result<(), Fail> {
    let alloc = rt.alloc();
    let task = task_of(&rt, alloc, MOVED)?;
    assert!(rt; is_kept_over_both(&rt, alloc, &task)?);
    Ok(())
}

/// Whether the set is found by a space that refuses after so many calls.
fn is_found_within(alloc: Global, task: &Task, calls: u64) -> Result<bool, Memory> {
    let mut space = FuseSpace::new(ExplicitSpace::of(alloc, task)?, calls);
    Ok(within(alloc, &mut space, task).is_ok())
}

#[test]
fn with_one_call_more_the_set_is_found_at_last(rt: HostRuntime) -> Result<(), Fail> {
    let alloc = rt.alloc();
    let task = task_of(&rt, alloc, MOVED)?;
    let mut answered = false;
    for calls in 0..200 {
        let now = is_found_within(alloc, &task, calls)?;
        assert!(rt; now || !answered);
        answered = now;
    }
    assert!(rt; answered);
    Ok(())
}
