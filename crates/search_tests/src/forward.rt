//! The search ahead.

ghost use Rattle.std.specs.Prelude.{IfOk};
ghost use Rattle.space_api.specs.View.{Valid};
ghost use Rattle.space_api.specs.Frames.{Kept};
ghost use Rattle.cost_search.specs.Directed.{IsForward};

use bdd_space::BddSpace;
use explicit_space::{ExplicitSpace, FuseSpace};
use forward_search::{Forward, Step};
use small_tasks::{
    Draft, FIRST_0_TO_1, FIRST_0_TO_2, FURTHER, OperatorDraft, THREE, drafted, switch_and_back,
    zero_costs,
};
use space_api::{Space, SpaceFault};
use std::alloc::Global;
use std::process::Abort;
use std::test::Fail;
use symk_task::Task;

fn begin<S: Space>(alloc: Global, space: &mut S) -> Result<Forward<S::Set>, SpaceFault>
    ensures { IfOk result (IsForward (S.view space.new)) }
{
    let all = space.all()?;
    Forward::new(alloc, space, all)
}

/// What one call more settles, or None where it closes the search.
fn goes<S: Space>(
    alloc: Global,
    space: &mut S,
    forward: &mut Forward<S::Set>,
) -> Result<Option<u64>, SpaceFault>
    requires { IsForward (S.view space.old) forward.old }
    ensures { IsForward (S.view space.new) forward.new }
{
    match forward.extend(alloc, space)? {
        Step::Settled { cost } => Ok(Some(cost)),
        Step::Closed => Ok(None),
    }
}

/// Whether one call after the other settles these costs, and one more closes the search.
fn settles<S: Space>(
    alloc: Global,
    space: &mut S,
    forward: &mut Forward<S::Set>,
    costs: &[u64],
) -> Result<bool, SpaceFault>
    requires { IsForward (S.view space.old) forward.old }
    ensures { IsForward (S.view space.new) forward.new }
{
    'costs: for cost in costs {
        if goes(alloc, space, forward)? != Some(*cost) {
            return Ok(false);
        }
    }
    Ok(goes(alloc, space, forward)?.is_none())
}

/// Whether the layer of cost 0 has the initial state alone.
#[tactic(auto, using(crate::proofs::Standing::forward_stays))]
fn first_is_init<S: Space>(space: &mut S, forward: &Forward<S::Set>) -> Result<bool, SpaceFault>
    requires { IsForward (S.view space.old) forward.now }
    ensures { IsForward (S.view space.new) forward.now }
{
    let init = space.init()?;
    match forward.layers().layer(0) {
        Some(whole) => Ok(space.same(whole, init)),
        None => Ok(false),
    }
}

/// Whether the layer of cost 1 has the goal states alone.
#[tactic(auto, using(crate::proofs::Standing::forward_stays))]
fn next_is_goal<S: Space>(space: &mut S, forward: &Forward<S::Set>) -> Result<bool, SpaceFault>
    requires { IsForward (S.view space.old) forward.now }
    ensures { IsForward (S.view space.new) forward.now }
{
    let all = space.all()?;
    let goal = space.goal_in(all)?;
    match forward.layers().layer(1) {
        Some(whole) => Ok(space.same(whole, goal)),
        None => Ok(false),
    }
}

/// Whether all states are found.
#[tactic(auto, using(crate::proofs::Standing::forward_stays))]
fn finds_all<S: Space>(space: &mut S, forward: &Forward<S::Set>) -> Result<bool, SpaceFault>
    requires { IsForward (S.view space.old) forward.now }
    ensures { IsForward (S.view space.new) forward.now }
{
    let all = space.all()?;
    match forward.found() {
        Some(found) => Ok(space.same(found, all)),
        None => Ok(false),
    }
}

/// On the task of costs 0: layer 0 is the initial state, layer 1 the goal state, layer 2 is not there; both are found.
fn two_layers<S: Space>(rt: &impl Abort, alloc: Global, space: &mut S) -> Result<(), SpaceFault> {
    let mut forward = begin(alloc, space)?;
    assert!(rt; settles(alloc, space, &mut forward, &[0, 1, 2])?);
    assert!(rt; first_is_init(space, &forward)?);
    assert!(rt; next_is_goal(space, &forward)?);
    assert!(rt; forward.layers().layer(2).is_none());
    assert!(rt; finds_all(space, &forward)?);
    assert!(rt; !forward.layers().beyond());
    Ok(())
}

fn has_two_layers<S: Space + Drop>(
    rt: &impl Abort,
    alloc: Global,
    space: S,
) -> Result<(), SpaceFault> {
    let mut space = space;
    two_layers(rt, alloc, &mut space)
}

fn both_have_two_layers(rt: &impl Abort, alloc: Global, task: &Task) -> Result<(), SpaceFault> {
    has_two_layers(rt, alloc, ExplicitSpace::of(alloc, task)?)?;
    has_two_layers(rt, alloc, BddSpace::of(alloc, task)?)
}

#[test]
fn each_layer_has_what_its_cost_reaches_and_an_empty_one_closes(
    rt: HostRuntime,
) -> Result<(), Fail> {
    let task = zero_costs(rt.alloc())?;
    both_have_two_layers(&rt, rt.alloc(), &task)?;
    Ok(())
}

/// A dear step to the goal, of as much as 64 bits hold, and a cheap one on from there.
const DEAR: Draft<'_> = Draft {
    metric: 1,
    variables: &[THREE],
    initial: &[0],
    goal: &[(0, 1)],
    operators: &[
        OperatorDraft {
            name: b"big",
            effects: &[FIRST_0_TO_1],
            cost: u64::MAX,
        },
        FURTHER,
    ],
    rules: &[],
};

/// Cuts the layers to the initial state and the goal states.
#[tactic(auto, using(crate::proofs::Standing::forward_stays))]
fn keep_ends<S: Space>(
    alloc: Global,
    space: &mut S,
    forward: &mut Forward<S::Set>,
) -> Result<(), SpaceFault>
    requires { IsForward (S.view space.old) forward.old }
    ensures { IsForward (S.view space.new) forward.new }
{
    let init = space.init()?;
    let all = space.all()?;
    let goal = space.goal_in(all)?;
    let ends = space.unite(init, goal)?;
    forward.narrow(alloc, space, ends)
}

/// Whether a cost past the range was left out, where the layers were cut after the first or not at all.
fn is_beyond<S: Space>(
    rt: &impl Abort,
    alloc: Global,
    space: &mut S,
    cut: bool,
) -> Result<bool, SpaceFault> {
    let mut forward = begin(alloc, space)?;
    assert!(rt; goes(alloc, space, &mut forward)? == Some(0));
    if cut {
        keep_ends(alloc, space, &mut forward)?;
    }
    assert!(rt; settles(alloc, space, &mut forward, &[1, u64::MAX])?);
    Ok(forward.layers().beyond())
}

fn is_beyond_unless_cut<S: Space + Drop>(
    rt: &impl Abort,
    alloc: Global,
    space: S,
) -> Result<(), SpaceFault> {
    let mut space = space;
    assert!(rt; !is_beyond(rt, alloc, &mut space, true)?);
    assert!(rt; is_beyond(rt, alloc, &mut space, false)?);
    Ok(())
}

fn both_are_beyond_unless_cut(
    rt: &impl Abort,
    alloc: Global,
    task: &Task,
) -> Result<(), SpaceFault> {
    is_beyond_unless_cut(rt, alloc, ExplicitSpace::of(alloc, task)?)?;
    is_beyond_unless_cut(rt, alloc, BddSpace::of(alloc, task)?)
}

#[test]
fn a_cost_past_the_range_is_marked_unless_its_states_were_cut(rt: HostRuntime) -> Result<(), Fail> {
    let task = drafted(rt.alloc(), &DEAR)?.expect(&rt, "the draft fits");
    both_are_beyond_unless_cut(&rt, rt.alloc(), &task)?;
    Ok(())
}

/// The operator that leads to the dead end of the fork.
const LOSE: OperatorDraft<'_> = OperatorDraft {
    name: b"lose",
    effects: &[FIRST_0_TO_1],
    cost: 0,
};

/// The operator that leads to its goal.
const WIN: OperatorDraft<'_> = OperatorDraft {
    name: b"win",
    effects: &[FIRST_0_TO_2],
    cost: 0,
};

/// A place from which two operators lead at cost 0: the first to a dead end, the second to the goal.
const FORK: Draft<'_> = Draft {
    metric: 1,
    variables: &[THREE],
    initial: &[0],
    goal: &[(0, 2)],
    operators: &[LOSE, WIN],
    rules: &[],
};

/// Whether the second ring of cost 0 has the goal states alone.
#[tactic(auto, using(crate::proofs::Standing::forward_stays))]
fn second_is_goal<S: Space>(space: &mut S, forward: &Forward<S::Set>) -> Result<bool, SpaceFault>
    requires { IsForward (S.view space.old) forward.now }
    ensures { IsForward (S.view space.new) forward.now }
{
    let all = space.all()?;
    let goal = space.goal_in(all)?;
    match forward.layers().ring(0, 1) {
        Some(ring) => Ok(space.same(ring, goal)),
        None => Ok(false),
    }
}

/// On the fork: the dead end goes from the second ring of cost 0, which keeps its number and the goal state.
fn one_member_goes<S: Space>(
    rt: &impl Abort,
    alloc: Global,
    space: &mut S,
) -> Result<(), SpaceFault> {
    let mut forward = begin(alloc, space)?;
    assert!(rt; goes(alloc, space, &mut forward)? == Some(0));
    assert_eq!(rt; forward.layers().rings(0), 2);
    assert!(rt; !second_is_goal(space, &forward)?);
    keep_ends(alloc, space, &mut forward)?;
    assert_eq!(rt; forward.layers().rings(0), 2);
    assert!(rt; second_is_goal(space, &forward)?);
    Ok(())
}

fn loses_one_member<S: Space + Drop>(
    rt: &impl Abort,
    alloc: Global,
    space: S,
) -> Result<(), SpaceFault> {
    let mut space = space;
    one_member_goes(rt, alloc, &mut space)
}

fn both_lose_one_member(rt: &impl Abort, alloc: Global, task: &Task) -> Result<(), SpaceFault> {
    loses_one_member(rt, alloc, ExplicitSpace::of(alloc, task)?)?;
    loses_one_member(rt, alloc, BddSpace::of(alloc, task)?)
}

#[test]
fn a_member_that_is_not_useful_goes_and_its_ring_keeps_its_number(
    rt: HostRuntime,
) -> Result<(), Fail> {
    let task = drafted(rt.alloc(), &FORK)?.expect(&rt, "the draft fits");
    both_lose_one_member(&rt, rt.alloc(), &task)?;
    Ok(())
}

/// Whether one call more is answered. One that is refused leaves the bound, and how many rings cost 0 has.
fn is_answered<S: Space>(
    rt: &impl Abort,
    alloc: Global,
    space: &mut S,
    forward: &mut Forward<S::Set>,
) -> bool
    requires { IsForward (S.view space.old) forward.old }
    ensures { IsForward (S.view space.new) forward.new }
{
    let known = forward.layers().known_below();
    let rings = forward.layers().rings(0);
    if forward.extend(alloc, space).is_ok() {
        return true;
    }
    assert!(rt; forward.layers().known_below() == known);
    assert!(rt; forward.layers().rings(0) == rings);
    false
}

/// Whether three calls are answered. After one that is refused each is.
fn are_answered<S: Space>(
    rt: &impl Abort,
    alloc: Global,
    space: &mut S,
) -> Result<bool, SpaceFault> {
    let mut forward = begin(alloc, space)?;
    let first = is_answered(rt, alloc, space, &mut forward);
    let second = is_answered(rt, alloc, space, &mut forward);
    let third = is_answered(rt, alloc, space, &mut forward);
    assert!(rt; first >= second && second >= third);
    Ok(third)
}

#[test]
fn after_a_refused_call_each_is_refused_and_the_layers_stay(rt: HostRuntime) -> Result<(), Fail> {
    let task = switch_and_back(rt.alloc())?;
    let mut answered = false;
    for n in 0..100 {
        let mut space = FuseSpace::new(ExplicitSpace::of(rt.alloc(), &task)?, n);
        answered = are_answered(&rt, rt.alloc(), &mut space).unwrap_or(false);
        if answered {
            break;
        }
    }
    assert!(rt; answered);
    Ok(())
}
