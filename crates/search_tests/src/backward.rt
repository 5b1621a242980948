//! The search back.

ghost use Rattle.std.specs.Prelude.{IfOk};
ghost use Rattle.space_api.specs.View.{Valid};
ghost use Rattle.space_api.specs.Frames.{Kept};
ghost use Rattle.cost_search.specs.Directed.{IsBackward};

use backward_search::{Backward, Kind, Step};
use bdd_space::BddSpace;
use explicit_space::{ExplicitSpace, FuseSpace};
use small_tasks::{no_plan, switch_and_back};
use space_api::{Space, SpaceFault};
use std::alloc::Global;
use std::process::Abort;
use std::test::Fail;
use symk_task::Task;

fn begin<S: Space>(alloc: Global, space: &mut S, kind: Kind) -> Result<Backward<S::Set>, SpaceFault>
    ensures { IfOk result (IsBackward (S.view space.new)) }
{
    let all = space.all()?;
    Backward::new(alloc, space, all, kind)
}

/// What one call more settles, or None where it closes the search.
fn goes<S: Space>(
    alloc: Global,
    space: &mut S,
    backward: &mut Backward<S::Set>,
) -> Result<Option<u64>, SpaceFault>
    requires { IsBackward (S.view space.old) backward.old }
    ensures { IsBackward (S.view space.new) backward.new }
{
    match backward.extend(alloc, space)? {
        Step::Settled { cost } => Ok(Some(cost)),
        Step::Closed => Ok(None),
    }
}

/// Whether one call after the other settles the costs from 0 on, this many.
fn settles<S: Space>(
    alloc: Global,
    space: &mut S,
    backward: &mut Backward<S::Set>,
    count: u64,
) -> Result<bool, SpaceFault>
    requires { IsBackward (S.view space.old) backward.old }
    ensures { IsBackward (S.view space.new) backward.new }
{
    'costs: for cost in 0..count {
        if goes(alloc, space, backward)? != Some(cost) {
            return Ok(false);
        }
    }
    Ok(true)
}

/// Whether the layer of cost 1 has the initial state alone.
#[tactic(auto, using(crate::proofs::Standing::backward_stays))]
fn next_is_init<S: Space>(space: &mut S, backward: &Backward<S::Set>) -> Result<bool, SpaceFault>
    requires { IsBackward (S.view space.old) backward.now }
    ensures { IsBackward (S.view space.new) backward.now }
{
    let init = space.init()?;
    match backward.layers().layer(1) {
        Some(whole) => Ok(space.same(whole, init)),
        None => Ok(false),
    }
}

/// Whether the layer of the cost has the goal states alone.
#[tactic(auto, using(crate::proofs::Standing::backward_stays))]
fn layer_is_goal<S: Space>(
    space: &mut S,
    backward: &Backward<S::Set>,
    cost: u64,
) -> Result<bool, SpaceFault>
    requires { IsBackward (S.view space.old) backward.now }
    ensures { IsBackward (S.view space.new) backward.now }
{
    let all = space.all()?;
    let goal = space.goal_in(all)?;
    match backward.layers().layer(cost) {
        Some(whole) => Ok(space.same(whole, goal)),
        None => Ok(false),
    }
}

/// The least cost at which a layer has the initial state.
#[tactic(auto, using(crate::proofs::Standing::backward_stays))]
fn least_cost<S: Space>(
    space: &mut S,
    backward: &Backward<S::Set>,
) -> Result<Option<u64>, SpaceFault>
    requires { IsBackward (S.view space.old) backward.now }
{
    let init = space.init()?;
    backward.least_at(space, init)
}

/// The least cost at which a layer has a state of the empty set.
#[tactic(auto, using(crate::proofs::Standing::backward_stays))]
fn cost_of_none<S: Space>(
    space: &mut S,
    backward: &Backward<S::Set>,
) -> Result<Option<u64>, SpaceFault>
    requires { IsBackward (S.view space.old) backward.now }
    ensures { IsBackward (S.view space.new) backward.now }
{
    let none = space.empty()?;
    backward.least_at(space, none)
}

/// On a switch: layer 0 has on and layer 1 off, there is no layer 2; the least cost of off is 1, and no state has none.
fn once_each<S: Space>(rt: &impl Abort, alloc: Global, space: &mut S) -> Result<(), SpaceFault> {
    let mut backward = begin(alloc, space, Kind::Least)?;
    assert!(rt; settles(alloc, space, &mut backward, 3)?);
    assert!(rt; goes(alloc, space, &mut backward)?.is_none());
    assert!(rt; layer_is_goal(space, &backward, 0)?);
    assert!(rt; next_is_init(space, &backward)?);
    assert!(rt; backward.layers().layer(2).is_none());
    assert!(rt; backward.found().is_some());
    assert_eq!(rt; cost_of_none(space, &backward)?, None);
    assert_eq!(rt; least_cost(space, &backward)?, Some(1));
    Ok(())
}

fn holds_once_each<S: Space + Drop>(
    rt: &impl Abort,
    alloc: Global,
    space: S,
) -> Result<(), SpaceFault> {
    let mut space = space;
    once_each(rt, alloc, &mut space)
}

fn both_hold_once_each(rt: &impl Abort, alloc: Global, task: &Task) -> Result<(), SpaceFault> {
    holds_once_each(rt, alloc, ExplicitSpace::of(alloc, task)?)?;
    holds_once_each(rt, alloc, BddSpace::of(alloc, task)?)
}

#[test]
fn kept_once_each_state_stands_at_its_least_cost_and_the_search_closes(
    rt: HostRuntime,
) -> Result<(), Fail> {
    let task = switch_and_back(rt.alloc())?;
    both_hold_once_each(&rt, rt.alloc(), &task)?;
    Ok(())
}

/// Cuts the layers to no state.
#[tactic(auto, using(crate::proofs::Standing::backward_stays))]
fn keep_none<S: Space>(
    alloc: Global,
    space: &mut S,
    backward: &mut Backward<S::Set>,
) -> Result<(), SpaceFault>
    requires { IsBackward (S.view space.old) backward.old }
    ensures { IsBackward (S.view space.new) backward.new }
{
    let none = space.empty()?;
    backward.narrow(alloc, space, none)
}

/// Whether the search is kept to no state.
#[tactic(auto, using(crate::proofs::Standing::within_valid))]
fn is_kept_to_none<S: Space>(space: &S, backward: &Backward<S::Set>) -> bool
    requires { IsBackward (S.view space.now) backward.now }
{
    space.is_empty(*backward.within())
}

/// On a lamp that is no goal: each layer has the goal states, until all are cut.
fn each_time<S: Space>(rt: &impl Abort, alloc: Global, space: &mut S) -> Result<(), SpaceFault> {
    let mut backward = begin(alloc, space, Kind::Every)?;
    assert!(rt; settles(alloc, space, &mut backward, 3)?);
    assert!(rt; layer_is_goal(space, &backward, 2)?);
    keep_none(alloc, space, &mut backward)?;
    assert!(rt; is_kept_to_none(space, &backward));
    assert!(rt; goes(alloc, space, &mut backward)? == Some(3));
    assert!(rt; goes(alloc, space, &mut backward)?.is_none());
    Ok(())
}

fn holds_each_time<S: Space + Drop>(
    rt: &impl Abort,
    alloc: Global,
    space: S,
) -> Result<(), SpaceFault> {
    let mut space = space;
    each_time(rt, alloc, &mut space)
}

#[test]
fn kept_each_time_the_goal_states_come_back_until_all_are_cut(rt: HostRuntime) -> Result<(), Fail> {
    let task = no_plan(rt.alloc())?;
    holds_each_time(&rt, rt.alloc(), ExplicitSpace::of(rt.alloc(), &task)?)?;
    Ok(())
}

/// Whether one call more is answered. One that is refused leaves the bound, and how many rings cost 0 has.
fn is_answered<S: Space>(
    rt: &impl Abort,
    alloc: Global,
    space: &mut S,
    backward: &mut Backward<S::Set>,
) -> bool
    requires { IsBackward (S.view space.old) backward.old }
    ensures { IsBackward (S.view space.new) backward.new }
{
    let known = backward.layers().known_below();
    let rings = backward.layers().rings(0);
    if backward.extend(alloc, space).is_ok() {
        return true;
    }
    assert!(rt; backward.layers().known_below() == known);
    assert!(rt; backward.layers().rings(0) == rings);
    false
}

/// Whether three calls are answered. After one that is refused each is.
fn are_answered<S: Space>(
    rt: &impl Abort,
    alloc: Global,
    space: &mut S,
) -> Result<bool, SpaceFault> {
    let mut backward = begin(alloc, space, Kind::Least)?;
    let first = is_answered(rt, alloc, space, &mut backward);
    let second = is_answered(rt, alloc, space, &mut backward);
    let third = is_answered(rt, alloc, space, &mut backward);
    assert!(rt; first >= second && second >= third);
    Ok(third)
}

#[test]
fn after_a_refused_call_each_is_refused_and_the_layers_stay(rt: HostRuntime) -> Result<(), Fail> {
    let task = switch_and_back(rt.alloc())?;
    let mut answered = false;
    for n in 0..100 {
        let mut space = FuseSpace::new(ExplicitSpace::of(rt.alloc(), &task)?, n);
        answered = are_answered(&rt, rt.alloc(), &mut space).unwrap_or(false);
        if answered {
            break;
        }
    }
    assert!(rt; answered);
    Ok(())
}
