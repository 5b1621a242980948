//! Layers that keep no set, and those of one cost, ring by ring.

ghost use Rattle.std.specs.Prelude.{IfOk};
ghost use Rattle.cost_layers.specs.Layers.{Held};

use bdd_space::BddSpace;
use cost_layers::Layers;
use explicit_space::ExplicitSpace;
use small_tasks::switch_and_back;
use space_api::{Space, SpaceFault};
use std::alloc::Global;
use std::process::Abort;
use std::test::Fail;
use symk_task::Task;

#[test]
fn new_layers_have_no_ring_and_bounds_only_rise(rt: HostRuntime) -> Result<(), Fail> {
    let mut layers: Layers<u32> = Layers::new(rt.alloc());
    assert_eq!(rt; layers.layer(0), None);
    assert_eq!(rt; layers.rings(0), 0);
    assert_eq!(rt; layers.ring(0, 1), None);
    assert_eq!(rt; layers.next_cost(0), None);
    layers.raise(1 << 64);
    layers.raise(2);
    assert_eq!(rt; layers.known_below(), 1 << 64);
    assert!(rt; !layers.beyond());
    layers.mark_beyond();
    assert!(rt; layers.beyond());
    Ok(())
}

/// Layers with one ring, of cost 0: the initial state.
fn one_ring<S: Space>(alloc: Global, space: &mut S) -> Result<Layers<S::Set>, SpaceFault>
    ensures { IfOk result (Held (S.view space.new)) }
{
    let mut layers: Layers<S::Set> = Layers::new(alloc);
    let init = space.init()?;
    layers.add_ring(alloc, space, 0, init)?;
    Ok(layers)
}

/// One ring more of cost 0: the goal states.
#[tactic(auto, using(crate::proofs::Standing::layers_stay))]
fn add_goal<S: Space>(
    alloc: Global,
    space: &mut S,
    layers: &mut Layers<S::Set>,
) -> Result<(), SpaceFault>
    requires { Held (S.view space.old) layers.old }
    ensures { Held (S.view space.new) layers.new }
{
    let all = space.all()?;
    let goal = space.goal_in(all)?;
    layers.add_ring(alloc, space, 0, goal)
}

/// Whether the layer of cost 0 has the initial state alone.
#[tactic(auto, using(crate::proofs::Standing::layers_stay))]
fn layer_is_init<S: Space>(space: &mut S, layers: &Layers<S::Set>) -> Result<bool, SpaceFault>
    requires { Held (S.view space.old) layers.now }
    ensures { Held (S.view space.new) layers.now }
{
    let init = space.init()?;
    match layers.layer(0) {
        Some(whole) => Ok(space.same(whole, init)),
        None => Ok(false),
    }
}

/// The first ring of cost 0 that has some state, one that has a goal state, and one that has a state of the empty set.
#[tactic(auto, using(crate::proofs::Standing::layers_stay))]
fn first_rings<S: Space>(
    space: &mut S,
    layers: &Layers<S::Set>,
) -> Result<[Option<u64>; 3], SpaceFault>
    requires { Held (S.view space.old) layers.now }
    ensures { Held (S.view space.new) layers.now }
{
    let all = space.all()?;
    let goal = space.goal_in(all)?;
    let none = space.empty()?;
    Ok([
        layers.least_ring_meeting(space, 0, all)?,
        layers.least_ring_meeting(space, 0, goal)?,
        layers.least_ring_meeting(space, 0, none)?,
    ])
}

/// On a switch: the first ring of cost 0 is its layer until the second comes, and each set is met by its own first.
fn ring_by_ring<S: Space>(rt: &impl Abort, alloc: Global, space: &mut S) -> Result<(), SpaceFault> {
    let mut layers = one_ring(alloc, space)?;
    assert_eq!(rt; layers.rings(0), 1);
    assert!(rt; layer_is_init(space, &layers)?);
    assert!(rt; layers.ring(0, 1).is_none());
    assert!(rt; layers.layer(1).is_none());
    assert_eq!(rt; first_rings(space, &layers)?, [Some(0), None, None]);
    add_goal(alloc, space, &mut layers)?;
    assert_eq!(rt; layers.rings(0), 2);
    assert_eq!(rt; first_rings(space, &layers)?, [Some(0), Some(1), None]);
    Ok(())
}

fn has_ring_by_ring<S: Space + Drop>(
    rt: &impl Abort,
    alloc: Global,
    space: S,
) -> Result<(), SpaceFault> {
    let mut space = space;
    ring_by_ring(rt, alloc, &mut space)
}

fn both_have_ring_by_ring(rt: &impl Abort, alloc: Global, task: &Task) -> Result<(), SpaceFault> {
    has_ring_by_ring(rt, alloc, ExplicitSpace::of(alloc, task)?)?;
    has_ring_by_ring(rt, alloc, BddSpace::of(alloc, task)?)
}

#[test]
fn rings_are_added_one_by_one_and_the_first_that_meets_is_found(
    rt: HostRuntime,
) -> Result<(), Fail> {
    let task = switch_and_back(rt.alloc())?;
    both_have_ring_by_ring(&rt, rt.alloc(), &task)?;
    Ok(())
}
