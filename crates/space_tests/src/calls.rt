//! Worked rows over any space of a switch: off at first, on is the goal, the first operator turns it on and the second
//! off; and a run of many rounds. Each takes its space by value: a generic text that drops one is proved at once.

ghost use Rattle.std.specs.Prelude.{◌≡◌, IfOk};
ghost use Rattle.space_api.specs.View.{Valid};
ghost use Rattle.space_api.specs.Frames.{Kept, Stays};

use explicit_space::FuseSpace;
use space_api::{Space, SpaceFault};
use std::alloc::Global;
use std::process::Abort;

/// Whether the set has the state off, and whether it has on.
fn members<S: Space>(space: &mut S, set: S::Set) -> Result<(bool, bool), SpaceFault>
    requires { Valid (S.view space.old) set }
    ensures { Kept (S.view space.old) (S.view space.new) }
{
    let on = space.goal_in(set)?;
    Ok((space.has_init(set), !space.is_empty(on)))
}

/// The empty set has neither state, the initial one off, all states both, and the goal states on.
fn first_sets<S: Space>(rt: &impl Abort, space: &mut S) -> Result<(), SpaceFault> {
    let empty = space.empty()?;
    assert_eq!(rt; members(space, empty)?, (false, false));
    let init = space.init()?;
    assert_eq!(rt; members(space, init)?, (true, false));
    let all = space.all()?;
    assert_eq!(rt; members(space, all)?, (true, true));
    let goal = space.goal_in(all)?;
    assert_eq!(rt; members(space, goal)?, (false, true));
    Ok(())
}

/// Operators of cost 1 lead on from off, and the second one doesn't.
fn images<S: Space>(rt: &impl Abort, space: &mut S) -> Result<(), SpaceFault> {
    let init = space.init()?;
    let to = space.image_cost(1, init)?;
    assert_eq!(rt; members(space, to)?, (false, true));
    assert!(rt; space.operators() == 2);
    let stuck = space.image_op(1, init)?;
    assert!(rt; space.is_empty(stuck));
    Ok(())
}

/// The second operator alone leads to off, and from on alone.
fn preimages<S: Space>(rt: &impl Abort, space: &mut S) -> Result<(), SpaceFault> {
    let init = space.init()?;
    let all = space.all()?;
    let from = space.pre_cost(1, init, all)?;
    assert_eq!(rt; members(space, from)?, (false, true));
    assert!(rt; space.operators() == 2);
    let back = space.pre_op(1, init, all)?;
    assert!(rt; space.same(back, from));
    let within = space.pre_op(1, init, init)?;
    assert!(rt; space.is_empty(within));
    Ok(())
}

/// Off and on are all and share none, and all without off is on.
fn joined<S: Space>(rt: &impl Abort, space: &mut S) -> Result<(), SpaceFault> {
    let init = space.init()?;
    let all = space.all()?;
    let goal = space.minus(all, init)?;
    assert_eq!(rt; members(space, goal)?, (false, true));
    let both = space.unite(init, goal)?;
    assert!(rt; space.same(both, all));
    let none = space.meet(init, goal)?;
    assert!(rt; space.is_empty(none));
    space.forget(both);
    Ok(())
}

/// Two operators of one cost.
fn counts<S: Space>(rt: &impl Abort, space: &S) {
    assert!(rt; space.costs() == 1);
    assert_eq!(rt; space.cost_at(0), 1);
    assert!(rt; space.operators() == 2);
    assert_eq!(rt; space.cost_of(1), 1);
}

/// All that is looked at above.
pub fn rows<S: Space + Drop>(rt: &impl Abort, space: S) -> Result<(), SpaceFault> {
    let mut space = space;
    first_sets(rt, &mut space)?;
    images(rt, &mut space)?;
    preimages(rt, &mut space)?;
    joined(rt, &mut space)?;
    counts(rt, &space);
    Ok(())
}

/// Of the operators that may lead to off and from it none is left out, and of these two the other one is.
pub fn operators_that_matter<S: Space + Drop>(
    rt: &impl Abort,
    alloc: Global,
    space: S,
) -> Result<(), SpaceFault> {
    let mut space = space;
    let init = space.init()?;
    assert_eq!(rt;
        space.operators_into(alloc, init)?.as_slice(),
        [1].as_slice()
    );
    assert_eq!(rt;
        space.operators_from(alloc, init)?.as_slice(),
        [0].as_slice()
    );
    let all = space.all()?;
    assert_eq!(rt;
        space.operators_into(alloc, all)?.as_slice(),
        [0, 1].as_slice()
    );
    Ok(())
}

/// An image that is made and given back.
fn round<S: Space>(space: &mut S, init: S::Set) -> Result<(), SpaceFault>
    requires { Valid (S.view space.old) init }
    ensures { Valid (S.view space.new) init }
{
    let image = space.image_cost(1, init)?;
    space.forget(image);
    space.tidy()
}

fn rounds<S: Space>(space: &mut S) -> Result<S::Set, SpaceFault>
    ensures { IfOk result (Valid (S.view space.new)) }
{
    let init = space.init()?;
    'rounds: for _ in 0..1000 {
        round(space, init)?;
    }
    Ok(init)
}

/// A thousand images that are given back leave few nodes, and the set out of which they were made.
pub fn few_nodes<S: Space + Drop>(rt: &impl Abort, space: S) -> Result<(), SpaceFault> {
    let mut space = space;
    let init = rounds(&mut space)?;
    assert!(rt; space.held() as u128 <= 2 * space.last() as u128 + 1000);
    assert!(rt; space.has_init(init));
    Ok(())
}

/// How many of three calls are not refused.
fn given<S: Space>(space: &mut S, a: S::Set, b: S::Set) -> u64
    requires a { Valid (S.view space.old) a }
    requires b { Valid (S.view space.old) b }
    ensures { Kept (S.view space.old) (S.view space.new) }
{
    let united = space.unite(a, b).is_ok();
    let met = space.meet(a, b).is_ok();
    let goal = space.goal_in(b).is_ok();
    u64::from(united) + u64::from(met) + u64::from(goal)
}

/// Makes three sets, tries three calls more, looks at the three sets, and says how many of the later calls gave a set.
pub fn tried<S: Space + Drop>(rt: &impl Abort, space: S) -> Result<u64, SpaceFault> {
    let mut space = space;
    let init = space.init()?;
    let all = space.all()?;
    let rest = space.minus(all, init)?;
    let given = given(&mut space, init, rest);
    assert!(rt; space.has_init(init));
    assert!(rt; space.has_init(all));
    assert!(rt; !space.has_init(rest));
    assert!(rt; !space.is_empty(rest));
    assert!(rt; !space.same(init, all));
    Ok(given)
}

/// Whether the space is tidied, and how many nodes it then holds and needed last.
fn tidied<S: Space>(space: &mut S) -> (bool, usize, usize)
    ensures stays { Stays (S.view space.old) (S.view space.new) }
    ensures held { result.1 ≡ (S.view space.new).held }
    ensures last { result.2 ≡ (S.view space.new).last }
{
    let tidied = space.tidy().is_ok();
    (tidied, space.held(), space.last())
}

/// A space of single states holds no node, is tidied, and has its set after it.
pub fn holds_no_node<S: Space + Drop>(rt: &impl Abort, space: S) -> Result<(), SpaceFault> {
    let mut space = space;
    let init = space.init()?;
    assert_eq!(rt; space.held(), 0);
    assert_eq!(rt; space.last(), 0);
    assert_eq!(rt; tidied(&mut space), (true, 0, 0));
    assert!(rt; space.has_init(init));
    Ok(())
}

/// With one call left the space is tidied, and with none left neither that nor a set is given.
pub fn tidied_once<S: Space + Drop>(rt: &impl Abort, space: S) -> Result<(), SpaceFault> {
    let mut fuse = FuseSpace::new(space, 1);
    assert_eq!(rt; tidied(&mut fuse), (true, 0, 0));
    assert!(rt; fuse.left == 0);
    assert_eq!(rt; tidied(&mut fuse), (false, 0, 0));
    assert!(rt; fuse.init().is_err());
    Ok(())
}
