//! The states where a fact holds, and the operators of a set, in both spaces.

ghost use Rattle.std.specs.Prelude.{◌<◌, IsTrue};
ghost use Rattle.symk_task.specs.Variables.{IsBase};
ghost use Rattle.space_api.specs.View.{Valid};
ghost use Rattle.space_api.specs.Frames.{Kept};

use bdd_space::BddSpace;
use explicit_space::ExplicitSpace;
use small_tasks::{BASE, Draft, FIRST_1_TO_0, OperatorDraft, SECOND_0_TO_1, drafted};
use space_api::{Space, SpaceFault};
use std::alloc::Global;
use std::test::Fail;
use symk_task::{Fact, Memory, Task};
use task_draws::{Random, random_task};

/// Whether the task has this variable and it is not derived.
fn is_base(task: &Task, var: u32) -> bool
    ensures { IsTrue result → IsBase task.now var }
{
    match task.parts().variables.as_slice().get(var as usize) {
        Some(variable) => variable.layer.is_none(),
        None => false,
    }
}

/// Whether no operator leads into the set, or the other space names it among those that may.
fn is_named_into<S: Space>(
    space: &mut S,
    named: &[u32],
    op: u32,
    set: S::Set,
    all: S::Set,
) -> Result<bool, SpaceFault>
    requires op { op < (S.view space.old).system.operators }
    requires set { Valid (S.view space.old) set }
    requires all { Valid (S.view space.old) all }
    ensures { Kept (S.view space.old) (S.view space.new) }
{
    let before = space.pre_op(op, set, all)?;
    Ok(named.contains(&op) || space.is_empty(before))
}

/// Whether the operator leads on from no state of the set, or the other space names it among those that may.
fn is_named_from<S: Space>(
    space: &mut S,
    named: &[u32],
    op: u32,
    set: S::Set,
) -> Result<bool, SpaceFault>
    requires op { op < (S.view space.old).system.operators }
    requires set { Valid (S.view space.old) set }
    ensures { Kept (S.view space.old) (S.view space.new) }
{
    let after = space.image_op(op, set)?;
    Ok(named.contains(&op) || space.is_empty(after))
}

/// Whether the other space, which named these operators, missed none.
fn misses_none<S: Space>(
    space: &mut S,
    into: &[u32],
    from: &[u32],
    set: S::Set,
    all: S::Set,
) -> Result<bool, SpaceFault>
    requires set { Valid (S.view space.old) set }
    requires all { Valid (S.view space.old) all }
    ensures { Kept (S.view space.old) (S.view space.new) }
{
    let mut misses_none = true;
    'operators: for op in 0..space.operators() {
        misses_none = misses_none && is_named_into(space, into, op, set, all)?;
        misses_none = misses_none && is_named_from(space, from, op, set)?;
    }
    Ok(misses_none)
}

/// What a space says of a set: whether it is empty, has the initial state, has all states, and has no goal state.
#[derive(Clone, Copy, Debug, PartialEq, Eq)]
struct Answers {
    is_empty: bool,
    has_init: bool,
    is_all: bool,
    has_no_goal: bool,
}

/// What the space says of the set.
fn told<S: Space>(space: &mut S, set: S::Set, all: S::Set) -> Result<Answers, SpaceFault>
    requires set { Valid (S.view space.old) set }
    requires all { Valid (S.view space.old) all }
    ensures { Kept (S.view space.old) (S.view space.new) }
{
    let goal = space.goal_in(set)?;
    Ok(Answers {
        is_empty: space.is_empty(set),
        has_init: space.has_init(set),
        is_all: space.same(set, all),
        has_no_goal: space.is_empty(goal),
    })
}

/// Whether both spaces say the same of the states where the fact holds, and neither misses an operator that
/// leads into them or on from them.
fn are_alike<A: Space + Drop, B: Space + Drop>(
    alloc: Global,
    a: A,
    b: B,
    fact: Fact,
) -> Result<bool, SpaceFault>
    requires left { IsBase (A.view a).task fact.var }
    requires right { IsBase (B.view b).task fact.var }
{
    let (mut a, mut b) = (a, b);
    let all_a = a.all()?;
    let all_b = b.all()?;
    let of_a = a.fact_in(fact, all_a)?;
    let of_b = b.fact_in(fact, all_b)?;
    let into_a = a.operators_into(alloc, of_a)?;
    let from_a = a.operators_from(alloc, of_a)?;
    let into_b = b.operators_into(alloc, of_b)?;
    let from_b = b.operators_from(alloc, of_b)?;
    let is_told_alike = told(&mut a, of_a, all_a)? == told(&mut b, of_b, all_b)?;
    let a_misses_none = misses_none(&mut b, &into_a, &from_a, of_b, all_b)?;
    let b_misses_none = misses_none(&mut a, &into_b, &from_b, of_a, all_a)?;
    Ok(is_told_alike && a_misses_none && b_misses_none)
}

/// Whether the two spaces of the task are alike about the fact.
fn agrees_on(alloc: Global, task: &Task, fact: Fact) -> Result<bool, Memory>
    requires { IsBase task.now fact.var }
{
    let explicit = ExplicitSpace::of(alloc, task)?;
    let diagrams = BddSpace::of(alloc, task)?;
    are_alike(alloc, explicit, diagrams, fact)
}

/// Whether the two spaces of the task that the seed draws are alike about a fact, where it draws one of a base variable.
fn drawn_agrees(alloc: Global, seed: u64) -> Result<Option<bool>, Memory> {
    let mut random = Random::of(seed);
    let fact = Fact {
        var: random.below(4),
        val: random.below(3),
    };
    match random_task(alloc, seed)? {
        Some(task) if is_base(&task, fact.var) => Ok(Some(agrees_on(alloc, &task, fact)?)),
        _ => Ok(None),
    }
}

#[test]
fn both_spaces_agree_on_the_states_of_a_fact_and_on_their_operators(
    rt: HostRuntime,
) -> Result<(), Fail> {
    let mut tried = 0_u32;
    for seed in 0..200 {
        if let Some(agrees) = drawn_agrees(rt.alloc(), seed)? {
            assert!(rt; agrees);
            tried = tried.saturating_add(1);
        }
    }
    assert!(rt; tried >= 50);
    Ok(())
}

/// The first of two lamps is on, the second is to be, and an operator turns the first off and the second on.
const MOVED: Draft<'static> = Draft {
    metric: 0,
    variables: &[BASE, BASE],
    initial: &[1, 0],
    goal: &[(1, 1)],
    operators: &[OperatorDraft {
        name: b"",
        effects: &[FIRST_1_TO_0, SECOND_0_TO_1],
        cost: 1,
    }],
    rules: &[],
};

/// Whether the states in which the first lamp is on are two: the initial one, in which the second is off, and
/// the one goal state among them.
fn first_is_on<S: Space + Drop>(space: S) -> Result<bool, SpaceFault>
    requires first { IsBase (S.view space).task 0 }
    requires second { IsBase (S.view space).task 1 }
{
    let mut space = space;
    let all = space.all()?;
    let on = space.fact_in(Fact { var: 0, val: 1 }, all)?;
    let with_off = space.fact_in(Fact { var: 1, val: 0 }, on)?;
    let with_on = space.fact_in(Fact { var: 1, val: 1 }, on)?;
    let both = space.unite(with_off, with_on)?;
    let init = space.init()?;
    let goal = space.goal_in(on)?;
    Ok(
        space.same(both, on)
            && space.same(with_off, init)
            && space.same(with_on, goal)
            && !space.is_empty(goal),
    )
}

/// Whether each space of the task, where its first two variables are base ones, has these states.
fn first_is_on_in_both(alloc: Global, task: &Task) -> Result<bool, SpaceFault> {
    if !is_base(task, 0) || !is_base(task, 1) {
        return Ok(false);
    }
    Ok(first_is_on(ExplicitSpace::of(alloc, task)?)? && first_is_on(BddSpace::of(alloc, task)?)?)
}

#[test]
fn the_first_lamp_is_on_in_the_initial_state_and_in_one_more(rt: HostRuntime) -> Result<(), Fail> {
    let task = drafted(rt.alloc(), &MOVED)?.expect(&rt, "the draft fits");
    assert!(rt; first_is_on_in_both(rt.alloc(), &task)?);
    Ok(())
}
