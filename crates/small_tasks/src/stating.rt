//! What each task states.

ghost use Rattle.std.specs.Prelude.{◌≡◌, ◌∷◌, [], IfOk, codes};
ghost use Rattle.small_tasks.specs.Tasks.{plain, fact, lamp, either, any_of_three, a_or_b, done_at, swap, two_effects, one_switch, switch_and_back, two_switches, axioms, goal_at_start, no_operator, no_plan, zero_costs, conditional_effects, later_effect_undoes, later_effect_reaches, past_64_bits, near_and_far, same_name_twice};

use crate::parts::{
    base, change, fact, four, given, idle, made, name, none, one, pair, plain, three, triple, two,
};
use std::alloc::Global;
use symk_task::{Effect, List, Memory, Operator, Rule, TaskParts, Variable};

/// A variable that is off or on.
fn lamp(alloc: Global, called: &[u8]) -> Result<Variable, Memory>
    ensures { IfOk result (λ variable. variable ≡ lamp called.now) }
{
    pair(alloc, called, b"off", b"on")
}

/// A variable that has the value x0 or x1.
fn either(alloc: Global) -> Result<Variable, Memory>
    ensures { IfOk result (λ variable. variable ≡ either) }
{
    pair(alloc, b"x", b"x0", b"x1")
}

/// A variable that has the value x0, x1 or x2.
fn any_of_three(alloc: Global) -> Result<Variable, Memory>
    ensures { IfOk result (λ variable. variable ≡ any_of_three) }
{
    triple(alloc, b"x", b"x0", b"x1", b"x2")
}

/// A variable that has the value a or b.
fn a_or_b(alloc: Global) -> Result<Variable, Memory>
    ensures { IfOk result (λ variable. variable ≡ a_or_b) }
{
    pair(alloc, b"var0", b"a", b"b")
}

/// One switch, which can be turned on.
pub fn one_switch(alloc: Global) -> Result<TaskParts, Memory>
    ensures { IfOk result (λ task. task ≡ one_switch) }
{
    let variables = one(alloc, lamp(alloc, b"var0")?)?;
    let initial = one(alloc, 0)?;
    let goal = one(alloc, fact(0, 1))?;
    let operators = one(alloc, change(alloc, b"switch-on", 0, 0, 1, 1)?)?;
    Ok(plain(alloc, 0, variables, initial, goal, operators))
}

/// One switch, which can be turned on and off again: plans without end.
pub fn switch_and_back(alloc: Global) -> Result<TaskParts, Memory>
    ensures { IfOk result (λ task. task ≡ switch_and_back) }
{
    let variables = one(alloc, lamp(alloc, b"var0")?)?;
    let initial = one(alloc, 0)?;
    let goal = one(alloc, fact(0, 1))?;
    let on = change(alloc, b"switch-on", 0, 0, 1, 1)?;
    let off = change(alloc, b"switch-off", 0, 1, 0, 1)?;
    let operators = two(alloc, on, off)?;
    Ok(plain(alloc, 0, variables, initial, goal, operators))
}

/// Two switches, which can be turned on in either order.
pub fn two_switches(alloc: Global) -> Result<TaskParts, Memory>
    ensures { IfOk result (λ task. task ≡ two_switches) }
{
    let variables = two(alloc, lamp(alloc, b"a")?, lamp(alloc, b"b")?)?;
    let initial = two(alloc, 0, 0)?;
    let goal = two(alloc, fact(0, 1), fact(1, 1))?;
    let first = change(alloc, b"a-on", 0, 0, 1, 1)?;
    let second = change(alloc, b"b-on", 1, 0, 1, 1)?;
    let operators = two(alloc, first, second)?;
    Ok(plain(alloc, 0, variables, initial, goal, operators))
}

/// The rule that all is done at the place.
fn done_at(alloc: Global, place: u32) -> Result<Rule, Memory>
    ensures { IfOk result (λ rule. rule ≡ done_at place) }
{
    Ok(Rule {
        conds: one(alloc, fact(0, place))?,
        var: 1,
        new: 1,
    })
}

/// The place, and the derived variable that says whether all is done.
fn place_and_done(alloc: Global) -> Result<List<Variable>, Memory>
    ensures { IfOk result (λ variables. variables ≡ axioms.variables) }
{
    let place = triple(alloc, b"pos", b"p0", b"p1", b"p2")?;
    let done = Variable {
        name: name(alloc, b"done")?,
        layer: Some(0),
        values: two(alloc, name(alloc, b"no")?, name(alloc, b"yes")?)?,
    };
    two(alloc, place, done)
}

/// A walk along three places, and a rule that calls it done from the second on.
pub fn axioms(alloc: Global) -> Result<TaskParts, Memory>
    ensures { IfOk result (λ task. task ≡ axioms) }
{
    let first = change(alloc, b"m1", 0, 0, 1, 1)?;
    let second = change(alloc, b"m2", 0, 1, 2, 1)?;
    Ok(TaskParts {
        metric: 0,
        variables: place_and_done(alloc)?,
        mutexes: none(alloc),
        initial: two(alloc, 0, 0)?,
        goal: one(alloc, fact(1, 1))?,
        operators: two(alloc, first, second)?,
        rules: two(alloc, done_at(alloc, 1)?, done_at(alloc, 2)?)?,
    })
}

/// The goal holds at the start, and there is no operator.
pub fn goal_at_start(alloc: Global) -> Result<TaskParts, Memory>
    ensures { IfOk result (λ task. task ≡ goal_at_start) }
{
    let variables = one(alloc, a_or_b(alloc)?)?;
    let initial = one(alloc, 0)?;
    let goal = one(alloc, fact(0, 0))?;
    Ok(plain(alloc, 1, variables, initial, goal, none(alloc)))
}

/// The goal fails at the start, and there is no operator.
pub fn no_operator(alloc: Global) -> Result<TaskParts, Memory>
    ensures { IfOk result (λ task. task ≡ no_operator) }
{
    let variables = one(alloc, a_or_b(alloc)?)?;
    let initial = one(alloc, 0)?;
    let goal = one(alloc, fact(0, 1))?;
    Ok(plain(alloc, 1, variables, initial, goal, none(alloc)))
}

/// A lamp goes up and down, and nothing changes the aim.
pub fn no_plan(alloc: Global) -> Result<TaskParts, Memory>
    ensures { IfOk result (λ task. task ≡ no_plan) }
{
    let variables = two(alloc, lamp(alloc, b"aim")?, lamp(alloc, b"lamp")?)?;
    let initial = two(alloc, 0, 0)?;
    let goal = one(alloc, fact(0, 1))?;
    let up = change(alloc, b"up", 1, 0, 1, 1)?;
    let down = change(alloc, b"down", 1, 1, 0, 1)?;
    let operators = two(alloc, up, down)?;
    Ok(plain(alloc, 0, variables, initial, goal, operators))
}

/// One step to the goal, and an operator of cost 0 that changes nothing: plans without end of cost 1.
pub fn zero_costs(alloc: Global) -> Result<TaskParts, Memory>
    ensures { IfOk result (λ task. task ≡ zero_costs) }
{
    let variables = one(alloc, either(alloc)?)?;
    let initial = one(alloc, 0)?;
    let goal = one(alloc, fact(0, 1))?;
    let operators = two(alloc, change(alloc, b"go", 0, 0, 1, 1)?, idle(alloc)?)?;
    Ok(plain(alloc, 1, variables, initial, goal, operators))
}

fn swaps(alloc: Global) -> Result<List<Effect>, Memory>
    ensures { IfOk result (λ effects. effects ≡ swap.effects) }
{
    four(
        alloc,
        given(alloc, fact(1, 0), fact(0, 0))?,
        given(alloc, fact(1, 1), fact(0, 1))?,
        given(alloc, fact(0, 0), fact(1, 0))?,
        given(alloc, fact(0, 1), fact(1, 1))?,
    )
}

/// The operator that exchanges the values of two variables.
fn swap(alloc: Global) -> Result<Operator, Memory>
    ensures { IfOk result (λ operator. operator ≡ swap) }
{
    Ok(Operator {
        name: name(alloc, b"swap")?,
        prevail: none(alloc),
        effects: swaps(alloc)?,
        cost: 1,
    })
}

/// A swap of two values by four conditional effects, which all see the old state.
pub fn conditional_effects(alloc: Global) -> Result<TaskParts, Memory>
    ensures { IfOk result (λ task. task ≡ conditional_effects) }
{
    let a = pair(alloc, b"a", b"a0", b"a1")?;
    let b = pair(alloc, b"b", b"b0", b"b1")?;
    let variables = two(alloc, a, b)?;
    let initial = two(alloc, 1, 0)?;
    let goal = two(alloc, fact(0, 0), fact(1, 1))?;
    let operators = one(alloc, swap(alloc)?)?;
    Ok(plain(alloc, 0, variables, initial, goal, operators))
}

/// The operator that gives the first variable one value and then another.
fn two_effects(alloc: Global, earlier: u32, later: u32) -> Result<Operator, Memory>
    ensures { IfOk result (λ operator. operator ≡ two_effects earlier later) }
{
    Ok(Operator {
        name: name(alloc, b"two")?,
        prevail: none(alloc),
        effects: two(alloc, made(alloc, earlier), made(alloc, later))?,
        cost: 1,
    })
}

/// A variable that is to have its second value, and an operator.
fn one_way(alloc: Global, operator: Operator) -> Result<TaskParts, Memory>
    ensures { IfOk result (λ task. task ≡ plain 0 (either ∷ []) (0 ∷ []) (fact 0 1 ∷ []) (operator ∷ [])) }
{
    let variables = one(alloc, either(alloc)?)?;
    let initial = one(alloc, 0)?;
    let goal = one(alloc, fact(0, 1))?;
    Ok(plain(alloc, 0, variables, initial, goal, one(alloc, operator)?))
}

/// Two effects on one variable, of which the later leads away from the goal.
pub fn later_effect_undoes(alloc: Global) -> Result<TaskParts, Memory>
    ensures { IfOk result (λ task. task ≡ later_effect_undoes) }
{
    one_way(alloc, two_effects(alloc, 1, 0)?)
}

/// Two effects on one variable, of which the later reaches the goal.
pub fn later_effect_reaches(alloc: Global) -> Result<TaskParts, Memory>
    ensures { IfOk result (λ task. task ≡ later_effect_reaches) }
{
    one_way(alloc, two_effects(alloc, 0, 1)?)
}

/// The one plan costs 2^64.
pub fn past_64_bits(alloc: Global) -> Result<TaskParts, Memory>
    ensures { IfOk result (λ task. task ≡ past_64_bits) }
{
    let variables = one(alloc, any_of_three(alloc)?)?;
    let initial = one(alloc, 0)?;
    let goal = one(alloc, fact(0, 2))?;
    let big = change(alloc, b"big", 0, 0, 1, u64::MAX)?;
    let small = change(alloc, b"one", 0, 1, 2, 1)?;
    let operators = two(alloc, big, small)?;
    Ok(plain(alloc, 1, variables, initial, goal, operators))
}

/// A near step and a far one, or one jump that costs as much as the far one.
pub fn near_and_far(alloc: Global) -> Result<TaskParts, Memory>
    ensures { IfOk result (λ task. task ≡ near_and_far) }
{
    let variables = one(alloc, any_of_three(alloc)?)?;
    let initial = one(alloc, 0)?;
    let goal = one(alloc, fact(0, 2))?;
    let near = change(alloc, b"near", 0, 0, 1, 1)?;
    let far = change(alloc, b"far", 0, 1, 2, 1_000_000_000_000)?;
    let jump = change(alloc, b"jump", 0, 0, 2, 1_000_000_000_000)?;
    let operators = three(alloc, near, far, jump)?;
    Ok(plain(alloc, 1, variables, initial, goal, operators))
}

/// Two operators of one name and one effect.
pub fn same_name_twice(alloc: Global) -> Result<TaskParts, Memory>
    ensures { IfOk result (λ task. task ≡ same_name_twice) }
{
    let variables = one(alloc, either(alloc)?)?;
    let initial = one(alloc, 0)?;
    let goal = one(alloc, fact(0, 1))?;
    let first = change(alloc, b"go", 0, 0, 1, 1)?;
    let second = change(alloc, b"go", 0, 0, 1, 1)?;
    let operators = two(alloc, first, second)?;
    Ok(plain(alloc, 0, variables, initial, goal, operators))
}
