//! Small tasks whose variables hang loosely together, drawn.

ghost use Rattle.std.specs.Prelude.{◌≤◌, IfOk, IfSome, length};
ghost use Rattle.task_draws.specs.Small.{IsSmall};

use crate::kinds::Kinds;
use crate::random::Random;
use crate::tasks::rules;
use std::alloc::Global;
use symk_task::{Effect, Fact, List, Memory, Name, Operator, Task, TaskParts};

/// A task that the seed draws, of whose operators many commute: 2 to 4 base variables of 2 or 3 values, each with
/// operators of its own, 6 in all, of costs 1 to 3. One in four asks for a fact of any variable, and one in four changes a
/// further variable under a condition. There are up to 3 derived variables with rules. The goal is another value of each
/// base variable than its first, and in half of the tasks a fact of any variable. None where what was drawn is no task.
pub fn loose_task(alloc: Global, seed: u64) -> Result<Option<Task>, Memory>
    ensures { IfOk result (λ found. IfSome found IsSmall) }
{
    let parts = loose_parts(alloc, &mut Random::of(seed))?;
    if !parts.fits() {
        return Ok(None);
    }
    Ok(Some(Task::of(parts)))
}

/// What the numbers that come draw.
fn loose_parts(alloc: Global, random: &mut Random) -> Result<TaskParts, Memory>
    ensures { IfOk result IsSmall }
{
    let kinds = Kinds::drawn(alloc, random)?;
    Ok(TaskParts {
        metric: 1,
        variables: kinds.variables(alloc)?,
        mutexes: List::of(Vec::new(alloc)),
        initial: kinds.initial(alloc)?,
        goal: goal(alloc, random, &kinds)?,
        operators: operators(alloc, random, &kinds)?,
        rules: rules(alloc, random, &kinds)?,
    })
}

/// Another value of each base variable, and in half of the tasks a fact more.
fn goal(alloc: Global, random: &mut Random, kinds: &Kinds) -> Result<List<Fact>, Memory> {
    let mut facts = Vec::new(alloc);
    for i in 0..kinds.bases() {
        let (var, kind) = kinds.base_at(i);
        let val = kind.other();
        facts.push(Fact { var, val })?;
    }
    if random.one_in(2) {
        facts.push(kinds.drawn_fact(random))?;
    }
    Ok(List::of(facts))
}

/// 6 operators, on one base variable after the other.
fn operators(alloc: Global, random: &mut Random, kinds: &Kinds) -> Result<List<Operator>, Memory>
    ensures { IfOk result (λ list. length list ≤ 6) }
{
    let mut operators = Vec::new(alloc);
    'operators: for i in 0..6 {
        operators.push(operator(alloc, random, kinds, i)?)?;
    }
    Ok(List::of(operators))
}

/// The `i`-th operator, on a variable of its own, and where there is a condition on a further one.
fn operator(alloc: Global, random: &mut Random, kinds: &Kinds, i: u32) -> Result<Operator, Memory> {
    let asked = if random.one_in(4) { 1 } else { 0 };
    let prevail = kinds.drawn_facts(alloc, random, asked)?;
    let mut effects = Vec::new(alloc);
    effects.push(own_effect(alloc, random, kinds, i))?;
    if random.one_in(4) {
        effects.push(further_effect(alloc, random, kinds)?)?;
    }
    Ok(Operator {
        name: Name::of(Vec::new(alloc)),
        prevail,
        effects: List::of(effects),
        cost: 1 + u64::from(random.below(3)),
    })
}

/// The effect on the operator's own variable. The first operator of a variable leads to the goal's value, and half of the
/// operators ask for a value: such a first one for the value that the task states.
fn own_effect(alloc: Global, random: &mut Random, kinds: &Kinds, i: u32) -> Effect {
    let (var, kind) = kinds.base_at(i);
    let is_first = i < kinds.bases();
    let (from, to) = if is_first {
        (kind.initial, kind.other())
    } else {
        (random.below(kind.values), random.below(kind.values))
    };
    Effect {
        conds: List::of(Vec::new(alloc)),
        var,
        pre: if random.one_in(2) { Some(from) } else { None },
        post: to,
    }
}

/// An effect on any base variable, under a condition.
fn further_effect(alloc: Global, random: &mut Random, kinds: &Kinds) -> Result<Effect, Memory> {
    let conds = kinds.drawn_facts(alloc, random, 1)?;
    let (var, kind) = kinds.drawn_base(random);
    Ok(Effect {
        conds,
        var,
        pre: None,
        post: random.below(kind.values),
    })
}
