//! Small tasks, drawn.

ghost use Rattle.std.specs.Prelude.{◌≤◌, IfOk, IfSome, length};
ghost use Rattle.task_draws.specs.Small.{IsSmall};

use crate::kinds::{Kind, Kinds};
use crate::random::Random;
use std::alloc::Global;
use symk_task::{Effect, Fact, List, Memory, Name, Operator, Rule, Task, TaskParts};

/// A task that the seed draws: 2 to 4 base variables of 2 or 3 values, up to 3 derived ones with rules, and 1 to 6
/// operators of costs 0 to 3, some of whose effects have conditions. None where what was drawn is no task.
pub fn random_task(alloc: Global, seed: u64) -> Result<Option<Task>, Memory>
    ensures { IfOk result (λ found. IfSome found IsSmall) }
{
    let parts = drawn_parts(alloc, &mut Random::of(seed))?;
    if !parts.fits() {
        return Ok(None);
    }
    Ok(Some(Task::of(parts)))
}

/// What the numbers that come draw.
pub fn drawn_parts(alloc: Global, random: &mut Random) -> Result<TaskParts, Memory>
    ensures { IfOk result IsSmall }
{
    let kinds = Kinds::drawn(alloc, random)?;
    let metric = if random.one_in(4) { 0 } else { 1 };
    let count = 1 + random.below(2);
    Ok(TaskParts {
        metric,
        variables: kinds.variables(alloc)?,
        mutexes: List::of(Vec::new(alloc)),
        initial: kinds.initial(alloc)?,
        goal: kinds.drawn_facts(alloc, random, count)?,
        operators: operators(alloc, random, &kinds)?,
        rules: rules(alloc, random, &kinds)?,
    })
}

/// 1 to 6 operators.
fn operators(alloc: Global, random: &mut Random, kinds: &Kinds) -> Result<List<Operator>, Memory>
    ensures { IfOk result (λ list. length list ≤ 6) }
{
    let mut operators = Vec::new(alloc);
    'operators: for _ in 0..1 + random.below(6) {
        operators.push(operator(alloc, random, kinds)?)?;
    }
    Ok(List::of(operators))
}

/// An operator that asks for up to 2 facts, beside what its effects ask for.
fn operator(alloc: Global, random: &mut Random, kinds: &Kinds) -> Result<Operator, Memory> {
    let asked = random.below(3);
    let prevail = kinds.drawn_facts(alloc, random, asked)?;
    let effects = effects(alloc, random, kinds)?;
    Ok(Operator {
        name: Name::of(Vec::new(alloc)),
        prevail,
        effects,
        cost: u64::from(random.below(4)),
    })
}

/// 1 to 3 effects.
fn effects(alloc: Global, random: &mut Random, kinds: &Kinds) -> Result<List<Effect>, Memory> {
    let mut effects = Vec::new(alloc);
    for _ in 0..1 + random.below(3) {
        effects.push(effect(alloc, random, kinds)?)?;
    }
    Ok(List::of(effects))
}

/// An effect on a base variable. Half of the effects have 1 or 2 conditions, and one in three asks for a value.
fn effect(alloc: Global, random: &mut Random, kinds: &Kinds) -> Result<Effect, Memory> {
    let count = if random.one_in(2) {
        1 + random.below(2)
    } else {
        0
    };
    let conds = kinds.drawn_facts(alloc, random, count)?;
    let (var, kind) = kinds.drawn_base(random);
    let pre = if random.one_in(3) {
        Some(random.below(kind.values))
    } else {
        None
    };
    Ok(Effect {
        conds,
        var,
        pre,
        post: random.below(kind.values),
    })
}

/// 1 or 2 rules for each derived variable.
pub fn rules(alloc: Global, random: &mut Random, kinds: &Kinds) -> Result<List<Rule>, Memory> {
    let mut rules = Vec::new(alloc);
    let all = kinds.as_slice();
    for i in 0..all.len() {
        add_rules(alloc, random, kinds, i as u32, all[i], &mut rules)?;
    }
    Ok(List::of(rules))
}

/// 1 or 2 rules for the variable, where it is a derived one.
fn add_rules(
    alloc: Global,
    random: &mut Random,
    kinds: &Kinds,
    var: u32,
    kind: Kind,
    rules: &mut Vec<Rule>,
) -> Result<(), Memory> {
    let Some(layer) = kind.layer else {
        return Ok(());
    };
    for _ in 0..1 + random.below(2) {
        // one rule in eight leads to the default value, and so has no effect
        let new = if random.one_in(8) {
            kind.initial
        } else {
            kind.other()
        };
        rules.push(Rule {
            conds: conditions(alloc, random, kinds, layer)?,
            var,
            new,
        })?;
    }
    Ok(())
}

/// 1 or 2 conditions of a rule for the layer.
fn conditions(
    alloc: Global,
    random: &mut Random,
    kinds: &Kinds,
    layer: u32,
) -> Result<List<Fact>, Memory> {
    let mut facts = Vec::new(alloc);
    for _ in 0..1 + random.below(2) {
        facts.push(kinds.drawn_condition(random, layer))?;
    }
    Ok(List::of(facts))
}
