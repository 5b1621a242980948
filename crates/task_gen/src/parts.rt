//! What the task of the switches states.

ghost use Rattle.std.specs.Prelude.{◌≡◌, ◌+◌, ◌∷◌, [], ◌++◌, IfOk, codes, decimal, replicate};
ghost use Rattle.task_gen.specs.Switches.{switches, switch, all_on, variables, switch_fact, switched_on, effect, flip, rule, up_to};

use std::alloc::Global;
use symk_task::{Effect, Fact, List, Memory, Name, Operator, Rule, TaskParts, Variable};

/// What the task of `n` switches states.
pub fn switches_parts(alloc: Global, n: u32) -> Result<TaskParts, Memory>
    ensures { IfOk result (λ parts. parts ≡ switches n) }
{
    Ok(TaskParts {
        metric: 1,
        variables: variables(alloc, n)?,
        mutexes: List::of(Vec::new(alloc)),
        initial: all_off(alloc, n)?,
        goal: one(alloc, fact(n, 1))?,
        operators: flips(alloc, n)?,
        rules: one(alloc, rule(alloc, n)?)?,
    })
}

/// The switches, and the variable that says whether all are on.
fn variables(alloc: Global, n: u32) -> Result<List<Variable>, Memory>
    ensures { IfOk result (λ list. list ≡ variables n) }
{
    let mut items = Vec::new(alloc);
    for i in 0..n {
        items.push(switch(alloc, i)?)?;
    }
    items.push(all_on(alloc)?)?;
    Ok(List::of(items))
}

/// A base variable that is off or on.
fn switch(alloc: Global, i: u32) -> Result<Variable, Memory>
    ensures { IfOk result (λ variable. variable ≡ switch i) }
{
    Ok(Variable {
        name: Name::of(format!(in alloc; "s{i}")?.into_bytes()),
        layer: None,
        values: two_names(alloc, b"off", b"on")?,
    })
}

/// The derived variable that says whether all switches are on.
fn all_on(alloc: Global) -> Result<Variable, Memory>
    ensures { IfOk result (λ variable. variable ≡ all_on) }
{
    Ok(Variable {
        name: Name::of(Vec::from_slice(alloc, b"all")?),
        layer: Some(0),
        values: two_names(alloc, b"no", b"yes")?,
    })
}

fn two_names(alloc: Global, first: &[u8], second: &[u8]) -> Result<List<Name>, Memory>
    ensures { IfOk result (λ list. list ≡ first.now ∷ second.now ∷ []) }
{
    let mut names = Vec::new(alloc);
    names.push(Name::of(Vec::from_slice(alloc, first)?))?;
    names.push(Name::of(Vec::from_slice(alloc, second)?))?;
    Ok(List::of(names))
}

/// A value 0 for each variable.
fn all_off(alloc: Global, n: u32) -> Result<List<u32>, Memory>
    ensures { IfOk result (λ list. list ≡ replicate (n + 1) 0) }
{
    Ok(List::of(vec![in alloc; 0; n as usize + 1]?))
}

fn fact(var: u32, val: u32) -> Fact
    ensures { result ≡ switch_fact var val }
{
    Fact { var, val }
}

/// The list with one item.
fn one<T: Drop>(alloc: Global, item: T) -> Result<List<T>, Memory>
    ensures { IfOk result (λ list. list ≡ item ∷ []) }
{
    let mut items = Vec::new(alloc);
    items.push(item)?;
    Ok(List::of(items))
}

/// An operator for each switch.
fn flips(alloc: Global, n: u32) -> Result<List<Operator>, Memory>
    ensures { IfOk result (λ list. list ≡ up_to flip n) }
{
    let mut items = Vec::new(alloc);
    for i in 0..n {
        items.push(flip(alloc, i)?)?;
    }
    Ok(List::of(items))
}

/// The operator that turns a switch on where it is off, and off where it is on.
fn flip(alloc: Global, i: u32) -> Result<Operator, Memory>
    ensures { IfOk result (λ operator. operator ≡ flip i) }
{
    let mut effects = Vec::new(alloc);
    effects.push(effect(alloc, i, 0, 1)?)?;
    effects.push(effect(alloc, i, 1, 0)?)?;
    Ok(Operator {
        name: Name::of(format!(in alloc; "flip {i}")?.into_bytes()),
        prevail: List::of(Vec::new(alloc)),
        effects: List::of(effects),
        cost: 1,
    })
}

/// Where the switch has the one value, it gets the other.
fn effect(alloc: Global, i: u32, from: u32, to: u32) -> Result<Effect, Memory>
    ensures { IfOk result (λ made. made ≡ effect i from to) }
{
    Ok(Effect {
        conds: one(alloc, fact(i, from))?,
        var: i,
        pre: None,
        post: to,
    })
}

/// All are on where each switch is on.
fn rule(alloc: Global, n: u32) -> Result<Rule, Memory>
    ensures { IfOk result (λ made. made ≡ rule n) }
{
    Ok(Rule {
        conds: each_on(alloc, n)?,
        var: n,
        new: 1,
    })
}

fn each_on(alloc: Global, n: u32) -> Result<List<Fact>, Memory>
    ensures { IfOk result (λ list. list ≡ up_to switched_on n) }
{
    let mut items = Vec::new(alloc);
    for i in 0..n {
        items.push(fact(i, 1))?;
    }
    Ok(List::of(items))
}
