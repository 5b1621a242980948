//! The parts of small tasks.

ghost use Rattle.std.specs.Prelude.{◌≡◌, ◌∷◌, [], IfOk, Some};
ghost use Rattle.small_tasks.specs.Tasks.{base, fact, given, made, change, idle, plain};

use std::alloc::Global;
use symk_task::{Effect, Fact, List, Memory, Name, Operator, TaskParts, Variable};

/// The list without items.
pub fn none<T>(alloc: Global) -> List<T>
    ensures { result ≡ [] }
{
    List::of(Vec::new(alloc))
}

/// The list with one item.
pub fn one<T: Drop>(alloc: Global, item: T) -> Result<List<T>, Memory>
    ensures { IfOk result (λ list. list ≡ item ∷ []) }
{
    let mut items = Vec::new(alloc);
    items.push(item)?;
    Ok(List::of(items))
}

/// The list with two items.
pub fn two<T: Drop>(alloc: Global, first: T, second: T) -> Result<List<T>, Memory>
    ensures { IfOk result (λ list. list ≡ first ∷ second ∷ []) }
{
    let mut items = Vec::new(alloc);
    items.push(first)?;
    items.push(second)?;
    Ok(List::of(items))
}

/// The list with three items.
pub fn three<T: Drop>(alloc: Global, first: T, second: T, third: T) -> Result<List<T>, Memory>
    ensures { IfOk result (λ list. list ≡ first ∷ second ∷ third ∷ []) }
{
    let mut items = Vec::new(alloc);
    items.push(first)?;
    items.push(second)?;
    items.push(third)?;
    Ok(List::of(items))
}

/// The list with four items.
pub fn four<T: Drop>(
    alloc: Global,
    first: T,
    second: T,
    third: T,
    fourth: T,
) -> Result<List<T>, Memory>
    ensures { IfOk result (λ list. list ≡ first ∷ second ∷ third ∷ fourth ∷ []) }
{
    let mut items = Vec::new(alloc);
    items.push(first)?;
    items.push(second)?;
    items.push(third)?;
    items.push(fourth)?;
    Ok(List::of(items))
}

/// The name of these bytes.
pub fn name(alloc: Global, bytes: &[u8]) -> Result<Name, Memory>
    ensures { IfOk result (λ name. name ≡ bytes.now) }
{
    Ok(Name::of(Vec::from_slice(alloc, bytes)?))
}

/// A base variable.
pub fn base(alloc: Global, called: &[u8], values: List<Name>) -> Result<Variable, Memory>
    ensures { IfOk result (λ variable. variable ≡ base called.now values) }
{
    Ok(Variable {
        name: name(alloc, called)?,
        layer: None,
        values,
    })
}

/// A base variable of two values.
pub fn pair(alloc: Global, called: &[u8], first: &[u8], second: &[u8]) -> Result<Variable, Memory>
    ensures { IfOk result (λ variable. variable ≡ base called.now (first.now ∷ second.now ∷ [])) }
{
    let values = two(alloc, name(alloc, first)?, name(alloc, second)?)?;
    base(alloc, called, values)
}

/// A base variable of three values.
pub fn triple(
    alloc: Global,
    called: &[u8],
    first: &[u8],
    second: &[u8],
    third: &[u8],
) -> Result<Variable, Memory>
    ensures { IfOk result (λ variable. variable ≡ base called.now (first.now ∷ second.now ∷ third.now ∷ [])) }
{
    let values = three(
        alloc,
        name(alloc, first)?,
        name(alloc, second)?,
        name(alloc, third)?,
    )?;
    base(alloc, called, values)
}

/// The variable has the value; both count from 0.
pub fn fact(var: u32, val: u32) -> Fact
    ensures { result ≡ fact var val }
{
    Fact { var, val }
}

/// Where the first fact holds, the second does afterwards.
pub fn given(alloc: Global, held: Fact, made: Fact) -> Result<Effect, Memory>
    ensures { IfOk result (λ effect. effect ≡ given held made) }
{
    Ok(Effect {
        conds: one(alloc, held)?,
        var: made.var,
        pre: None,
        post: made.val,
    })
}

/// The first variable has this value afterwards.
pub fn made(alloc: Global, value: u32) -> Effect
    ensures { result ≡ made value }
{
    Effect {
        conds: none(alloc),
        var: 0,
        pre: None,
        post: value,
    }
}

/// The operator that changes the variable's value, which it asks for.
pub fn change(
    alloc: Global,
    called: &[u8],
    var: u32,
    from: u32,
    to: u32,
    cost: u64,
) -> Result<Operator, Memory>
    ensures { IfOk result (λ operator. operator ≡ change called.now var from to cost) }
{
    let effect = Effect {
        conds: none(alloc),
        var,
        pre: Some(from),
        post: to,
    };
    Ok(Operator {
        name: name(alloc, called)?,
        prevail: none(alloc),
        effects: one(alloc, effect)?,
        cost,
    })
}

/// The operator that changes nothing, at cost 0.
pub fn idle(alloc: Global) -> Result<Operator, Memory>
    ensures { IfOk result (λ operator. operator ≡ idle) }
{
    Ok(Operator {
        name: name(alloc, b"idle")?,
        prevail: none(alloc),
        effects: none(alloc),
        cost: 0,
    })
}

/// What a task without groups and rules states.
pub fn plain(
    alloc: Global,
    metric: u8,
    variables: List<Variable>,
    initial: List<u32>,
    goal: List<Fact>,
    operators: List<Operator>,
) -> TaskParts
    ensures { result ≡ plain metric variables initial goal operators }
{
    TaskParts {
        metric,
        variables,
        mutexes: none(alloc),
        initial,
        goal,
        operators,
        rules: none(alloc),
    }
}
