//! What an operator reads, asks for and writes.

ghost use Rattle.std.specs.Prelude.{◌≡◌, ◌≢◌, ◌↔◌, ◌⊎◌, ◌==◌, IsTrue, All, IfSome};
ghost use Rattle.std.specs.List.{list_all};
ghost use Rattle.symk_task.specs.Variables.{IsBase};
ghost use Rattle.stubborn_sets.specs.Reading.{AreBase, AreOff, AreOn, Unread, ReadsBaseAlone, FactAllows, EffectAllows, AllowsValue, IsLocal, AreLocal, EffectIgnores, Ignores, Untouched, fires_at, value_after};

use symk_task::{Effect, Fact, Operator, TaskParts};

/// Whether the variable is a base variable.
pub(crate) fn is_base(parts: &TaskParts, var: u32) -> bool
    ensures { IsTrue result ↔ IsBase parts.now var }
{
    match parts.variables.as_slice().get(var as usize) {
        Some(variable) => variable.layer.is_none(),
        None => false,
    }
}

/// Whether each fact is one of a base variable.
fn are_base(parts: &TaskParts, facts: &[Fact]) -> bool
    ensures { IsTrue result ↔ AreBase parts.now facts.now }
{
    facts.iter().all(|fact| is_base(parts, fact.var))
}

/// Whether no fact is one of the variable.
fn are_off(facts: &[Fact], var: u32) -> bool
    ensures { IsTrue result ↔ AreOff var facts.now }
{
    facts.iter().all(|fact| fact.var != var)
}

/// Whether each fact is one of the variable.
fn are_on(facts: &[Fact], var: u32) -> bool
    ensures { IsTrue result ↔ AreOn var facts.now }
{
    facts.iter().all(|fact| fact.var == var)
}

/// Whether no rule has a condition on the variable.
pub(crate) fn unread(parts: &TaskParts, var: u32) -> bool
    ensures { IsTrue result ↔ Unread parts.now var }
{
    parts
        .rules
        .as_slice()
        .iter()
        .all(|rule| are_off(rule.conds.as_slice(), var))
}

/// Whether the operator reads no derived variable.
fn reads_base_alone(parts: &TaskParts, operator: &Operator) -> bool
    ensures { IsTrue result ↔ ReadsBaseAlone parts.now operator.now }
{
    are_base(parts, operator.prevail.as_slice())
        && operator
            .effects
            .as_slice()
            .iter()
            .all(|effect| are_base(parts, effect.conds.as_slice()))
}

/// Whether the fact is one of another variable, or says the value.
fn fact_allows(fact: Fact, var: u32, val: u32) -> bool
    ensures { IsTrue result ↔ FactAllows var val fact }
{
    fact.var != var || fact.val == val
}

/// Whether the effect is on another variable, or asks for no other value.
fn effect_allows(effect: &Effect, var: u32, val: u32) -> bool
    ensures { IsTrue result ↔ EffectAllows var val effect.now }
{
    effect.var != var || effect.pre.is_none_or(|asked| asked == val)
}

/// Whether no precondition of the operator asks for another value of the variable.
pub(crate) fn allows_value(operator: &Operator, var: u32, val: u32) -> bool
    ensures { IsTrue result ↔ AllowsValue operator.now var val }
{
    operator
        .prevail
        .as_slice()
        .iter()
        .all(|fact| fact_allows(*fact, var, val))
        && operator
            .effects
            .as_slice()
            .iter()
            .all(|effect| effect_allows(effect, var, val))
}

/// Whether the effect is on another variable, or its conditions are on this one alone.
fn is_local(effect: &Effect, var: u32) -> bool
    ensures { IsTrue result ↔ IsLocal var effect.now }
{
    effect.var != var || are_on(effect.conds.as_slice(), var)
}

/// Whether what the effects do to the variable depends on its own value alone.
pub(crate) fn are_local(effects: &[Effect], var: u32) -> bool
    ensures { IsTrue result ↔ AreLocal var effects.now }
{
    effects.iter().all(|effect| is_local(effect, var))
}

/// Whether the effect is on the variable, or has no condition on it.
fn effect_ignores(effect: &Effect, var: u32) -> bool
    ensures { IsTrue result ↔ EffectIgnores var effect.now }
{
    effect.var == var || are_off(effect.conds.as_slice(), var)
}

/// Whether nothing that the operator does to other variables, and no derived variable that it reads, depends on the
/// variable.
pub(crate) fn ignores(parts: &TaskParts, operator: &Operator, var: u32) -> bool
    ensures { IsTrue result ↔ Ignores parts.now operator.now var }
{
    operator
        .effects
        .as_slice()
        .iter()
        .all(|effect| effect_ignores(effect, var))
        && (reads_base_alone(parts, operator) || unread(parts, var))
}

/// Whether the operator neither reads nor writes the variable.
pub(crate) fn untouched(parts: &TaskParts, operator: &Operator, var: u32) -> bool
    ensures { IsTrue result ↔ Untouched parts.now operator.now var }
{
    are_off(operator.prevail.as_slice(), var)
        && operator
            .effects
            .as_slice()
            .iter()
            .all(|effect| effect.var != var)
        && ignores(parts, operator, var)
}

/// Whether each fact says the value.
fn are_at(facts: &[Fact], val: u32) -> bool
    ensures { result ≡ list_all (λ cond. cond.val == val) facts.now }
{
    facts.iter().all(|cond| cond.val == val)
}

/// Whether the effect changes the variable where it has the value, if its conditions are on it alone.
fn fires_at(effect: &Effect, var: u32, val: u32) -> bool
    ensures { result ≡ fires_at var val effect.now }
{
    effect.var == var && are_at(effect.conds.as_slice(), val)
}

/// What the variable has after the effects where it has the value, if their conditions are on it alone.
#[tactic(auto, unfolding(crate::specs::Reading::value_after))]
pub(crate) fn value_after(effects: &[Effect], var: u32, val: u32) -> u32
    ensures { result ≡ value_after effects.now var val }
{
    effects.iter().fold(val, |new, effect| {
        if fires_at(effect, var, val) {
            effect.post
        } else {
            new
        }
    })
}
