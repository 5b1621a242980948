//! Operators that keep a group, as their effects tell.

ghost use Rattle.std.specs.Prelude.{◌≡◌, ◌<◌, ◌↔◌, All, IsTrue, IsFalse, IfOk, length};
ghost use Rattle.std.specs.List.{Any};
ghost use Rattle.mutex_use.specs.Groups.{IsBaseGroup, mutex_group_at};
ghost use Rattle.mutex_use.specs.Writers.{AreWriters};
ghost use Rattle.mutex_use.specs.Balance.{fact_after, Adds, Takes, AddAtMost, AddsNone, AddsAsAll, IsBalanced, IsBalancedAt, HaveUnbalanced, HaveBreaking};

use crate::groups::facts_of;
use crate::writers::touching;
use std::alloc::Global;
use symk_task::{Effect, Fact, List, Memory, Operator, Task};

/// The fact that holds once the effect has changed its variable.
fn fact_after(effect: &Effect) -> Fact
    ensures { result ≡ fact_after effect.now }
{
    Fact {
        var: effect.var,
        val: effect.post,
    }
}

/// Whether the effect makes one of the facts hold.
fn adds(facts: &[Fact], effect: &Effect) -> bool
    ensures { IsTrue result ↔ Adds facts.now effect.now }
{
    facts.contains(&fact_after(effect))
}

/// Whether the effect has no conditions and asks for one of the facts.
fn takes(facts: &[Fact], effect: &Effect) -> bool
    ensures { IsTrue result ↔ Takes facts.now effect.now }
{
    match effect.pre {
        Some(val) => {
            let asked = Fact {
                var: effect.var,
                val,
            };
            effect.conds.is_empty() && facts.contains(&asked)
        }
        None => false,
    }
}

/// Whether the effect makes none of the facts hold.
#[tactic(auto, unfolding(crate::specs::Balance::AddsNone))]
fn adds_none(facts: &[Fact], effect: &Effect) -> bool
    ensures { IsTrue result ↔ AddsNone facts.now effect.now }
{
    !adds(facts, effect)
}

/// Whether the effects make none of the facts hold.
fn add_none(facts: &[Fact], effects: &[Effect]) -> bool
    ensures { IsTrue result ↔ All (AddsNone facts.now) effects.now }
{
    effects.iter().all(|effect| adds_none(facts, effect))
}

/// Whether one of the effects takes one of the facts away.
fn take_one(facts: &[Fact], effects: &[Effect]) -> bool
    ensures { IsTrue result → Any (Takes facts.now) effects.now }
{
    effects.iter().any(|effect| takes(facts, effect))
}

/// Whether the effect makes none of the facts hold, or this one.
fn adds_at_most(facts: &[Fact], effect: &Effect, fact: Fact) -> bool
    ensures { IsTrue result ↔ (Adds facts.now effect.now → fact_after effect.now ≡ fact) }
{
    !adds(facts, effect) || fact_after(effect) == fact
}

/// Whether each of the effects makes none of the facts hold, or this one.
fn add_at_most(facts: &[Fact], effects: &[Effect], fact: Fact) -> bool
    ensures { IsTrue result ↔ AddAtMost facts.now effects.now fact }
{
    effects
        .iter()
        .all(|effect| adds_at_most(facts, effect, fact))
}

/// Whether the effect makes none of the facts hold, or the one that all do of these effects that make one hold.
#[tactic(auto, unfolding(crate::specs::Balance::AddsAsAll))]
fn adds_as_all(facts: &[Fact], effects: &[Effect], effect: &Effect) -> bool
    ensures { IsTrue result ↔ AddsAsAll facts.now effects.now effect.now }
{
    !adds(facts, effect) || add_at_most(facts, effects, fact_after(effect))
}

/// Whether the effects make at most one of the facts hold.
fn add_one(facts: &[Fact], effects: &[Effect]) -> bool
    ensures { IsTrue result ↔ All (AddsAsAll facts.now effects.now) effects.now }
{
    effects
        .iter()
        .all(|effect| adds_as_all(facts, effects, effect))
}

/// Whether the effects are seen to be balanced.
fn is_balanced(facts: &[Fact], effects: &[Effect]) -> bool
    ensures { IsTrue result → IsBalanced facts.now effects.now }
{
    add_none(facts, effects) || (take_one(facts, effects) && add_one(facts, effects))
}

/// Whether the operator of this number isn't seen to be balanced.
fn may_break(operators: &[Operator], facts: &[Fact], op: u32) -> bool
    ensures { IsFalse result → IsBalancedAt operators.now facts.now op }
{
    match operators.get(op as usize) {
        Some(operator) => !is_balanced(facts, operator.effects.as_slice()),
        None => true,
    }
}

/// Those of the operators among these whose effects aren't seen to be balanced, in their order.
fn unbalanced(
    alloc: Global,
    operators: &[Operator],
    facts: &[Fact],
    among: &[u32],
) -> Result<Vec<u32>, Memory>
    requires { All (λ op. op < length operators.now) among.now }
    ensures { IfOk result (λ left. HaveUnbalanced operators.now facts.now among.now left.items) }
{
    let mut left = Vec::new(alloc);
    'among: for i in 0..among.len() {
        if may_break(operators, facts, among[i]) {
            left.push(among[i])?;
        }
    }
    Ok(left)
}

/// The operators that may lead from a state that keeps the group to one that doesn't: those that have an effect on a
/// variable of the group and aren't seen to be balanced.
pub(crate) fn breaking_operators(
    alloc: Global,
    task: &Task,
    writers: &[List<u32>],
    group: u32,
) -> Result<Vec<u32>, Memory>
    requires writers { AreWriters task.now (length task.now.operators) writers.now }
    requires group { IsBaseGroup task.now group }
    ensures { IfOk result (λ operators. HaveBreaking task.now (mutex_group_at task.now group) operators.items) }
{
    let among = touching(alloc, task, writers, group)?;
    let operators = task.parts().operators.as_slice();
    unbalanced(alloc, operators, facts_of(task, group), &among)
}
