//! The facts that steps of operators start with, and those that they end with.

ghost use Rattle.std.specs.Prelude.{◌≡◌, ◌⊎◌, ◌↔◌, ◌++◌, ℕ, drop, IfOk, OnOk, IsTrue, IsFalse, Contains};
ghost use Rattle.std.specs.Ordering.{nat_cmp};
ghost use Rattle.std.specs.BTreeSet.{contains};
ghost use Rattle.symk_task.specs.declared.parts.Fact.{Fact as FactOf};
ghost use Rattle.bdd_sets.specs.Steps.{AsksValue, IsAsked, IsLeft, AssignsFact, Leaves, NotOn, AreLast, AreFactsBy, AreStepFacts};

use crate::occurring::Places;
use crate::placing::all_places;
use std::alloc::Global;
use std::collections::BTreeSet;
use symk_task::{Effect, Fact, List, Memory, Operator, Task};
use var_order::Order;

/// The facts of the steps of each operator, as the places of their marks.
#[derive(Drop)]
pub struct StepFacts {
    /// Where the marks of values stand.
    pub places: Places,
    /// For each operator what holds where its steps start.
    pub before: Vec<List<usize>>,
    /// For each operator what holds where its steps end.
    pub after: Vec<List<usize>>,
}

/// Adds the value that the effect asks for, if it asks for one.
fn add_value(facts: &mut List<Fact>, effect: &Effect) -> Result<(), Memory>
    ensures { OnOk result ((f : FactOf) → Contains facts.new f ↔ (Contains facts.old f ⊎ AsksValue effect.now f)) }
{
    if let Some(val) = effect.pre {
        facts.push(Fact {
            var: effect.var,
            val,
        })?;
    }
    Ok(())
}

/// What an operator asks for: its conditions, and the values that its effects ask for.
fn asked(alloc: Global, operator: &Operator) -> Result<List<Fact>, Memory>
    ensures { IfOk result (λ facts. (f : FactOf) → Contains facts f ↔ IsAsked operator.now f) }
{
    let mut facts = List::of(Vec::from_slice(alloc, operator.prevail.as_slice())?);
    'effects: for effect in operator.effects.as_slice() {
        add_value(&mut facts, effect)?;
    }
    Ok(facts)
}

/// Adds the value that the effect gives, if it has no conditions.
fn add_given(facts: &mut List<Fact>, effect: &Effect) -> Result<(), Memory>
    ensures { OnOk result ((f : FactOf) → Contains facts.new f ↔ (Contains facts.old f ⊎ AssignsFact effect.now f)) }
{
    if effect.conds.is_empty() {
        facts.push(Fact {
            var: effect.var,
            val: effect.post,
        })?;
    }
    Ok(())
}

/// Adds the value that the effect gives, if it is the last on its variable and has no conditions. The variables of
/// later effects are given.
fn add_last(
    facts: &mut List<Fact>,
    later: &mut BTreeSet<u32>,
    effect: &Effect,
) -> Result<(), Memory>
    ensures later { OnOk result ((var : ℕ) → IsTrue (contains nat_cmp later.new var)
        ↔ (IsTrue (contains nat_cmp later.old var) ⊎ (var ≡ effect.now.var))) }
    ensures facts { OnOk result ((f : FactOf) → Contains facts.new f
        ↔ (Contains facts.old f ⊎ (AssignsFact effect.now f × IsFalse (contains nat_cmp later.old f.var)))) }
{
    if later.contains(&effect.var) {
        return Ok(());
    }
    later.insert(effect.var)?;
    add_given(facts, effect)
}

/// Adds the values that last effects without conditions give, and the variables of all effects.
fn add_effects(
    facts: &mut List<Fact>,
    on: &mut BTreeSet<u32>,
    effects: &[Effect],
) -> Result<(), Memory>
    requires facts { (f : FactOf) → ¬ Contains facts.old f }
    requires on { (var : ℕ) → IsFalse (contains nat_cmp on.old var) }
    ensures { OnOk result (AreLast effects.now facts.new on.new) }
{
    'effects: for at in (0..effects.len()).rev() {
        add_last(facts, on, &effects[at])?;
    }
    Ok(())
}

/// Adds the fact, if its variable is none of these.
fn add_kept(facts: &mut List<Fact>, on: &BTreeSet<u32>, fact: Fact) -> Result<(), Memory>
    ensures { OnOk result ((f : FactOf) → Contains facts.new f
        ↔ (Contains facts.old f ⊎ ((f ≡ fact) × IsFalse (contains nat_cmp on.now f.var)))) }
{
    if !on.contains(&fact.var) {
        facts.push(fact)?;
    }
    Ok(())
}

/// Adds the facts whose variables are none of these.
fn add_others(facts: &mut List<Fact>, on: &BTreeSet<u32>, prevail: &[Fact]) -> Result<(), Memory>
    ensures { OnOk result ((f : FactOf) → Contains facts.new f
        ↔ (Contains facts.old f ⊎ (Contains prevail.now f × IsFalse (contains nat_cmp on.now f.var)))) }
{
    'prevail: for fact in prevail {
        add_kept(facts, on, *fact)?;
    }
    Ok(())
}

/// What an operator leaves: the value that a last effect without conditions gives, and the conditions on variables that
/// it does not touch.
fn left(alloc: Global, operator: &Operator) -> Result<List<Fact>, Memory>
    ensures { IfOk result (λ facts. (f : FactOf) → Contains facts f ↔ IsLeft operator.now f) }
{
    let mut facts = List::of(Vec::new(alloc));
    let mut on = BTreeSet::new(alloc);
    add_effects(&mut facts, &mut on, operator.effects.as_slice())?;
    add_others(&mut facts, &on, operator.prevail.as_slice())?;
    Ok(facts)
}

/// What each operator asks for.
fn all_asked(alloc: Global, operators: &[Operator]) -> Result<Vec<List<Fact>>, Memory>
    ensures { IfOk result (λ lists. AreFactsBy IsAsked operators.now lists.items) }
{
    let mut lists = Vec::new(alloc);
    for operator in operators {
        lists.push(asked(alloc, operator)?)?;
    }
    Ok(lists)
}

/// What each operator leaves.
fn all_left(alloc: Global, operators: &[Operator]) -> Result<Vec<List<Fact>>, Memory>
    ensures { IfOk result (λ lists. AreFactsBy IsLeft operators.now lists.items) }
{
    let mut lists = Vec::new(alloc);
    for operator in operators {
        lists.push(left(alloc, operator)?)?;
    }
    Ok(lists)
}

impl StepFacts {
    /// The facts of the task's operators, by the order of the bits of its states.
    pub fn of(alloc: Global, task: &Task, order: &Order) -> Result<StepFacts, Memory>
        ensures { IfOk result (AreStepFacts task.now order.now) }
    {
        let operators = task.parts().operators.as_slice();
        let places = Places::of(alloc, order)?;
        let asked = all_asked(alloc, operators)?;
        let left = all_left(alloc, operators)?;
        let before = all_places(alloc, order, &places.starts, &asked)?;
        let after = all_places(alloc, order, &places.starts, &left)?;
        Ok(StepFacts {
            places,
            before,
            after,
        })
    }
}
