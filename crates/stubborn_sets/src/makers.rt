//! Of each fact the operators that can make it true, and of each derived variable its rules.

/// Of each fact of a task the operators that can make it true, and of each derived variable its rules.
#[derive(Drop)]
pub(crate) struct Makers {
    /// Of each variable the number of its first value, where the values of all are counted through.
    firsts: Vec<u32>,
    /// By the numbers of facts: the operators with an effect that gives the fact.
    given: Lists,
    /// Of each derived variable the operators with an effect on what it depends on.
    changers: Vec<Vec<u32>>,
    /// Of each variable the rules for it.
    rules: Lists,
}

ghost use Rattle.std.specs.Prelude.{◌≡◌, ◌≤◌, ◌<◌, ℕ, All, Contains, IfOk, OnOk, length};
ghost use Rattle.symk_task.specs.Fits.{FitsVariable};
ghost use Rattle.stubborn_sets.specs.Kept.{number_of, given_by, list_at, givers_of, AddsOne, list_in, LeavesOut, IsOff, AreGivers, AreChangers, AreMakers, AreRulesFor, KnowsMakers};

use crate::depending::{dependencies, writes_off};
use crate::lists::{Lists, list_of};
use crate::reading::is_base;
use std::alloc::Global;
use symk_task::{Effect, Fact, Memory, Rule, Task, TaskParts, Variable};

/// Of each variable the number of its first value.
fn firsts_of(alloc: Global, variables: &[Variable]) -> Result<Vec<u32>, Memory>
    requires count { length variables.now ≤ 65536 }
    requires each { All FitsVariable variables.now }
{
    let mut firsts = Vec::new(alloc);
    let mut first: usize = 0;
    for variable in variables {
        firsts.push(first as u32)?;
        first += variable.values.len();
    }
    Ok(firsts)
}

/// The number of the fact.
fn number_of(firsts: &[u32], fact: Fact) -> usize
    ensures { result ≡ number_of firsts.now fact }
{
    match firsts.get(fact.var as usize) {
        Some(first) => *first as usize + fact.val as usize,
        None => fact.val as usize,
    }
}

/// Puts the operator into the list of each fact that one of its effects gives.
fn add_effects(
    alloc: Global,
    firsts: &[u32],
    given: &mut Lists,
    effects: &[Effect],
    op: u32,
) -> Result<(), Memory>
    ensures has { OnOk result (All (λ effect.
        Contains (list_at given.new (number_of firsts.now (given_by effect))) op) effects.now) }
    ensures adds { OnOk result (AddsOne (list_at given.old) (list_at given.new) op) }
{
    for effect in effects {
        let fact = Fact {
            var: effect.var,
            val: effect.post,
        };
        given.add(alloc, number_of(firsts, fact), op)?;
    }
    Ok(())
}

/// Of each fact, by its number, the operators with an effect that gives it.
fn givers(alloc: Global, task: &Task, firsts: &[u32]) -> Result<Lists, Memory>
    ensures { IfOk result (λ given. AreGivers task.now (givers_of firsts.now given)) }
{
    let operators = task.parts().operators.as_slice();
    let mut given = Lists::new(alloc);
    for op in 0..task.operators() {
        let effects = operators[op as usize].effects.as_slice();
        add_effects(alloc, firsts, &mut given, effects, op)?;
    }
    Ok(given)
}

/// The operators with an effect on a marked variable.
fn writers(alloc: Global, task: &Task, marks: &[bool]) -> Result<Vec<u32>, Memory>
    ensures { IfOk result (λ ops. LeavesOut (IsOff task.now marks.now) (length task.now.operators) ops.items) }
{
    let operators = task.parts().operators.as_slice();
    let mut ops = Vec::new(alloc);
    for op in 0..task.operators() {
        if !writes_off(operators[op as usize].effects.as_slice(), marks) {
            ops.push(op)?;
        }
    }
    Ok(ops)
}

/// The operators with an effect on what the variable depends on; none of a base variable.
fn changers_of(alloc: Global, task: &Task, var: u32) -> Result<Vec<u32>, Memory>
    requires { var < length task.now.variables }
    ensures { IfOk result (λ ops. AreChangers task.now var ops.items) }
{
    let parts = task.parts();
    if is_base(parts, var) {
        return Ok(Vec::new(alloc));
    }
    let marks = dependencies(alloc, parts, var)?;
    writers(alloc, task, &marks)
}

/// So of each variable.
fn changers(alloc: Global, task: &Task) -> Result<Vec<Vec<u32>>, Memory>
    ensures { IfOk result (λ lists.
        (var : ℕ) → var < length task.now.variables → AreChangers task.now var (list_in lists.items var)) }
{
    let mut lists = Vec::new(alloc);
    for var in 0..task.parts().variables.len() {
        lists.push(changers_of(alloc, task, var as u32)?)?;
    }
    Ok(lists)
}

/// Of each variable the rules for it.
fn rules_by_variable(alloc: Global, rules: &[Rule]) -> Result<Lists, Memory>
    requires { length rules.now ≤ 1000000 }
    ensures { IfOk result (λ lists. (var : ℕ) → AreRulesFor rules.now var (list_at lists var)) }
{
    let mut lists = Lists::new(alloc);
    for number in 0..rules.len() {
        lists.add(alloc, rules[number].var as usize, number as u32)?;
    }
    Ok(lists)
}

impl Makers {
    /// Of each fact of the task the operators that can make it true, and of each derived variable its rules.
    pub(crate) fn new(alloc: Global, task: &Task) -> Result<Makers, Memory>
        ensures { IfOk result (KnowsMakers task.now) }
    {
        let firsts = firsts_of(alloc, task.parts().variables.as_slice())?;
        let given = givers(alloc, task, &firsts)?;
        let changers = changers(alloc, task)?;
        let rules = rules_by_variable(alloc, task.parts().rules.as_slice())?;
        Ok(Makers {
            firsts,
            given,
            changers,
            rules,
        })
    }

    /// The operators that can make the fact true where it isn't: of a base variable, those with an effect that gives it;
    /// of a derived one, those with an effect on a variable on which it depends, through rules.
    pub(crate) fn of(&self, parts: &TaskParts, fact: Fact) -> &[u32]
        requires known { KnowsMakers parts.now self.now }
        requires within { fact.var < length parts.now.variables }
        ensures { AreMakers parts.now fact result.now }
    {
        if is_base(parts, fact.var) {
            self.given.at(number_of(&self.firsts, fact))
        } else {
            list_of(&self.changers, fact.var as usize)
        }
    }

    /// The rules for the variable.
    pub(crate) fn rules_for(&self, parts: &TaskParts, var: u32) -> &[u32]
        requires { KnowsMakers parts.now self.now }
        ensures { AreRulesFor parts.now.rules var result.now }
    {
        self.rules.at(var as usize)
    }
}
