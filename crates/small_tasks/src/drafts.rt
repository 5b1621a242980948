//! Tasks by drafts: rows of numbers, which a test writes as a constant. A fact is a variable with its value.

ghost use Rattle.std.specs.Prelude.{◌≡◌, ◌↔◌, [], IfOk, IfSome, IsSome, map, replicate};
ghost use Rattle.symk_task.specs.Fits.{Fits};
ghost use Rattle.small_tasks.specs.Drafts.{fact_of, facts_of, drafted_variable, drafted_effect, drafted_operator, drafted_rule, drafted_task};

use crate::parts::{fact, name, none};
use std::alloc::Global;
use symk_task::{Effect, Fact, List, Memory, Name, Operator, Rule, Task, TaskParts, Variable};

/// A variable without names.
#[derive(Clone, Copy)]
pub struct VariableDraft {
    /// The layer of a derived variable.
    pub layer: Option<u32>,
    /// How many values it has.
    pub values: usize,
}

/// What an operator does to a base variable.
#[derive(Clone, Copy)]
pub struct EffectDraft<'a> {
    pub conds: &'a [(u32, u32)],
    pub var: u32,
    /// The value that the operator asks of the variable.
    pub pre: Option<u32>,
    /// The value that the variable has afterwards.
    pub post: u32,
}

/// An operator without prevail facts.
#[derive(Clone, Copy)]
pub struct OperatorDraft<'a> {
    pub name: &'a [u8],
    pub effects: &'a [EffectDraft<'a>],
    pub cost: u64,
}

/// A rule for a derived variable.
#[derive(Clone, Copy)]
pub struct RuleDraft<'a> {
    pub conds: &'a [(u32, u32)],
    pub var: u32,
    /// The value that the rule gives.
    pub new: u32,
}

/// What a task without groups states.
#[derive(Clone, Copy)]
pub struct Draft<'a> {
    /// 0: every operator costs 1. 1: it costs what it states.
    pub metric: u8,
    pub variables: &'a [VariableDraft],
    pub initial: &'a [u32],
    pub goal: &'a [(u32, u32)],
    pub operators: &'a [OperatorDraft<'a>],
    pub rules: &'a [RuleDraft<'a>],
}

fn facts(alloc: Global, rows: &[(u32, u32)]) -> Result<List<Fact>, Memory>
    ensures { IfOk result (λ facts. facts ≡ facts_of rows.now) }
{
    let mut facts = Vec::with_capacity(alloc, rows.len())?;
    'rows: for row in rows {
        facts.push(fact(row.0, row.1))?;
    }
    Ok(List::of(facts))
}

/// So many names without a letter.
fn values(alloc: Global, count: usize) -> Result<List<Name>, Memory>
    ensures { IfOk result (λ names. names ≡ replicate count []) }
{
    let mut names = Vec::new(alloc);
    'names: for _ in 0..count {
        names.push(Name::of(Vec::new(alloc)))?;
    }
    Ok(List::of(names))
}

fn variable(alloc: Global, draft: &VariableDraft) -> Result<Variable, Memory>
    ensures { IfOk result (λ variable. variable ≡ drafted_variable draft.now) }
{
    Ok(Variable {
        name: Name::of(Vec::new(alloc)),
        layer: draft.layer,
        values: values(alloc, draft.values)?,
    })
}

fn variables(alloc: Global, drafts: &[VariableDraft]) -> Result<List<Variable>, Memory>
    ensures { IfOk result (λ variables. variables ≡ map drafted_variable drafts.now) }
{
    let mut variables = Vec::with_capacity(alloc, drafts.len())?;
    'variables: for draft in drafts {
        variables.push(variable(alloc, draft)?)?;
    }
    Ok(List::of(variables))
}

fn effect(alloc: Global, draft: &EffectDraft<'_>) -> Result<Effect, Memory>
    ensures { IfOk result (λ effect. effect ≡ drafted_effect draft.now) }
{
    Ok(Effect {
        conds: facts(alloc, draft.conds)?,
        var: draft.var,
        pre: draft.pre,
        post: draft.post,
    })
}

fn effects(alloc: Global, drafts: &[EffectDraft<'_>]) -> Result<List<Effect>, Memory>
    ensures { IfOk result (λ effects. effects ≡ map drafted_effect drafts.now) }
{
    let mut effects = Vec::with_capacity(alloc, drafts.len())?;
    'effects: for draft in drafts {
        effects.push(effect(alloc, draft)?)?;
    }
    Ok(List::of(effects))
}

fn operator(alloc: Global, draft: &OperatorDraft<'_>) -> Result<Operator, Memory>
    ensures { IfOk result (λ operator. operator ≡ drafted_operator draft.now) }
{
    Ok(Operator {
        name: name(alloc, draft.name)?,
        prevail: none(alloc),
        effects: effects(alloc, draft.effects)?,
        cost: draft.cost,
    })
}

fn operators(alloc: Global, drafts: &[OperatorDraft<'_>]) -> Result<List<Operator>, Memory>
    ensures { IfOk result (λ operators. operators ≡ map drafted_operator drafts.now) }
{
    let mut operators = Vec::with_capacity(alloc, drafts.len())?;
    'operators: for draft in drafts {
        operators.push(operator(alloc, draft)?)?;
    }
    Ok(List::of(operators))
}

fn rule(alloc: Global, draft: &RuleDraft<'_>) -> Result<Rule, Memory>
    ensures { IfOk result (λ rule. rule ≡ drafted_rule draft.now) }
{
    Ok(Rule {
        conds: facts(alloc, draft.conds)?,
        var: draft.var,
        new: draft.new,
    })
}

fn rules(alloc: Global, drafts: &[RuleDraft<'_>]) -> Result<List<Rule>, Memory>
    ensures { IfOk result (λ rules. rules ≡ map drafted_rule drafts.now) }
{
    let mut rules = Vec::with_capacity(alloc, drafts.len())?;
    'rules: for draft in drafts {
        rules.push(rule(alloc, draft)?)?;
    }
    Ok(List::of(rules))
}

/// What the draft states, whether it fits or not.
pub fn drafted_parts(alloc: Global, draft: &Draft<'_>) -> Result<TaskParts, Memory>
    ensures { IfOk result (λ parts. parts ≡ drafted_task draft.now) }
{
    Ok(TaskParts {
        metric: draft.metric,
        variables: variables(alloc, draft.variables)?,
        mutexes: none(alloc),
        initial: List::of(Vec::from_slice(alloc, draft.initial)?),
        goal: facts(alloc, draft.goal)?,
        operators: operators(alloc, draft.operators)?,
        rules: rules(alloc, draft.rules)?,
    })
}

/// The task of the parts, where they fit.
pub fn stated(parts: TaskParts) -> Option<Task>
    ensures value { IfSome result (λ task. task ≡ parts) }
    ensures some { IsSome result ↔ Fits parts }
{
    if parts.fits() {
        Some(Task::of(parts))
    } else {
        None
    }
}

/// The task that the draft states, where it fits.
pub fn drafted(alloc: Global, draft: &Draft<'_>) -> Result<Option<Task>, Memory>
    ensures value { IfOk result (λ found. IfSome found (λ task. task ≡ drafted_task draft.now)) }
    ensures some { IfOk result (λ found. IsSome found ↔ Fits (drafted_task draft.now)) }
{
    Ok(stated(drafted_parts(alloc, draft)?))
}
