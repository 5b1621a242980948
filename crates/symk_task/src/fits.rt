//! Whether a task file can state the parts.

ghost use Rattle.std.specs.Prelude.{◌≡◌, ◌≤◌, ◌<◌, ◌↔◌, ℕ, IsTrue, length, All, IfSome, slice_get, slice_index};
ghost use Rattle.symk_task.specs.Variables.{range, layer_of, other_value};
ghost use Rattle.symk_task.specs.Fits.{IsName, InRange, AreFacts, AreValues, FitsRange, FitsVariable, FitsVariables, FitsMutexes, FitsEffect, FitsOperator, FitsOperators, MayStand, FitsRule, FitsRules, Fits};

use crate::bits::bits_fit;
use crate::limits::{LAST_LAYER, MOST_FACTS, MOST_ITEMS, MOST_VALUES, MOST_VARIABLES};
use crate::list::{List, Name};
use crate::parts::{Effect, Fact, Operator, Rule, TaskParts, Variable};

/// Whether the name is one line.
fn is_name(name: &Name) -> bool
    ensures { IsTrue result ↔ IsName name.now }
{
    !name.as_slice().contains(&b'\n')
}

/// Whether each name is one line.
fn are_names(names: &List<Name>) -> bool
    ensures { IsTrue result ↔ All IsName names.now }
{
    for name in names.as_slice() {
        if !is_name(name) {
            return false;
        }
    }
    true
}

/// Whether the fact is one of a variable that is there.
fn in_range(variables: &[Variable], fact: Fact) -> bool
    ensures { IsTrue result ↔ InRange variables.now fact }
{
    match variables.get(fact.var as usize) {
        Some(variable) => (fact.val as usize) < variable.values.len(),
        None => false,
    }
}

/// Whether the facts are few enough, and each is in range.
fn are_facts(variables: &[Variable], facts: &List<Fact>) -> bool
    ensures { IsTrue result ↔ AreFacts variables.now facts.now }
{
    facts.len() as u64 <= MOST_FACTS
        && facts
            .as_slice()
            .iter()
            .all(|fact| in_range(variables, *fact))
}

/// Whether a variable of the layer, or a base variable, may have so many values.
fn fits_range(layer: Option<u32>, count: usize) -> bool
    ensures { IsTrue result ↔ FitsRange layer count }
{
    match layer {
        Some(layer) => layer as u64 <= LAST_LAYER && count == 2,
        None => 1 <= count && count as u64 <= MOST_VALUES,
    }
}

/// Whether a task file can state the variable.
fn fits_variable(variable: &Variable) -> bool
    ensures { IsTrue result ↔ FitsVariable variable.now }
{
    is_name(&variable.name)
        && are_names(&variable.values)
        && fits_range(variable.layer, variable.values.len())
}

/// Whether a task file can state each of the variables.
fn each_fits(variables: &[Variable]) -> bool
    ensures { IsTrue result ↔ All FitsVariable variables.now }
{
    variables.iter().all(|variable| fits_variable(variable))
}

/// Whether a task file can state the variables together.
fn fits_variables(variables: &[Variable]) -> bool
    ensures { IsTrue result ↔ FitsVariables variables.now }
{
    variables.len() as u64 <= MOST_VARIABLES && each_fits(variables) && bits_fit(variables)
}

/// Whether a task file can state the mutex groups.
fn fits_mutexes(variables: &[Variable], groups: &[List<Fact>]) -> bool
    ensures { IsTrue result ↔ FitsMutexes variables.now groups.now }
{
    groups.len() as u64 <= MOST_ITEMS && groups.iter().all(|group| are_facts(variables, group))
}

/// Whether each variable has an initial value in its range, and there are no others.
fn are_values(variables: &[Variable], values: &[u32]) -> bool
    ensures { IsTrue result ↔ AreValues variables.now values.now }
{
    values.len() == variables.len()
        && variables.iter().zip(values).all(|(variable, value)| (*value as usize)
            < variable.values.len())
}

/// Whether the effect is one on a base variable, and what it names is in range.
fn fits_effect(variables: &[Variable], effect: &Effect) -> bool
    ensures { IsTrue result ↔ FitsEffect variables.now effect.now }
{
    let Some(on) = variables.get(effect.var as usize) else {
        return false;
    };
    let count = on.values.len();
    on.layer.is_none()
        && (effect.post as usize) < count
        && effect.pre.is_none_or(|value| (value as usize) < count)
        && are_facts(variables, &effect.conds)
}

/// Whether a task file can state the operator.
fn fits_operator(variables: &[Variable], operator: &Operator) -> bool
    ensures { IsTrue result ↔ FitsOperator variables.now operator.now }
{
    is_name(&operator.name)
        && are_facts(variables, &operator.prevail)
        && operator.effects.len() as u64 <= MOST_FACTS
        && operator
            .effects
            .as_slice()
            .iter()
            .all(|effect| fits_effect(variables, effect))
}

/// Whether a task file can state the operators.
fn fits_operators(variables: &[Variable], operators: &[Operator]) -> bool
    ensures { IsTrue result ↔ FitsOperators variables.now operators.now }
{
    operators.len() as u64 <= MOST_ITEMS
        && operators
            .iter()
            .all(|operator| fits_operator(variables, operator))
}

impl TaskParts {
    /// Whether a task file can state these parts: counts and numbers are in the ranges of the format, the values of a
    /// state take at most [`STATE_BITS`](crate::STATE_BITS) bits, rules go by layers, and no name holds a line's end.
    pub fn fits(&self) -> bool
        ensures { IsTrue result ↔ Fits self.now }
    {
        let variables = self.variables.as_slice();
        self.metric < 2
            && fits_variables(variables)
            && fits_mutexes(variables, self.mutexes.as_slice())
            && are_values(variables, self.initial.as_slice())
            && are_facts(variables, &self.goal)
            && fits_operators(variables, self.operators.as_slice())
            && self.fits_rules()
    }

    /// Whether a task file can state the rules.
    fn fits_rules(&self) -> bool
        ensures { IsTrue result ↔ FitsRules self.now }
    {
        self.rules.len() as u64 <= MOST_ITEMS
            && self
                .rules
                .as_slice()
                .iter()
                .all(|rule| self.fits_rule(rule))
    }

    /// The layer of a derived variable.
    fn layer_of(&self, var: u32) -> Option<u32>
        ensures { result ≡ layer_of self.now var }
    {
        self.variables.as_slice().get(var as usize)?.layer
    }

    /// The value of a derived variable that isn't its default.
    fn other_value(&self, var: u32) -> u32
        ensures { result ≡ other_value self.now var }
    {
        let default = self
            .initial
            .as_slice()
            .get(var as usize)
            .copied()
            .unwrap_or(0);
        1u32.saturating_sub(default)
    }

    /// Whether a counting rule for the layer may have the fact among its conditions.
    fn may_stand(&self, layer: u32, fact: Fact) -> bool
        ensures { IsTrue result ↔ MayStand self.now layer fact }
    {
        let Some(variable) = self.variables.as_slice().get(fact.var as usize) else {
            return false;
        };
        match variable.layer {
            None => true,
            Some(below) if below < layer => true,
            Some(below) => below == layer && fact.val == self.other_value(fact.var),
        }
    }

    /// Whether a task file can state the rule.
    fn fits_rule(&self, rule: &Rule) -> bool
        ensures { IsTrue result ↔ FitsRule self.now rule.now }
    {
        let Some(layer) = self.layer_of(rule.var) else {
            return false;
        };
        rule.new < 2
            && are_facts(self.variables.as_slice(), &rule.conds)
            && (rule.new != self.other_value(rule.var)
                || rule
                    .conds
                    .as_slice()
                    .iter()
                    .all(|fact| self.may_stand(layer, *fact)))
    }
}
