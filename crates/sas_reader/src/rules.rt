//! The rules.

ghost use Rattle.std.specs.Prelude.{◌≡◌, ◌<◌, length};
ghost use Rattle.std.specs.List.{list_all};
ghost use Rattle.symk_task.specs.Variables.{is_base};
ghost use Rattle.line_grammar.specs.Reading.{GivesReading, row_at, many_at};
ghost use Rattle.sas_reader.specs.Known.{Known};
ghost use Rattle.sas_reader.specs.Reading.{kept, may_stand, heads, head_fits, head_in, most_rules, rule_at, rules_at};
ghost use Rattle.sas_reader.specs.declared.fault.Shape.TheVariants.{Head};

use crate::facts::facts_of;
use crate::fault::Shape;
use crate::numbers::three_numbers;
use crate::rows::{count_of, word_of};
use line_grammar::{Rest, Stopped, first_line, stopped_at};
use std::alloc::Global;
use symk_task::{Fact, List, MOST_ITEMS, Rule, Variable};

/// There is no derived variable.
fn all_base(variables: &[Variable]) -> bool
    ensures { result ≡ list_all is_base variables.now }
{
    variables.iter().all(|variable| variable.layer.is_none())
}

/// The most rules: none where there is no derived variable.
fn most_rules(variables: &[Variable]) -> u64
    ensures { result ≡ most_rules variables.now }
{
    if all_base(variables) { 0 } else { MOST_ITEMS }
}

/// With these default values, a rule for the other value of a variable of this layer may have the condition: one on a
/// base variable, on a lower layer, or at the other value on the same layer.
fn may_stand(variables: &[Variable], defaults: &[u32], layer: u32, fact: Fact) -> bool
    requires { length defaults.now ≡ length variables.now }
    ensures { result ≡ may_stand variables.now defaults.now layer fact }
{
    match variables.get(fact.var as usize) {
        Some(variable) => match variable.layer {
            Some(below) => {
                below < layer
                    || below == layer
                        && u64::from(fact.val)
                            == 1u64.saturating_sub(u64::from(defaults[fact.var as usize]))
            }
            None => true,
        },
        None => false,
    }
}

/// Each condition may stand in a rule for the other value of a variable of this layer.
fn all_may_stand(variables: &[Variable], defaults: &[u32], layer: u32, conds: &[Fact]) -> bool
    requires { length defaults.now ≡ length variables.now }
    ensures { result ≡ list_all (may_stand variables.now defaults.now layer) conds.now }
{
    conds
        .iter()
        .all(|fact| may_stand(variables, defaults, layer, *fact))
}

/// The head's variable is a derived one, and its values may stand in the head of a rule with these conditions.
fn head_fits(
    variables: &[Variable],
    defaults: &[u32],
    conds: &[Fact],
    var: u64,
    old: u64,
    new: u64,
) -> bool
    requires { length defaults.now ≡ length variables.now }
    ensures { result ≡ head_fits variables.now defaults.now conds.now var old new }
{
    match variables.get(var as usize) {
        Some(variable) => match variable.layer {
            Some(layer) => {
                new < 2
                    && old == 1u64.saturating_sub(new)
                    && (new == u64::from(defaults[var as usize])
                        || all_may_stand(variables, defaults, layer, conds))
            }
            None => false,
        },
        None => false,
    }
}

/// The variable and the new value of the head that a line states.
fn head_on(
    variables: &[Variable],
    defaults: &[u32],
    conds: &[Fact],
    line: &[u8],
) -> Option<(u32, u32)>
    requires known { Known variables.now }
    requires each { length defaults.now ≡ length variables.now }
    ensures { result ≡ head_in variables.now defaults.now conds.now line.now }
{
    match three_numbers(line) {
        Some((var, old, new)) => {
            if head_fits(variables, defaults, conds, var, old, new) {
                Some((var as u32, new as u32))
            } else {
                None
            }
        }
        None => None,
    }
}

/// The variable and the new value of a head, and the lines after it.
fn head_of<'a>(
    variables: &[Variable],
    defaults: &[u32],
    conds: &[Fact],
    lines: Rest<'a>,
) -> Result<((u32, u32), Rest<'a>), Stopped<Shape>>
    requires known { Known variables.now }
    requires each { length defaults.now ≡ length variables.now }
    ensures { GivesReading (λ x. (x.0, x.1)) result
        (row_at Head (head_in variables.now defaults.now conds.now) lines.entry) }
{
    let left = lines.len();
    match first_line(lines) {
        Some((line, rest)) => match head_on(variables, defaults, conds, line) {
            Some(head) => Ok((head, rest)),
            None => Err(stopped_at(Shape::Head, left)),
        },
        None => Err(stopped_at(Shape::Head, left)),
    }
}

/// A rule, and the lines after it.
#[tactic(auto, unfolding(crate::specs::Reading::rule_at))]
fn rule_of<'a>(
    alloc: Global,
    variables: &[Variable],
    defaults: &[u32],
    lines: Rest<'a>,
) -> Result<(Rule, Rest<'a>), Stopped<Shape>>
    requires known { Known variables.now }
    requires each { length defaults.now ≡ length variables.now }
    ensures { GivesReading (λ x. (x.0, x.1)) result (rule_at variables.now defaults.now tt lines.entry) }
{
    let rest = word_of(Shape::BeginRule, b"begin_rule", lines)?;
    let (conds, rest) = facts_of(alloc, variables, rest)?;
    let ((var, new), rest) = head_of(variables, defaults, conds.as_slice(), rest)?;
    let rest = word_of(Shape::EndRule, b"end_rule", rest)?;
    Ok((Rule { conds, var, new }, rest))
}

/// So many rules, and the lines after them.
fn each_rule<'a>(
    alloc: Global,
    variables: &[Variable],
    defaults: &[u32],
    count: u64,
    lines: Rest<'a>,
) -> Result<(List<Rule>, Rest<'a>), Stopped<Shape>>
    requires known { Known variables.now }
    requires each { length defaults.now ≡ length variables.now }
    ensures { GivesReading (λ x. (x.0, x.1)) result
        (many_at (rule_at variables.now defaults.now) kept count tt lines.entry) }
{
    let mut rules = List::of(Vec::new(alloc));
    let mut rest = lines;
    for _ in 0..count {
        let (rule, after) = rule_of(alloc, variables, defaults, rest)?;
        rules.push(rule)?;
        rest = after;
    }
    Ok((rules, rest))
}

/// The rules, and the lines after them.
pub fn rules_of<'a>(
    alloc: Global,
    variables: &[Variable],
    defaults: &[u32],
    lines: Rest<'a>,
) -> Result<(List<Rule>, Rest<'a>), Stopped<Shape>>
    requires known { Known variables.now }
    requires each { length defaults.now ≡ length variables.now }
    ensures { GivesReading (λ x. (x.0, x.1)) result (rules_at variables.now defaults.now lines.entry) }
{
    let (count, rest) = count_of(Shape::Count, most_rules(variables), lines)?;
    each_rule(alloc, variables, defaults, count, rest)
}
