//! The operators.

ghost use Rattle.std.specs.Prelude.{◌≡◌};
ghost use Rattle.std.specs.List.{list_any};
ghost use Rattle.symk_task.specs.Variables.{is_base};
ghost use Rattle.line_grammar.specs.Reading.{GivesReading, many_at};
ghost use Rattle.sas_reader.specs.Known.{Known};
ghost use Rattle.sas_reader.specs.Reading.{kept, most_effects, operator_cost_at, operator_at, operators_at};

use crate::effects::effects_of;
use crate::facts::facts_of;
use crate::fault::Shape;
use crate::numbers::only_number;
use crate::rows::{count_of, name_of, word_of};
use line_grammar::{Rest, Stopped, first_line, stopped_at};
use std::alloc::Global;
use symk_task::{List, MOST_FACTS, MOST_ITEMS, Operator, Variable};

/// There is a base variable.
fn has_base(variables: &[Variable]) -> bool
    ensures { result ≡ list_any is_base variables.now }
{
    variables.iter().any(|variable| variable.layer.is_none())
}

/// The most effects that an operator can have: none where there is no base variable.
fn most_effects(variables: &[Variable]) -> u64
    ensures { result ≡ most_effects variables.now }
{
    if has_base(variables) { MOST_FACTS } else { 0 }
}

/// A cost, and the lines after it.
fn cost_of<'a>(lines: Rest<'a>) -> Result<(u64, Rest<'a>), Stopped<Shape>>
    ensures { GivesReading (λ x. (x.0, x.1)) result (operator_cost_at lines.entry) }
{
    let left = lines.len();
    match first_line(lines) {
        Some((line, rest)) => match only_number(line) {
            Some(Some(cost)) => Ok((cost, rest)),
            _ => Err(stopped_at(Shape::Cost, left)),
        },
        None => Err(stopped_at(Shape::Cost, left)),
    }
}

/// An operator of at most so many effects, and the lines after it.
#[tactic(auto, unfolding(crate::specs::Reading::operator_at))]
fn operator_of<'a>(
    alloc: Global,
    variables: &[Variable],
    most: u64,
    lines: Rest<'a>,
) -> Result<(Operator, Rest<'a>), Stopped<Shape>>
    requires { Known variables.now }
    ensures { GivesReading (λ x. (x.0, x.1)) result (operator_at variables.now most tt lines.entry) }
{
    let rest = word_of(Shape::BeginOperator, b"begin_operator", lines)?;
    let (name, rest) = name_of(alloc, rest)?;
    let (prevail, rest) = facts_of(alloc, variables, rest)?;
    let (effects, rest) = effects_of(alloc, variables, most, rest)?;
    let (cost, rest) = cost_of(rest)?;
    let rest = word_of(Shape::EndOperator, b"end_operator", rest)?;
    Ok((
        Operator {
            name,
            prevail,
            effects,
            cost,
        },
        rest,
    ))
}

/// So many operators, each of at most so many effects, and the lines after them.
fn each_operator<'a>(
    alloc: Global,
    variables: &[Variable],
    most: u64,
    count: u64,
    lines: Rest<'a>,
) -> Result<(List<Operator>, Rest<'a>), Stopped<Shape>>
    requires { Known variables.now }
    ensures { GivesReading (λ x. (x.0, x.1)) result
        (many_at (operator_at variables.now most) kept count tt lines.entry) }
{
    let mut operators = List::of(Vec::new(alloc));
    let mut rest = lines;
    for _ in 0..count {
        let (operator, after) = operator_of(alloc, variables, most, rest)?;
        operators.push(operator)?;
        rest = after;
    }
    Ok((operators, rest))
}

/// The operators, and the lines after them.
pub fn operators_of<'a>(
    alloc: Global,
    variables: &[Variable],
    lines: Rest<'a>,
) -> Result<(List<Operator>, Rest<'a>), Stopped<Shape>>
    requires { Known variables.now }
    ensures { GivesReading (λ x. (x.0, x.1)) result (operators_at variables.now lines.entry) }
{
    let (count, rest) = count_of(Shape::Count, MOST_ITEMS, lines)?;
    each_operator(alloc, variables, most_effects(variables), count, rest)
}
