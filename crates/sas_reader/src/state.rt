//! The initial state and the goal.

ghost use Rattle.std.specs.Prelude.{◌≡◌, length};
ghost use Rattle.line_grammar.specs.Reading.{GivesReading, many_at};
ghost use Rattle.sas_reader.specs.Known.{Known};
ghost use Rattle.sas_reader.specs.Reading.{range_at, initial_value_at, next_place, initial_at, state_at, goal_at};

use crate::facts::facts_of;
use crate::fault::Shape;
use crate::numbers::only_number;
use crate::rows::word_of;
use line_grammar::{Rest, Stopped, first_line, stopped_at};
use std::alloc::Global;
use symk_task::{Fact, List, Variable};

/// How many values the variable has, or 1 where it isn't there.
fn range_at(variables: &[Variable], var: usize) -> u64
    ensures { result ≡ range_at variables.now var }
{
    match variables.get(var) {
        Some(variable) => variable.values.as_slice().len() as u64,
        None => 1,
    }
}

/// A value of the variable, and the lines after it.
fn value_of<'a>(
    variables: &[Variable],
    var: usize,
    lines: Rest<'a>,
) -> Result<(u32, Rest<'a>), Stopped<Shape>>
    requires { Known variables.now }
    ensures { GivesReading (λ x. (x.0, x.1)) result (initial_value_at variables.now var lines.entry) }
{
    let left = lines.len();
    match first_line(lines) {
        Some((line, rest)) => match only_number(line) {
            Some(Some(value)) => {
                if value < range_at(variables, var) {
                    Ok((value as u32, rest))
                } else {
                    Err(stopped_at(Shape::Value, left))
                }
            }
            _ => Err(stopped_at(Shape::Value, left)),
        },
        None => Err(stopped_at(Shape::Value, left)),
    }
}

/// A value of each variable, and the lines after them.
fn initial_of<'a>(
    alloc: Global,
    variables: &[Variable],
    lines: Rest<'a>,
) -> Result<(List<u32>, Rest<'a>), Stopped<Shape>>
    requires { Known variables.now }
    ensures { GivesReading (λ x. (x.0, x.1)) result (initial_at variables.now lines.entry) }
{
    let mut values = List::of(Vec::new(alloc));
    let mut rest = lines;
    for var in 0..variables.len() {
        let (value, after) = value_of(variables, var, rest)?;
        values.push(value)?;
        rest = after;
    }
    Ok((values, rest))
}

/// The initial state, and the lines after it.
#[tactic(auto, unfolding(crate::specs::Reading::state_at))]
pub fn state_of<'a>(
    alloc: Global,
    variables: &[Variable],
    lines: Rest<'a>,
) -> Result<(List<u32>, Rest<'a>), Stopped<Shape>>
    requires { Known variables.now }
    ensures { GivesReading (λ x. (x.0, x.1)) result (state_at variables.now lines.entry) }
{
    let rest = word_of(Shape::BeginState, b"begin_state", lines)?;
    let (values, rest) = initial_of(alloc, variables, rest)?;
    let rest = word_of(Shape::EndState, b"end_state", rest)?;
    Ok((values, rest))
}

/// The goal, and the lines after it.
#[tactic(auto, unfolding(crate::specs::Reading::goal_at))]
pub fn goal_of<'a>(
    alloc: Global,
    variables: &[Variable],
    lines: Rest<'a>,
) -> Result<(List<Fact>, Rest<'a>), Stopped<Shape>>
    requires { Known variables.now }
    ensures { GivesReading (λ x. (x.0, x.1)) result (goal_at variables.now lines.entry) }
{
    let rest = word_of(Shape::BeginGoal, b"begin_goal", lines)?;
    let (facts, rest) = facts_of(alloc, variables, rest)?;
    let rest = word_of(Shape::EndGoal, b"end_goal", rest)?;
    Ok((facts, rest))
}
