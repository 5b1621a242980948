//! Facts, and lists of them.

ghost use Rattle.std.specs.Prelude.{◌≡◌, ◌≤◌, Some, None, if◌then◌else◌};
ghost use Rattle.line_grammar.specs.Reading.{GivesReading, many_at};
ghost use Rattle.sas_reader.specs.Known.{Known};
ghost use Rattle.sas_reader.specs.Reading.{kept, in_range, fact_in, fact_at, facts_at, most_facts};

use crate::fault::Shape;
use crate::numbers::two_numbers;
use crate::rows::count_of;
use line_grammar::{Rest, Stopped, first_line, stopped_at};
use std::alloc::Global;
use symk_task::{Fact, List, MOST_FACTS, Variable};

/// The variable is there, and has the value.
pub fn in_range(variables: &[Variable], var: u64, val: u64) -> bool
    ensures { result ≡ in_range variables.now var val }
{
    match variables.get(var as usize) {
        Some(variable) => val < variable.values.as_slice().len() as u64,
        None => false,
    }
}

/// The fact, if it is in range.
pub fn fact_at(variables: &[Variable], var: u64, val: u64) -> Option<Fact>
    requires { Known variables.now }
    ensures { result ≡ (if in_range variables.now var val then Some (record { var = var; val = val }) else None) }
{
    if in_range(variables, var, val) {
        Some(Fact {
            var: var as u32,
            val: val as u32,
        })
    } else {
        None
    }
}

/// The fact that a line states, in range.
fn fact_on(variables: &[Variable], line: &[u8]) -> Option<Fact>
    requires { Known variables.now }
    ensures { result ≡ fact_in variables.now line.now }
{
    match two_numbers(line) {
        Some((var, val)) => fact_at(variables, var, val),
        None => None,
    }
}

/// A fact, and the lines after it.
fn fact_of<'a>(variables: &[Variable], lines: Rest<'a>) -> Result<(Fact, Rest<'a>), Stopped<Shape>>
    requires { Known variables.now }
    ensures { GivesReading (λ x. (x.0, x.1)) result (fact_at variables.now tt lines.entry) }
{
    let left = lines.len();
    match first_line(lines) {
        Some((line, rest)) => match fact_on(variables, line) {
            Some(fact) => Ok((fact, rest)),
            None => Err(stopped_at(Shape::Fact, left)),
        },
        None => Err(stopped_at(Shape::Fact, left)),
    }
}

/// So many facts, and the lines after them.
fn each_fact<'a>(
    alloc: Global,
    variables: &[Variable],
    count: u64,
    lines: Rest<'a>,
) -> Result<(List<Fact>, Rest<'a>), Stopped<Shape>>
    requires { Known variables.now }
    ensures { GivesReading (λ x. (x.0, x.1)) result (many_at (fact_at variables.now) kept count tt lines.entry) }
{
    let mut facts = List::of(Vec::new(alloc));
    let mut rest = lines;
    for _ in 0..count {
        let (fact, after) = fact_of(variables, rest)?;
        facts.push(fact)?;
        rest = after;
    }
    Ok((facts, rest))
}

/// The most facts that a list can have: none where there is no variable.
fn most_facts(variables: &[Variable]) -> u64
    ensures { result ≡ most_facts variables.now }
{
    if variables.is_empty() { 0 } else { MOST_FACTS }
}

/// How many facts, the facts, and the lines after them.
pub fn facts_of<'a>(
    alloc: Global,
    variables: &[Variable],
    lines: Rest<'a>,
) -> Result<(List<Fact>, Rest<'a>), Stopped<Shape>>
    requires { Known variables.now }
    ensures { GivesReading (λ x. (x.0, x.1)) result (facts_at variables.now lines.entry) }
{
    let (count, rest) = count_of(Shape::Count, most_facts(variables), lines)?;
    each_fact(alloc, variables, count, rest)
}
