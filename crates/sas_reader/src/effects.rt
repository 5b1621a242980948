//! Effects, each a line of many numbers.

ghost use Rattle.std.specs.Prelude.{◌≡◌, ◌≤◌, IfOk, MatchOption, Some, None};
ghost use Rattle.std.specs.Option.{option_map, option_and_then};
ghost use Rattle.line_grammar.specs.Reading.{GivesReading, many_at};
ghost use Rattle.sas_reader.specs.Numbers.{numbers_of, FindsNumbers};
ghost use Rattle.sas_reader.specs.Known.{Known};
ghost use Rattle.sas_reader.specs.Reading.{kept, is_base_at, allows, in_range, fact_first, conds_of, counted_conds, ending_numbers, ending_that, ending_of, effect_in, effect_at, effects_at};

use crate::facts::{fact_at, in_range};
use crate::fault::Shape;
use crate::numbers::{first_number, first_plain, is_blank};
use crate::rows::count_of;
use line_grammar::{Rest, Stopped, first_line, stopped_at};
use std::alloc::{AllocError, Global};
use symk_task::{Effect, Fact, List, MOST_FACTS, Variable};

/// The first fact of a line, if it is in range, and what is left of the line.
fn first_fact<'a>(variables: &[Variable], line: &'a [u8]) -> Option<(Fact, &'a [u8])>
    requires { Known variables.now }
    ensures { let found = option_and_then (fact_first variables.now) (numbers_of line.now) in MatchOption
        result (found ≡ None) (λ x. FindsNumbers found x.0 x.1.now) }
{
    let (var, rest) = first_plain(line)?;
    let (val, rest) = first_plain(rest)?;
    match fact_at(variables, var, val) {
        Some(fact) => Some((fact, rest)),
        None => None,
    }
}

/// So many facts, if they are in range, and what is left of the line.
fn first_facts<'a>(
    alloc: Global,
    variables: &[Variable],
    count: u64,
    line: &'a [u8],
) -> Result<Option<(List<Fact>, &'a [u8])>, AllocError>
    requires { Known variables.now }
    ensures { let found = option_and_then (conds_of variables.now count) (numbers_of line.now) in IfOk result
        (λ r. MatchOption r (found ≡ None) (λ x. FindsNumbers found x.0 x.1.now)) }
{
    let mut facts = List::of(Vec::new(alloc));
    let mut rest = line;
    for _ in 0..count {
        match first_fact(variables, rest) {
            Some((fact, after)) => {
                facts.push(fact)?;
                rest = after;
            }
            None => return Ok(None),
        }
    }
    Ok(Some((facts, rest)))
}

/// How many facts, and the facts, if they are in range, and what is left of the line.
fn conditions_of<'a>(
    alloc: Global,
    variables: &[Variable],
    line: &'a [u8],
) -> Result<Option<(List<Fact>, &'a [u8])>, AllocError>
    requires { Known variables.now }
    ensures { let found = option_and_then (counted_conds variables.now) (numbers_of line.now) in IfOk result
        (λ r. MatchOption r (found ≡ None) (λ x. FindsNumbers found x.0 x.1.now)) }
{
    match first_plain(line) {
        Some((count, rest)) => {
            if count <= MOST_FACTS {
                first_facts(alloc, variables, count, rest)
            } else {
                Ok(None)
            }
        }
        None => Ok(None),
    }
}

/// The variable is there, and is a base variable.
fn is_base_at(variables: &[Variable], var: u64) -> bool
    ensures { result ≡ is_base_at variables.now var }
{
    match variables.get(var as usize) {
        Some(variable) => variable.layer.is_none(),
        None => false,
    }
}

/// The variable, the value that is asked for, where one is, and the new value that a line ends with.
fn ending_numbers(line: &[u8]) -> Option<(u64, Option<u64>, u64)>
    ensures { result ≡ option_and_then ending_numbers (numbers_of line.now) }
{
    let (var, rest) = first_plain(line)?;
    let (pre, rest) = first_number(rest)?;
    let (post, rest) = first_plain(rest)?;
    if is_blank(rest) {
        Some((var, pre, post))
    } else {
        None
    }
}

/// No value is asked for, or one in range.
fn allows(variables: &[Variable], var: u64, pre: Option<u64>) -> bool
    ensures { result ≡ allows variables.now var pre }
{
    match pre {
        Some(val) => in_range(variables, var, val),
        None => true,
    }
}

/// These, if the variable is a base variable and has the values.
fn ending_at(
    variables: &[Variable],
    var: u64,
    pre: Option<u64>,
    post: u64,
) -> Option<(u32, Option<u32>, u32)>
    requires { Known variables.now }
    ensures { result ≡ ending_that variables.now (var, pre, post) }
{
    if is_base_at(variables, var) && allows(variables, var, pre) && in_range(variables, var, post) {
        let pre = match pre {
            Some(val) => Some(val as u32),
            None => None,
        };
        Some((var as u32, pre, post as u32))
    } else {
        None
    }
}

/// What a line ends with: a base variable, the value that is asked for, where one is, and the new value.
fn ending_of(variables: &[Variable], line: &[u8]) -> Option<(u32, Option<u32>, u32)>
    requires { Known variables.now }
    ensures { result ≡ option_and_then (ending_of variables.now) (numbers_of line.now) }
{
    match ending_numbers(line) {
        Some((var, pre, post)) => ending_at(variables, var, pre, post),
        None => None,
    }
}

/// The effect that a line states, in range.
fn effect_on(
    alloc: Global,
    variables: &[Variable],
    line: &[u8],
) -> Result<Option<Effect>, AllocError>
    requires { Known variables.now }
    ensures { IfOk result (λ effect. effect ≡ effect_in variables.now line.now) }
{
    let (conds, rest) = match conditions_of(alloc, variables, line)? {
        Some(found) => found,
        None => return Ok(None),
    };
    match ending_of(variables, rest) {
        Some((var, pre, post)) => Ok(Some(Effect {
            conds,
            var,
            pre,
            post,
        })),
        None => Ok(None),
    }
}

/// An effect, and the lines after it.
fn effect_of<'a>(
    alloc: Global,
    variables: &[Variable],
    lines: Rest<'a>,
) -> Result<(Effect, Rest<'a>), Stopped<Shape>>
    requires { Known variables.now }
    ensures { GivesReading (λ x. (x.0, x.1)) result (effect_at variables.now tt lines.entry) }
{
    let left = lines.len();
    match first_line(lines) {
        Some((line, rest)) => match effect_on(alloc, variables, line)? {
            Some(effect) => Ok((effect, rest)),
            None => Err(stopped_at(Shape::Effect, left)),
        },
        None => Err(stopped_at(Shape::Effect, left)),
    }
}

/// So many effects, and the lines after them.
fn each_effect<'a>(
    alloc: Global,
    variables: &[Variable],
    count: u64,
    lines: Rest<'a>,
) -> Result<(List<Effect>, Rest<'a>), Stopped<Shape>>
    requires { Known variables.now }
    ensures { GivesReading (λ x. (x.0, x.1)) result (many_at (effect_at variables.now) kept count tt lines.entry) }
{
    let mut effects = List::of(Vec::new(alloc));
    let mut rest = lines;
    for _ in 0..count {
        let (effect, after) = effect_of(alloc, variables, rest)?;
        effects.push(effect)?;
        rest = after;
    }
    Ok((effects, rest))
}

/// How many effects, at most so many, the effects, and the lines after them.
pub fn effects_of<'a>(
    alloc: Global,
    variables: &[Variable],
    most: u64,
    lines: Rest<'a>,
) -> Result<(List<Effect>, Rest<'a>), Stopped<Shape>>
    requires { Known variables.now }
    ensures { GivesReading (λ x. (x.0, x.1)) result (effects_at variables.now most lines.entry) }
{
    let (count, rest) = count_of(Shape::Count, most, lines)?;
    each_effect(alloc, variables, count, rest)
}
