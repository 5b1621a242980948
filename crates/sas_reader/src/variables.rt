//! The variables.

ghost use Rattle.std.specs.Prelude.{◌≡◌, ◌≤◌, ◌+◌, ◌<◌};
ghost use Rattle.line_grammar.specs.Reading.{GivesReading, row_at, many_at};
ghost use Rattle.symk_task.specs.Variables.{width, range};
ghost use Rattle.symk_task.specs.Fits.{bits_of};
ghost use Rattle.sas_reader.specs.Reading.{name_at, kept, values_at, variable_at, variables_at, used_after, layer_in, may_have, number_that};
ghost use Rattle.sas_reader.specs.declared.fault.Shape.TheVariants.{Layer, Range};

use crate::fault::Shape;
use crate::numbers::only_number;
use crate::rows::{count_of, name_of, word_of};
use line_grammar::{Rest, Stopped, first_line, stopped_at};
use std::alloc::Global;
use symk_task::{LAST_LAYER, List, MOST_VALUES, MOST_VARIABLES, Name, STATE_BITS, Variable};

/// How many values a derived variable has.
const DERIVED_VALUES: u64 = 2;

/// How many bits tell so many values apart: the least whose power of two is enough.
fn width_of(values: u64) -> u64
    requires { values ≤ 65536 }
    ensures width { result ≡ width values }
    ensures few { result < 131072 }
{
    let mut bits = 0;
    let mut power: u64 = 1;
    while power < values {
        power *= 2;
        bits += 1;
    }
    bits
}

/// The layer, None for `-1`, and the lines after it.
fn layer_of<'a>(lines: Rest<'a>) -> Result<(Option<u32>, Rest<'a>), Stopped<Shape>>
    ensures { GivesReading (λ x. (x.0, x.1)) result (row_at Layer layer_in lines.entry) }
{
    let left = lines.len();
    match first_line(lines) {
        Some((line, rest)) => match only_number(line) {
            Some(None) => Ok((None, rest)),
            Some(Some(layer)) => {
                if layer <= LAST_LAYER {
                    Ok((Some(layer as u32), rest))
                } else {
                    Err(stopped_at(Shape::Layer, left))
                }
            }
            None => Err(stopped_at(Shape::Layer, left)),
        },
        None => Err(stopped_at(Shape::Layer, left)),
    }
}

/// A variable of this layer may have so many values, where so many bits are used before it.
fn may_have(layer: Option<u32>, used: u64, values: u64) -> bool
    requires { used ≤ 65536 }
    ensures { result ≡ may_have layer used values }
{
    match layer {
        Some(_) => values == DERIVED_VALUES,
        None => 1 <= values
            && values <= MOST_VALUES
            && used + width_of(values) <= u64::from(STATE_BITS),
    }
}

/// How many values a variable has, and the lines after it.
fn range_of<'a>(
    layer: Option<u32>,
    used: u64,
    lines: Rest<'a>,
) -> Result<(u64, Rest<'a>), Stopped<Shape>>
    requires { used ≤ 65536 }
    ensures { GivesReading (λ x. (x.0, x.1)) result (row_at Range (number_that (may_have layer used)) lines.entry) }
{
    let left = lines.len();
    match first_line(lines) {
        Some((line, rest)) => match only_number(line) {
            Some(Some(values)) => {
                if may_have(layer, used, values) {
                    Ok((values, rest))
                } else {
                    Err(stopped_at(Shape::Range, left))
                }
            }
            _ => Err(stopped_at(Shape::Range, left)),
        },
        None => Err(stopped_at(Shape::Range, left)),
    }
}

/// So many names, and the lines after them.
fn names_of<'a>(
    alloc: Global,
    count: u64,
    lines: Rest<'a>,
) -> Result<(List<Name>, Rest<'a>), Stopped<Shape>>
    ensures { GivesReading (λ x. (x.0, x.1)) result (many_at name_at kept count tt lines.entry) }
{
    let mut names = List::of(Vec::new(alloc));
    let mut rest = lines;
    for _ in 0..count {
        let (name, after) = name_of(alloc, rest)?;
        names.push(name)?;
        rest = after;
    }
    Ok((names, rest))
}

/// The names of the values, and the lines after them.
fn values_of<'a>(
    alloc: Global,
    layer: Option<u32>,
    used: u64,
    lines: Rest<'a>,
) -> Result<(List<Name>, Rest<'a>), Stopped<Shape>>
    requires { used ≤ 65536 }
    ensures { GivesReading (λ x. (x.0, x.1)) result (values_at layer used lines.entry) }
{
    let (count, rest) = range_of(layer, used, lines)?;
    names_of(alloc, count, rest)
}

/// A variable, where so many bits are used before it, and the lines after it.
#[tactic(auto, unfolding(crate::specs::Reading::variable_at))]
fn variable_of<'a>(
    alloc: Global,
    used: u64,
    lines: Rest<'a>,
) -> Result<(Variable, Rest<'a>), Stopped<Shape>>
    requires { used ≤ 65536 }
    ensures { GivesReading (λ x. (x.0, x.1)) result (variable_at used lines.entry) }
{
    let rest = word_of(Shape::BeginVariable, b"begin_variable", lines)?;
    let (name, rest) = name_of(alloc, rest)?;
    let (layer, rest) = layer_of(rest)?;
    let (values, rest) = values_of(alloc, layer, used, rest)?;
    let rest = word_of(Shape::EndVariable, b"end_variable", rest)?;
    Ok((
        Variable {
            name,
            layer,
            values,
        },
        rest,
    ))
}

/// How many bits are used with the variable.
fn used_after(used: u64, variable: &Variable) -> u64
    requires few { range variable.now ≤ 65536 }
    requires fits { used + bits_of variable.now ≤ 65536 }
    ensures { result ≡ used_after used variable.now }
{
    match variable.layer {
        Some(_) => used,
        None => used + width_of(variable.values.as_slice().len() as u64),
    }
}

/// The variables, and the lines after them.
pub fn variables_of<'a>(
    alloc: Global,
    lines: Rest<'a>,
) -> Result<(List<Variable>, Rest<'a>), Stopped<Shape>>
    ensures { GivesReading (λ x. (x.0, x.1)) result (variables_at lines.entry) }
{
    let (count, rest) = count_of(Shape::Count, MOST_VARIABLES, lines)?;
    each_variable(alloc, count, rest)
}

/// So many variables, and the lines after them.
fn each_variable<'a>(
    alloc: Global,
    count: u64,
    lines: Rest<'a>,
) -> Result<(List<Variable>, Rest<'a>), Stopped<Shape>>
    ensures { GivesReading (λ x. (x.0, x.1)) result (many_at variable_at used_after count 0 lines.entry) }
{
    let mut variables = List::of(Vec::new(alloc));
    let mut used = 0;
    let mut rest = lines;
    for _ in 0..count {
        let (variable, after) = variable_of(alloc, used, rest)?;
        used = used_after(used, &variable);
        variables.push(variable)?;
        rest = after;
    }
    Ok((variables, rest))
}
