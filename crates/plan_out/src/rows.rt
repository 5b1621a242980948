//! The rows of a block, each read from the lines that are left.

ghost use Rattle.std.specs.Prelude.{◌≡◌};
ghost use Rattle.line_grammar.specs.Reading.{GivesReading, row_at};
ghost use Rattle.plan_out.specs.Reading.{plan_in, ops_in, step_in, cost_in, steps_at, read_block_at};

use crate::blocks::ReadBlock;
use crate::line::{cost_in, operators_in, step_in};
use line_grammar::{Rest, Stopped, first_line, is_numbered, stopped_at};
use std::alloc::Global;
use symk_task::{List, Name, Plan};

/// The line that begins the block of this number, and the lines after it.
fn plan_of(number: u64, lines: Rest<'_>) -> Result<Rest<'_>, Stopped<()>>
    ensures { GivesReading (λ rest. (tt, rest)) result (row_at tt (plan_in number) lines.entry) }
{
    let left = lines.len();
    match first_line(lines) {
        Some((line, rest)) => {
            if is_numbered(line, b"; plan ", number) {
                Ok(rest)
            } else {
                Err(stopped_at((), left))
            }
        }
        None => Err(stopped_at((), left)),
    }
}

/// The operators, and the lines after them.
fn operators_of(alloc: Global, lines: Rest<'_>) -> Result<(Plan, Rest<'_>), Stopped<()>>
    ensures { GivesReading (λ x. (x.0, x.1)) result (row_at tt ops_in lines.entry) }
{
    let left = lines.len();
    match first_line(lines) {
        Some((line, rest)) => match operators_in(alloc, line)? {
            Some(operators) => Ok((operators, rest)),
            None => Err(stopped_at((), left)),
        },
        None => Err(stopped_at((), left)),
    }
}

/// The name of one step, and the lines after it.
fn name_of(alloc: Global, lines: Rest<'_>) -> Result<(Name, Rest<'_>), Stopped<()>>
    ensures { GivesReading (λ x. (x.0, x.1)) result (row_at tt step_in lines.entry) }
{
    let left = lines.len();
    match first_line(lines) {
        Some((line, rest)) => match step_in(line) {
            Some(name) => {
                let name = Name::of(Vec::from_slice(alloc, name)?);
                Ok((name, rest))
            }
            None => Err(stopped_at((), left)),
        },
        None => Err(stopped_at((), left)),
    }
}

/// The names of so many steps, and the lines after them.
fn names_of(
    alloc: Global,
    count: usize,
    lines: Rest<'_>,
) -> Result<(List<Name>, Rest<'_>), Stopped<()>>
    ensures { GivesReading (λ x. (x.0, x.1)) result (steps_at count lines.entry) }
{
    let mut names = List::of(Vec::new(alloc));
    let mut rest = lines;
    for _ in 0..count {
        let (name, after) = name_of(alloc, rest)?;
        names.push(name)?;
        rest = after;
    }
    Ok((names, rest))
}

/// The cost and whether each operator costs 1, and the lines after them.
fn cost_of(lines: Rest<'_>) -> Result<((u64, bool), Rest<'_>), Stopped<()>>
    ensures { GivesReading (λ x. (x.0, x.1)) result (row_at tt cost_in lines.entry) }
{
    let left = lines.len();
    match first_line(lines) {
        Some((line, rest)) => match cost_in(line) {
            Some(cost) => Ok((cost, rest)),
            None => Err(stopped_at((), left)),
        },
        None => Err(stopped_at((), left)),
    }
}

/// The block of this number, and the lines after it.
#[tactic(auto, unfolding(crate::specs::Reading::read_block_at))]
pub fn block_of(
    alloc: Global,
    number: u64,
    lines: Rest<'_>,
) -> Result<(ReadBlock, Rest<'_>), Stopped<()>>
    ensures { GivesReading (λ x. (x.0, x.1)) result (read_block_at number lines.entry) }
{
    let rest = plan_of(number, lines)?;
    let (ops, rest) = operators_of(alloc, rest)?;
    let (names, rest) = names_of(alloc, ops.as_slice().len(), rest)?;
    let ((cost, unit), rest) = cost_of(rest)?;
    Ok((
        ReadBlock {
            ops,
            names,
            cost,
            unit,
        },
        rest,
    ))
}
