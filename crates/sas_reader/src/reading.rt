//! A whole task file.

ghost use Rattle.std.specs.Prelude.{◌≡◌, ℕ, List, [], IfOk, IfErr};
ghost use Rattle.symk_task.specs.declared.parts.TaskParts.{TaskParts};
ghost use Rattle.line_grammar.specs.Reading.{GivesReading, tail_at};
ghost use Rattle.symk_text.specs.Lines.{lines};
ghost use Rattle.sas_reader.specs.Numbers.{is_blank};
ghost use Rattle.sas_reader.specs.Reading.{blank_at, main_at, file_at};
ghost use Rattle.sas_reader.specs.Format.{IsFileOf};
ghost use Rattle.sas_reader.specs.Refused.{RefusedAt};
ghost use Rattle.sas_reader.specs.declared.fault.Shape.TheVariants.{Blank};

use crate::fault::{ReadFault, Shape};
use crate::header::header_of;
use crate::mutexes::groups_of;
use crate::numbers::is_blank;
use crate::operators::operators_of;
use crate::rules::rules_of;
use crate::state::{goal_of, state_of};
use crate::variables::variables_of;
use line_grammar::{Rest, Stopped, first_line, stopped_at};
use std::alloc::Global;
use symk_task::{Task, TaskParts};
use symk_text::lines_of;

/// All but the blank lines, and those.
#[tactic(auto, unfolding(crate::specs::Reading::main_at))]
fn main_of<'a>(alloc: Global, lines: Rest<'a>) -> Result<(TaskParts, Rest<'a>), Stopped<Shape>>
    ensures { GivesReading (λ x. (x.0, x.1)) result (main_at lines.entry) }
{
    let (metric, rest) = header_of(lines)?;
    let (variables, rest) = variables_of(alloc, rest)?;
    let (mutexes, rest) = groups_of(alloc, variables.as_slice(), rest)?;
    let (initial, rest) = state_of(alloc, variables.as_slice(), rest)?;
    let (goal, rest) = goal_of(alloc, variables.as_slice(), rest)?;
    let (operators, rest) = operators_of(alloc, variables.as_slice(), rest)?;
    let (rules, rest) = rules_of(alloc, variables.as_slice(), initial.as_slice(), rest)?;
    Ok((
        TaskParts {
            metric: metric as u8,
            variables,
            mutexes,
            initial,
            goal,
            operators,
            rules,
        },
        rest,
    ))
}

/// A blank line, and the lines after it.
fn blank_of(lines: Rest<'_>) -> Result<Rest<'_>, Stopped<Shape>>
    ensures { GivesReading (λ rest. (tt, rest)) result (blank_at lines.entry) }
{
    let left = lines.len();
    match first_line(lines) {
        Some((line, rest)) => {
            if is_blank(line) {
                Ok(rest)
            } else {
                Err(stopped_at(Shape::Blank, left))
            }
        }
        None => Err(stopped_at(Shape::Blank, left)),
    }
}

/// Blank lines to the end.
#[tactic(auto, unfolding(line_grammar::specs::Reading::tail_at))]
fn blanks_of(lines: Rest<'_>) -> Result<(), Stopped<Shape>>
    ensures { GivesReading (λ _. (tt, [])) result (tail_at Blank is_blank lines.entry) }
{
    let mut rest = lines;
    for _ in 0..rest.len() {
        rest = blank_of(rest)?;
    }
    Ok(())
}

/// The parts that the lines of a task file state.
fn parts_of(alloc: Global, lines: Rest<'_>) -> Result<TaskParts, Stopped<Shape>>
    ensures { GivesReading (λ x. (x, [])) result (file_at lines.entry) }
{
    let (parts, rest) = main_of(alloc, lines)?;
    blanks_of(rest)?;
    Ok(parts)
}

/// The lines of a task file are those of one task alone.
pub fn file_states_one_task()
    ensures { (lines : List (List ℕ)) (one other : TaskParts) → IsFileOf lines one → IsFileOf lines other
        → one ≡ other }
{}

/// Reads a task file.
///
/// A `ReadFault::Offence` names the first line at which no task file can go on so, and what is wanted there.
pub fn read_task(alloc: Global, bytes: &[u8]) -> Result<Task, ReadFault>
    ensures file { IfOk result (λ task. IsFileOf (lines bytes.now) task) }
    ensures offence { IfErr result (λ fault. RefusedAt (lines bytes.now) fault) }
{
    let lines = match lines_of(alloc, bytes) {
        Ok(lines) => lines,
        Err(_) => return Err(ReadFault::Memory),
    };
    let lines = lines.as_slice();
    match parts_of(alloc, Rest::of(lines)) {
        Ok(parts) => Ok(Task::of(parts)),
        Err(Stopped::Memory) => Err(ReadFault::Memory),
        Err(Stopped::Offence(offence)) => Err(ReadFault::Offence {
            line: (lines.len() - offence.left) as u64 + 1,
            wanted: offence.wanted,
        }),
    }
}
