//! Single lines, each with its test.

ghost use Rattle.std.specs.Prelude.{◌≡◌, ◌≤◌, ℕ, List, nat_le, length, [], ◌∷◌, MatchOption, Err, Some, None};
ghost use Rattle.line_grammar.specs.Reading.{GivesReading, row_at};
ghost use Rattle.line_grammar.specs.declared.Stopped.{Stopped};
ghost use Rattle.line_grammar.specs.declared.Stopped.TheVariants as stopped;
ghost use Rattle.symk_text.specs.Lines.{IsLine};
ghost use Rattle.sas_reader.specs.Reading.{exactly, count_to, name_at, number_that};

use crate::fault::Shape;
use crate::numbers::only_number;
use line_grammar::{Rest, Stopped, first_line, stopped_at};
use std::alloc::Global;
use symk_task::Name;

/// A line of exactly these bytes, and the lines after it.
pub fn word_of<'a>(wanted: Shape, word: &[u8], lines: Rest<'a>) -> Result<Rest<'a>, Stopped<Shape>>
    ensures { GivesReading (λ rest. (tt, rest)) result (row_at wanted (exactly word.now) lines.entry) }
{
    let left = lines.len();
    match first_line(lines) {
        Some((line, rest)) => {
            if line == word {
                Ok(rest)
            } else {
                Err(stopped_at(wanted, left))
            }
        }
        None => Err(stopped_at(wanted, left)),
    }
}

/// A line of one number of at most so much, and the lines after it.
pub fn count_of<'a>(
    wanted: Shape,
    most: u64,
    lines: Rest<'a>,
) -> Result<(u64, Rest<'a>), Stopped<Shape>>
    ensures { GivesReading (λ x. (x.0, x.1)) result (row_at wanted (count_to most) lines.entry) }
{
    let left = lines.len();
    match first_line(lines) {
        Some((line, rest)) => match only_number(line) {
            Some(Some(number)) => {
                if number <= most {
                    Ok((number, rest))
                } else {
                    Err(stopped_at(wanted, left))
                }
            }
            _ => Err(stopped_at(wanted, left)),
        },
        None => Err(stopped_at(wanted, left)),
    }
}

/// A line as a name, and the lines after it.
pub fn name_of<'a>(alloc: Global, lines: Rest<'a>) -> Result<(Name, Rest<'a>), Stopped<Shape>>
    ensures { GivesReading (λ x. (x.0, x.1)) result (name_at tt lines.entry) }
{
    let left = lines.len();
    match first_line(lines) {
        Some((line, rest)) => {
            let name = Name::of(Vec::from_slice(alloc, line)?);
            Ok((name, rest))
        }
        None => Err(stopped_at(Shape::Name, left)),
    }
}
