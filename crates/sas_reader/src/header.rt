//! The version and the metric.

ghost use Rattle.line_grammar.specs.Reading.{GivesReading, row_at};
ghost use Rattle.sas_reader.specs.Reading.{header_at, three};
ghost use Rattle.sas_reader.specs.declared.fault.Shape.TheVariants.{Three};

use crate::fault::Shape;
use crate::numbers::only_number;
use crate::rows::{count_of, word_of};
use line_grammar::{Rest, Stopped, first_line, stopped_at};

/// The version that is read.
const VERSION: u64 = 3;

/// The greatest metric.
const LAST_METRIC: u64 = 1;

fn version_of<'a>(lines: Rest<'a>) -> Result<Rest<'a>, Stopped<Shape>>
    ensures { GivesReading (λ rest. (tt, rest)) result (row_at Three three lines.entry) }
{
    let left = lines.len();
    match first_line(lines) {
        Some((line, rest)) => match only_number(line) {
            Some(Some(number)) => {
                if number == VERSION {
                    Ok(rest)
                } else {
                    Err(stopped_at(Shape::Three, left))
                }
            }
            _ => Err(stopped_at(Shape::Three, left)),
        },
        None => Err(stopped_at(Shape::Three, left)),
    }
}

/// The metric, 0 or 1, and the lines after the header.
#[tactic(auto, unfolding(crate::specs::Reading::header_at))]
pub fn header_of<'a>(lines: Rest<'a>) -> Result<(u64, Rest<'a>), Stopped<Shape>>
    ensures { GivesReading (λ x. (x.0, x.1)) result (header_at lines.entry) }
{
    let rest = word_of(Shape::BeginVersion, b"begin_version", lines)?;
    let rest = version_of(rest)?;
    let rest = word_of(Shape::EndVersion, b"end_version", rest)?;
    let rest = word_of(Shape::BeginMetric, b"begin_metric", rest)?;
    let (metric, rest) = count_of(Shape::Metric, LAST_METRIC, rest)?;
    let rest = word_of(Shape::EndMetric, b"end_metric", rest)?;
    Ok((metric, rest))
}
