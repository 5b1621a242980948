//! The mutex groups.

ghost use Rattle.line_grammar.specs.Reading.{GivesReading, many_at};
ghost use Rattle.sas_reader.specs.Known.{Known};
ghost use Rattle.sas_reader.specs.Reading.{kept, group_at, groups_at};

use crate::facts::facts_of;
use crate::fault::Shape;
use crate::rows::{count_of, word_of};
use line_grammar::{Rest, Stopped};
use std::alloc::Global;
use symk_task::{Fact, List, MOST_ITEMS, Variable};

/// A mutex group, and the lines after it.
#[tactic(auto, unfolding(crate::specs::Reading::group_at))]
fn group_of<'a>(
    alloc: Global,
    variables: &[Variable],
    lines: Rest<'a>,
) -> Result<(List<Fact>, Rest<'a>), Stopped<Shape>>
    requires { Known variables.now }
    ensures { GivesReading (λ x. (x.0, x.1)) result (group_at variables.now tt lines.entry) }
{
    let rest = word_of(Shape::BeginMutex, b"begin_mutex_group", lines)?;
    let (facts, rest) = facts_of(alloc, variables, rest)?;
    let rest = word_of(Shape::EndMutex, b"end_mutex_group", rest)?;
    Ok((facts, rest))
}

/// So many mutex groups, and the lines after them.
fn each_group<'a>(
    alloc: Global,
    variables: &[Variable],
    count: u64,
    lines: Rest<'a>,
) -> Result<(List<List<Fact>>, Rest<'a>), Stopped<Shape>>
    requires { Known variables.now }
    ensures { GivesReading (λ x. (x.0, x.1)) result (many_at (group_at variables.now) kept count tt lines.entry) }
{
    let mut groups = List::of(Vec::new(alloc));
    let mut rest = lines;
    for _ in 0..count {
        let (group, after) = group_of(alloc, variables, rest)?;
        groups.push(group)?;
        rest = after;
    }
    Ok((groups, rest))
}

/// The mutex groups, and the lines after them.
pub fn groups_of<'a>(
    alloc: Global,
    variables: &[Variable],
    lines: Rest<'a>,
) -> Result<(List<List<Fact>>, Rest<'a>), Stopped<Shape>>
    requires { Known variables.now }
    ensures { GivesReading (λ x. (x.0, x.1)) result (groups_at variables.now lines.entry) }
{
    let (count, rest) = count_of(Shape::Count, MOST_ITEMS, lines)?;
    each_group(alloc, variables, count, rest)
}
