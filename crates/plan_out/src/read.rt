//! Reading a plan text.

ghost use Rattle.std.specs.Prelude.{◌≡◌, ◌≤◌, All, IfOk, IfErr, MatchResult, length};
ghost use Rattle.symk_text.specs.Lines.{lines};
ghost use Rattle.plan_out.specs.declared.read.PlansFault.TheVariants.{Memory};
ghost use Rattle.plan_out.specs.Plans.{IsPlansOf};
ghost use Rattle.plan_out.specs.Reading.{IsAfterEnd, Refuses, begins_with_end};
ghost use Rattle.plan_out.specs.Refused.{PlansRefusedAt};

use crate::blocks::{Blocks, ReadBlock};
use crate::line::is_end;
use crate::rows::block_of;
use line_grammar::{Rest, Stopped, stopped_at};
use std::alloc::Global;
use symk_task::{List, Memory};
use symk_text::lines_of;
use thiserror::Error;

/// Why a plan text is not read.
#[derive(Clone, Copy, Debug, PartialEq, Eq, Drop, Error)]
pub enum PlansFault {
    /// No plan text goes on so at this line, counted from 1; where the text ends within a block, it is the line after
    /// the last.
    #[error("no plan text goes on so at line {line}")]
    Offence { line: u64 },
    /// Out of memory.
    #[error("out of memory")]
    Memory,
}

impl From<Memory> for PlansFault {
    ghost from_gives = { λ _ fault. fault ≡ Memory };

    fn from(_: Memory) -> PlansFault {
        PlansFault::Memory
    }
}

/// Reads a plan text: blocks numbered from 1, and then at most one end line with their number.
///
/// A `PlansFault::Offence` names the first line at which no plan text can go on so.
pub fn read_plans(alloc: Global, bytes: &[u8]) -> Result<Blocks, PlansFault>
    ensures names { IfOk result (λ blocks. All (λ b. length b.names ≡ length b.ops) blocks.list) }
    ensures plans { IfOk result (λ blocks. IsPlansOf (lines bytes.now) blocks.list) }
    ensures offence { IfErr result (λ fault. PlansRefusedAt (lines bytes.now) fault) }
{
    let lines = lines_of(alloc, bytes)?;
    let lines = lines.as_slice();
    match blocks_of(alloc, Rest::of(lines)) {
        Ok(list) => Ok(Blocks { list }),
        Err(Stopped::Memory) => Err(PlansFault::Memory),
        Err(Stopped::Offence(offence)) => Err(PlansFault::Offence {
            line: (lines.len() - offence.left) as u64 + 1,
        }),
    }
}

/// Whether the first line ends a list of so many blocks.
fn begins_with_end(rest: &Rest<'_>, blocks: u64) -> bool
    ensures { result ≡ begins_with_end blocks rest.now }
{
    match rest.first() {
        Some(line) => is_end(line, blocks),
        None => false,
    }
}

/// The blocks of a text, and its end line.
fn blocks_of(alloc: Global, lines: Rest<'_>) -> Result<List<ReadBlock>, Stopped<()>>
    ensures plans { IfOk result (IsPlansOf lines.entry) }
    ensures offence { IfErr result (Refuses lines.entry) }
{
    let mut list = List::of(Vec::new(alloc));
    let mut rest = lines;
    while !rest.is_empty() {
        let count = list.as_slice().len() as u64;
        if begins_with_end(&rest, count) {
            return ended(list, rest);
        }
        let (block, after) = block_of(alloc, count + 1, rest)?;
        list.push(block)?;
        rest = after;
    }
    Ok(list)
}

/// The blocks, where nothing follows the end line, which is the first of the lines that are left.
fn ended(list: List<ReadBlock>, rest: Rest<'_>) -> Result<List<ReadBlock>, Stopped<()>>
    requires { 1 ≤ length rest }
    ensures { MatchResult result (λ blocks. (blocks ≡ list) × (length rest.entry ≡ 1)) (IsAfterEnd rest.entry) }
{
    let following = rest.len() - 1;
    if following == 0 {
        Ok(list)
    } else {
        Err(stopped_at((), following))
    }
}
