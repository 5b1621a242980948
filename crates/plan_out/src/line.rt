//! What single lines of a plan text say.

ghost use Rattle.std.specs.Prelude.{◌≡◌, ◌<◌, IfSome, IfOk, length};
ghost use Rattle.std.specs.Option.{option_copied, option_map};
ghost use Rattle.plan_out.specs.Reading.{operator_then, spaced_in, ops_in, step_in, cost_in, says_enough, says_all, is_end};

use line_grammar::{after, is_numbered, number_then};
use std::alloc::Global;
use symk_task::{Memory, Plan};

/// Whether the line says that so many blocks are as many as were asked for.
fn says_enough(line: &[u8], blocks: u64) -> bool
    ensures { result ≡ says_enough blocks line.now }
{
    is_numbered(line, b"; reached ", blocks) || is_numbered(line, b"; more ", blocks)
}

/// Whether the line says that so many blocks are all.
fn says_all(line: &[u8], blocks: u64) -> bool
    ensures { result ≡ says_all blocks line.now }
{
    is_numbered(line, b"; exhausted ", blocks) || is_numbered(line, b"; bounded ", blocks)
}

/// Whether the line ends a list of so many blocks.
pub fn is_end(line: &[u8], blocks: u64) -> bool
    ensures { result ≡ is_end blocks line.now }
{
    says_enough(line, blocks) || says_all(line, blocks) || line == b"; cost range".as_slice()
}

/// The operator that follows one space, and what follows it.
fn operator_then(bytes: &[u8]) -> Option<(u32, &[u8])>
    ensures { option_map (λ x. (x.0, x.1.now)) result ≡ operator_then bytes.now }
{
    match number_then(bytes, b" ") {
        Some((value, rest)) => match u32::try_from(value) {
            Ok(operator) => Some((operator, rest)),
            Err(_) => None,
        },
        None => None,
    }
}

/// The operators of the line that lists them.
pub fn operators_in(alloc: Global, line: &[u8]) -> Result<Option<Plan>, Memory>
    ensures { IfOk result (λ found. found ≡ ops_in line.now) }
{
    match after(line, b"; ops") {
        Some(spaced) => spaced_in(alloc, spaced),
        None => Ok(None),
    }
}

/// The operators, each after one space.
fn spaced_in(alloc: Global, spaced: &[u8]) -> Result<Option<Plan>, Memory>
    ensures { IfOk result (λ found. found ≡ spaced_in (length spaced.now) spaced.now) }
{
    let mut rest = spaced;
    let mut plan = Plan::of(Vec::new(alloc));
    while !rest.is_empty() {
        match operator_then(rest) {
            Some((operator, after)) => {
                plan.push(operator)?;
                rest = after;
            }
            None => return Ok(None),
        }
    }
    Ok(Some(plan))
}

/// What stands between the parentheses of a step line.
pub fn step_in(line: &[u8]) -> Option<&[u8]>
    ensures { option_copied result ≡ step_in line.now }
{
    match line {
        [b'(', name @ .., b')'] => Some(name),
        _ => None,
    }
}

/// The number and the word of a cost line: whether each operator costs 1.
pub fn cost_in(line: &[u8]) -> Option<(u64, bool)>
    ensures { result ≡ cost_in line.now }
{
    match number_then(line, b"; cost = ") {
        Some((cost, word)) => {
            if word == b" (unit cost)".as_slice() {
                Some((cost, true))
            } else if word == b" (general cost)".as_slice() {
                Some((cost, false))
            } else {
                None
            }
        }
        None => None,
    }
}
