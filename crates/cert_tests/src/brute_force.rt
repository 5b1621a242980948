//! The verdict on a draft, by brute force: each state of the task is looked at.

ghost use Rattle.std.specs.Prelude.{◌<◌, length};
ghost use Rattle.var_order.specs.Layout.{IsOrderOf};

use crate::drafts::Draft;
use crate::states::{bits_of, is_goal, next_of};
use cert_check::{CertPart, CertVerdict};
use std::alloc::Global;
use symk_task::{Memory, State, Task};
use var_order::Order;

/// Whether the bits lead from the root to 1.
fn leads_to_true(draft: &Draft, bits: &[bool]) -> bool {
    let mut number = draft.root;
    for _ in 0..draft.nodes.len() {
        if number >= 2 {
            let Some(node) = draft.nodes.get(number as usize - 2) else {
                return false;
            };
            let there = bits.get(node.bit as usize).copied().unwrap_or(false);
            number = if there { node.hi } else { node.lo };
        }
    }
    number == 1
}

/// Whether the draft names the state.
fn names(alloc: Global, ranges: &[usize], draft: &Draft, state: &State) -> Result<bool, Memory> {
    let bits = bits_of(alloc, ranges, state)?;
    Ok(leads_to_true(draft, &bits))
}

/// The bit that a number asks for, the width where it is a constant.
fn bit_at(draft: &Draft, width: u32, number: u64) -> u32 {
    if number < 2 {
        return width;
    }
    match draft.nodes.get(number as usize - 2) {
        Some(node) => node.bit,
        None => 0,
    }
}

/// Whether the node at the place goes on at numbers before it that ask for later bits.
fn is_node(draft: &Draft, width: u32, at: usize) -> bool {
    let Some(node) = draft.nodes.get(at) else {
        return false;
    };
    let number = (at as u64).saturating_add(2);
    node.lo < number
        && node.hi < number
        && node.bit < width
        && node.bit < bit_at(draft, width, node.lo)
        && node.bit < bit_at(draft, width, node.hi)
}

/// The first line of the draft's text that is not as it should be.
pub fn first_fault(draft: &Draft, width: u32) -> Option<u64> {
    let count = draft.nodes.len();
    for at in 0..count {
        if !is_node(draft, width, at) {
            return Some((at as u64).saturating_add(4));
        }
    }
    let known = (count as u64).saturating_add(2);
    if draft.root < known {
        None
    } else {
        Some(known.saturating_add(2))
    }
}

/// Whether the operator leads from the state to one that the draft doesn't name.
fn leaves(
    alloc: Global,
    task: &Task,
    order: &Order,
    ranges: &[usize],
    draft: &Draft,
    state: &State,
    op: u32,
) -> Result<bool, Memory>
    requires order { IsOrderOf task.now order.now }
    requires op { op < length task.now.operators }
{
    match next_of(alloc, task, order, op, state)? {
        Some(next) => Ok(!names(alloc, ranges, draft, &next)?),
        None => Ok(false),
    }
}

/// The first operator that leads from a state to one that the draft doesn't name.
fn first_out(
    alloc: Global,
    task: &Task,
    order: &Order,
    ranges: &[usize],
    draft: &Draft,
    state: &State,
) -> Result<Option<u32>, Memory>
    requires { IsOrderOf task.now order.now }
{
    for op in 0..task.operators() {
        if leaves(alloc, task, order, ranges, draft, state, op)? {
            return Ok(Some(op));
        }
    }
    Ok(None)
}

/// The lesser of two operators, where there are such.
fn lesser(one: Option<u32>, other: Option<u32>) -> Option<u32> {
    match (one, other) {
        (Some(one), Some(other)) => Some(one.min(other)),
        (Some(op), None) | (None, Some(op)) => Some(op),
        (None, None) => None,
    }
}

/// What is found at the states that a draft names.
#[derive(Clone, Copy)]
struct Found {
    /// The least operator that leads out of them.
    out: Option<u32>,
    /// Whether the goal holds in one of them.
    goal: bool,
}

/// Looks at each state that the draft names.
fn look(
    alloc: Global,
    task: &Task,
    order: &Order,
    ranges: &[usize],
    states: &[State],
    draft: &Draft,
) -> Result<Found, Memory>
    requires { IsOrderOf task.now order.now }
{
    let mut out = None;
    let mut goal = false;
    for state in states {
        if names(alloc, ranges, draft, state)? {
            out = lesser(out, first_out(alloc, task, order, ranges, draft, state)?);
            goal = goal || is_goal(alloc, task, order, state)?;
        }
    }
    Ok(Found { out, goal })
}

/// The verdict on a draft in order, by looking at each state.
pub fn verdict_by_states(
    alloc: Global,
    task: &Task,
    order: &Order,
    ranges: &[usize],
    states: &[State],
    draft: &Draft,
) -> Result<CertVerdict, Memory>
    requires { IsOrderOf task.now order.now }
{
    let start = task.start(alloc)?;
    if !names(alloc, ranges, draft, &start)? {
        return Ok(CertVerdict::No {
            part: CertPart::Initial,
        });
    }
    let found = look(alloc, task, order, ranges, states, draft)?;
    Ok(match found.out {
        Some(op) => CertVerdict::No {
            part: CertPart::Step { op },
        },
        None => {
            if found.goal {
                CertVerdict::No {
                    part: CertPart::Goal,
                }
            } else {
                CertVerdict::Yes
            }
        }
    })
}
