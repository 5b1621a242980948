//! Texts that are too long to stand here: they are put together.

use std::alloc::AllocError;
use symk_text::{Text, push_bytes, push_number};

/// The same piece so many times.
fn push_times(text: &mut Text, piece: &[u8], times: u64) -> Result<(), AllocError> {
    for _ in 0..times {
        push_bytes(text, piece)?;
    }
    Ok(())
}

/// The block of the plan that turns the switch on, and then off and on so many times.
fn push_plan(text: &mut Text, times: u64) -> Result<(), AllocError> {
    push_bytes(text, b"; plan ")?;
    push_number(text, times.saturating_add(1))?;
    push_bytes(text, b"\n; ops 0")?;
    push_times(text, b" 1 0", times)?;
    push_bytes(text, b"\n(switch-on)\n")?;
    push_times(text, b"(switch-off)\n(switch-on)\n", times)?;
    push_bytes(text, b"; cost = ")?;
    push_number(text, times.saturating_mul(2).saturating_add(1))?;
    push_bytes(text, b" (unit cost)\n")
}

/// The answer of so many plans of a switch that can be turned off again: they cost 1, 3, 5 and so on.
pub fn push_plans(text: &mut Text, count: u64) -> Result<(), AllocError> {
    for times in 0..count {
        push_plan(text, times)?;
    }
    push_bytes(text, b"; reached ")?;
    push_number(text, count)?;
    push_bytes(text, b"\n")
}

/// An effect that turns a bit over where those below it are on, of which `below` tells.
fn push_effect(
    text: &mut Text,
    below: &[u8],
    bit: u64,
    from: &[u8],
    to: &[u8],
) -> Result<(), AllocError> {
    push_number(text, bit.saturating_add(1))?;
    push_bytes(text, below)?;
    push_bytes(text, b" ")?;
    push_number(text, bit)?;
    push_bytes(text, from)?;
    push_number(text, bit)?;
    push_bytes(text, to)
}

/// Two effects on each of 40 bits.
fn push_effects(text: &mut Text, below: &mut Text) -> Result<(), AllocError> {
    for bit in 0..40 {
        push_effect(text, below.as_slice(), bit, b" 0 ", b" -1 1\n")?;
        push_effect(text, below.as_slice(), bit, b" 1 ", b" -1 0\n")?;
        push_bytes(below, b" ")?;
        push_number(below, bit)?;
        push_bytes(below, b" 1")?;
    }
    Ok(())
}

fn push_bits(text: &mut Text) -> Result<(), AllocError> {
    for bit in 0..40 {
        push_bytes(text, b"begin_variable\nb")?;
        push_number(text, bit)?;
        push_bytes(text, b"\n-1\n2\noff\non\nend_variable\n")?;
    }
    Ok(())
}

/// A counter of 40 bits, all off, that one operator counts up; the goal is that the lowest bit is on. `below` is empty
/// at first, and tells afterwards that the bits are on.
pub fn push_counter(text: &mut Text, below: &mut Text) -> Result<(), AllocError> {
    push_bytes(
        text,
        b"begin_version\n3\nend_version\nbegin_metric\n0\nend_metric\n40\n",
    )?;
    push_bits(text)?;
    push_bytes(text, b"0\nbegin_state\n")?;
    push_times(text, b"0\n", 40)?;
    push_bytes(
        text,
        b"end_state\nbegin_goal\n1\n0 1\nend_goal\n1\nbegin_operator\ninc\n0\n80\n",
    )?;
    push_effects(text, below)?;
    push_bytes(text, b"1\nend_operator\n0\n")
}

fn push_layers(text: &mut Text, layered: bool) -> Result<(), AllocError> {
    for layer in 0..1000 {
        push_bytes(text, b"begin_variable\nd\n")?;
        push_number(text, if layered { layer } else { 0 })?;
        push_bytes(text, b"\n2\nno\nyes\nend_variable\n")?;
    }
    Ok(())
}

fn push_rules(text: &mut Text) -> Result<(), AllocError> {
    for before in (0..1000).rev() {
        push_bytes(text, b"begin_rule\n1\n")?;
        push_number(text, before)?;
        push_bytes(text, b" 1\n")?;
        push_number(text, before + 1)?;
        push_bytes(text, b" 0 1\nend_rule\n")?;
    }
    Ok(())
}

/// A rule for each of 1,000 derived variables that the one before raises, in the wrong order: each in a layer of its
/// own, or all in one.
pub fn push_chain(text: &mut Text, layered: bool) -> Result<(), AllocError> {
    push_bytes(
        text,
        b"begin_version\n3\nend_version\nbegin_metric\n0\nend_metric\n1001\nbegin_variable\nx\n-1\n2\nx0\nx1\nend_variable\n",
    )?;
    push_layers(text, layered)?;
    push_bytes(text, b"0\nbegin_state\n")?;
    push_times(text, b"0\n", 1001)?;
    push_bytes(
        text,
        b"end_state\nbegin_goal\n1\n1000 1\nend_goal\n1\nbegin_operator\ngo\n0\n1\n0 0 0 1\n1\nend_operator\n1000\n",
    )?;
    push_rules(text)
}

/// 65,535 variables of two values, and a last one of so many; the first has to be set.
pub fn push_wide(text: &mut Text, last: u64) -> Result<(), AllocError> {
    push_bytes(
        text,
        b"begin_version\n3\nend_version\nbegin_metric\n0\nend_metric\n65536\n",
    )?;
    push_times(
        text,
        b"begin_variable\nx\n-1\n2\n0\n1\nend_variable\n",
        65_535,
    )?;
    push_bytes(text, b"begin_variable\nx\n-1\n")?;
    push_number(text, last)?;
    push_bytes(text, b"\n0\n1\nend_variable\n0\nbegin_state\n")?;
    push_times(text, b"0\n", 65_536)?;
    push_bytes(
        text,
        b"end_state\nbegin_goal\n1\n0 1\nend_goal\n1\nbegin_operator\nswitch-on\n0\n1\n0 0 0 1\n1\nend_operator\n0\n",
    )
}

/// 1,000 operators of one name that do the same.
pub fn push_alike(text: &mut Text) -> Result<(), AllocError> {
    push_bytes(
        text,
        b"begin_version\n3\nend_version\nbegin_metric\n0\nend_metric\n1\nbegin_variable\nx\n-1\n2\nx0\nx1\nend_variable\n0\nbegin_state\n0\nend_state\nbegin_goal\n1\n0 1\nend_goal\n1000\n",
    )?;
    push_times(
        text,
        b"begin_operator\ngo\n0\n1\n0 0 0 1\n1\nend_operator\n",
        1000,
    )?;
    push_bytes(text, b"0\n")
}
