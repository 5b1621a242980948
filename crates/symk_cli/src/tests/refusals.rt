//! Texts that are refused, or only just taken.

use super::World;
use super::files::*;
use super::rows::{ask, gives, holds};
use crate::Status;
use std::alloc::AllocError;
use std::test::Fail;

#[test]
fn refuses_texts(rt: HostRuntime) -> Result<(), Fail> {
    let rows = [
        ask(
            "plan FILE --k 3",
            b"begin_version\n3\nend_version\nbegin_metric\n0\nend_metric\n1\nbegin_variable\nvar0\n-1\n2\noff\non\nend_variable\n0\nbegin_state\n0\nend_state\nbegin_goal\n1\n",
            Status::Offending,
            b"line 21: wanted fact\n",
        ),
        ask(
            "plan FILE --k 3",
            b"begin_version\r\n3\r\nend_version\r\nbegin_metric\r\n0\r\nend_metric\r\n1\r\nbegin_variable\r\nvar0\r\n-1\r\n2\r\noff\r\non\r\nend_variable\r\n0\r\nbegin_state\r\n0\r\nend_state\r\nbegin_goal\r\n1\r\n0 1\r\nend_goal\r\n2\r\nbegin_operator\r\nswitch-on\r\n0\r\n1\r\n0 0 0 1\r\n1\r\nend_operator\r\nbegin_operator\r\nswitch-off\r\n0\r\n1\r\n0 0 1 0\r\n1\r\nend_operator\r\n0\r\n  \r\n\t\r\n \t \r\n",
            Status::Reached,
            b"; plan 1\n; ops 0\n(switch-on)\n; cost = 1 (unit cost)\n; plan 2\n; ops 0 1 0\n(switch-on)\n(switch-off)\n(switch-on)\n; cost = 3 (unit cost)\n; plan 3\n; ops 0 1 0 1 0\n(switch-on)\n(switch-off)\n(switch-on)\n(switch-off)\n(switch-on)\n; cost = 5 (unit cost)\n; reached 3\n",
        ),
        ask(
            "plan FILE --k 3",
            b"begin_version\n3\nend_version\nbegin_metric\n0\nend_metric\n1\nbegin_variable\nvar0\n-1\n2\noff\non\nend_variable\n0\nbegin_state\n0\nend_state\nbegin_goal\n1\n0 1\nend_goal\n2\nbegin_operator\nswitch-on\n0\n1\n0 0 0 1\n1\nend_operator\nbegin_operator\nswitch-off\n0\n1\n0 0 1 0\n1\nend_operator\n0\nx\n",
            Status::Offending,
            b"line 39: wanted blank line\n",
        ),
        ask(
            "plan FILE --k 3",
            b"",
            Status::Offending,
            b"line 1: wanted begin_version\n",
        ),
        ask(
            "plan FILE --k 3",
            b"begin_version\n3\nend_version\nbegin_metric\n0\nend_metric\n4\nbegin_variable\nx\n-1\n2\nx0\nx1\nend_variable\nbegin_variable\nd1\n0\n2\nno\nyes\nend_variable\nbegin_variable\nd2\n0\n2\nno\nyes\nend_variable\nbegin_variable\nd3\n1\n2\nno\nyes\nend_variable\n0\nbegin_state\n0\n0\n0\n0\nend_state\nbegin_goal\n1\n2 1\nend_goal\n1\nbegin_operator\ngo\n0\n1\n0 0 0 1\n1\nend_operator\n3\nbegin_rule\n1\n1 0\n2 1 0\nend_rule\nbegin_rule\n1\n0 1\n1 0 1\nend_rule\nbegin_rule\n1\n2 0\n3 0 1\nend_rule\n",
            Status::Exhausted,
            b"; exhausted 0\n",
        ),
        ask(
            "plan OTHER --k 3",
            ONE_SWITCH,
            Status::Unreadable,
            b"file unreadable\n",
        ),
        ask(
            "check OTHER OTHER",
            ONE_SWITCH,
            Status::Unreadable,
            b"file unreadable\n",
        ),
        ask(
            "check FILE OTHER",
            ONE_SWITCH,
            Status::Unreadable,
            b"plans unreadable\n",
        ),
        ask(
            "check FILE OTHER",
            b"",
            Status::Offending,
            b"line 1: wanted begin_version\n",
        ),
        ask(
            "prove OTHER",
            ONE_SWITCH,
            Status::Unreadable,
            b"file unreadable\n",
        ),
        ask(
            "refute FILE OTHER",
            ONE_SWITCH,
            Status::Unreadable,
            b"cert unreadable\n",
        ),
        ask(
            "refute FILE OTHER",
            b"",
            Status::Offending,
            b"line 1: wanted begin_version\n",
        ),
    ];
    holds(&rt, rt.alloc(), &rows)
}

/// A task file, the number of one of its lines, what stands there instead, and what is wanted then.
const OFFENCES: [(&[u8], u64, &[u8], &[u8]); 9] = [
    (ONE_SWITCH, 7, b"65537\n", b"line 7: wanted count\n"),
    (
        ONE_SWITCH,
        7,
        b"18446744073709551616\n",
        b"line 7: wanted count\n",
    ),
    (ONE_SWITCH, 11, b"0\n", b"line 11: wanted range\n"),
    (ONE_SWITCH, 11, b"65537\n", b"line 11: wanted range\n"),
    (
        ONE_SWITCH,
        23,
        b"1000000\n",
        b"line 31: wanted begin_operator\n",
    ),
    (ONE_SWITCH, 23, b"1000001\n", b"line 23: wanted count\n"),
    (ONE_SWITCH, 31, b"1\n", b"line 31: wanted count\n"),
    (AXIOM, 37, b"0 1 0 1\n", b"line 37: wanted effect\n"),
    (LAYERS, 58, b"1 0\n", b"line 59: wanted head\n"),
];

/// The file with another line of that number, counted from 1.
fn push_with_line(
    text: &mut Vec<u8>,
    file: &[u8],
    number: u64,
    other: &[u8],
) -> Result<(), AllocError> {
    for (line, at) in file.split_inclusive(|byte| *byte == b'\n').zip(1..1000) {
        text.extend_from_slice(if at == number { other } else { line })?;
    }
    Ok(())
}

#[test]
fn names_the_first_line_that_offends(rt: HostRuntime) -> Result<(), Fail> {
    for (file, number, line, wanted) in OFFENCES {
        let mut text = Vec::new(rt.alloc());
        push_with_line(&mut text, file, number, line)?;
        let world = World::of(&text, b"");
        gives(
            &rt,
            rt.alloc(),
            &world,
            "plan FILE --k 1",
            Status::Offending,
            wanted,
        )?;
    }
    Ok(())
}

/// A text in the place of plans of the switch that can be turned off again, and what a check of it says.
const PLAN_TEXTS: [(&str, &str); 15] = [
    ("; cost range\n", "good 0\n"),
    ("; more 0", "good 0\n"),
    ("; bounded 00\n", "good 0\n"),
    ("; plan 2\n", "plans line 1\n"),
    ("; plan 1 \n", "plans line 1\n"),
    ("; reached 1\n", "plans line 1\n"),
    ("; more 1\n", "plans line 1\n"),
    ("; exhausted 0\n\n", "plans line 2\n"),
    ("; plan 1\n; ops  0\n", "plans line 2\n"),
    ("; plan 1\n; ops 4294967296\n", "plans line 2\n"),
    ("; plan 1\n; ops 4294967295\n", "plans line 3\n"),
    ("; plan 1\n; ops 0\n(\n", "plans line 3\n"),
    (
        "; plan 1\n; ops 0\n()\n; cost = 1 (some cost)\n",
        "plans line 4\n",
    ),
    (
        "; plan 1\n; ops 0\n()\n; cost = 18446744073709551616 (unit cost)\n",
        "plans line 4\n",
    ),
    (
        "; plan 01\r\n; ops\r\n; cost = 00 (general cost)\r\n; exhausted 001",
        "bad plan 1: misses the goal\n",
    ),
];

#[test]
fn names_the_first_line_at_which_no_plan_text_goes_on_so(rt: HostRuntime) -> Result<(), Fail> {
    for (plans, verdict) in PLAN_TEXTS {
        let world = World::of(SWITCH_AND_BACK, plans.as_bytes());
        let status = match verdict.as_bytes() {
            [b'g', ..] => Status::Good,
            [b'b', ..] => Status::BadList,
            _ => Status::Offending,
        };
        gives(
            &rt,
            rt.alloc(),
            &world,
            "check FILE PLANS",
            status,
            verdict.as_bytes(),
        )?;
    }
    Ok(())
}
