//! Certificates that a task has no plan, written and judged.

use super::files::*;
use super::rows::{ask, ask_check, holds};
use super::{World, answer};
use crate::Status;
use std::test::Fail;

/// The certificate of the task without an operator: its first value alone.
pub const OFF: &[u8] = b"symk-cert 1\nbits 1\nnodes 1\n0 1 0\nroot 2\nend\n";

#[test]
fn writes_certificates(rt: HostRuntime) -> Result<(), Fail> {
    let rows = [
        ask("prove FILE", NO_OPERATOR, Status::Proved, OFF),
        ask("prove FILE", ONE_SWITCH, Status::HasPlan, b"has a plan\n"),
        ask(
            "prove FILE",
            GOAL_AT_START,
            Status::HasPlan,
            b"has a plan\n",
        ),
    ];
    holds(&rt, rt.alloc(), &rows)
}

#[test]
fn takes_what_was_written(rt: HostRuntime) -> Result<(), Fail> {
    for file in [NO_OPERATOR, LAMP, LATER_EFFECT] {
        let proved = answer(rt.alloc(), &World::of(file, b""), "prove FILE")?;
        assert!(&rt; proved.status == Status::Proved);
        let cert = proved.bytes.as_slice();
        let row = ask_check(
            "refute FILE CERT",
            file,
            cert,
            Status::Refuted,
            b"no plan\n",
        );
        holds(&rt, rt.alloc(), &[row])?;
    }
    Ok(())
}

/// A task, a text that may be a certificate for it, and what is answered.
type Row<'a> = (&'a [u8], &'a [u8], Status, &'a [u8]);

const JUDGED: [Row<'static>; 8] = [
    (NO_OPERATOR, OFF, Status::Refuted, b"no plan\n"),
    (
        NO_OPERATOR,
        b"symk-cert 1\nbits 1\nnodes 0\nroot 1\nend\n",
        Status::NotShown,
        b"not shown: goal\n",
    ),
    (
        NO_OPERATOR,
        b"symk-cert 1\nbits 1\nnodes 0\nroot 0\nend\n",
        Status::NotShown,
        b"not shown: initial state\n",
    ),
    (
        NO_OPERATOR,
        b"symk-cert 1\nbits 1\nnodes 1\n0 1 5\nroot 2\nend\n",
        Status::Offending,
        b"cert line 4\n",
    ),
    (NO_OPERATOR, b"", Status::Offending, b"cert line 1\n"),
    (
        LAMP,
        b"symk-cert 1\nbits 2\nnodes 2\n1 1 0\n0 2 0\nroot 3\nend\n",
        Status::NotShown,
        b"not shown: operator 0\n",
    ),
    (
        LAMP,
        b"symk-cert 1\nbits 2\nnodes 1\n0 1 0\nroot 2\nend\n",
        Status::Refuted,
        b"no plan\n",
    ),
    (
        ONE_SWITCH,
        OFF,
        Status::NotShown,
        b"not shown: operator 0\n",
    ),
];

#[test]
fn judges_certificates(rt: HostRuntime) -> Result<(), Fail> {
    for (file, cert, status, text) in JUDGED {
        let row = ask_check("refute FILE CERT", file, cert, status, text);
        holds(&rt, rt.alloc(), &[row])?;
    }
    Ok(())
}
