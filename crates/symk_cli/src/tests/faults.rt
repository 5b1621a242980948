//! Each call of the files and of the sink fails once.

use super::certs::OFF;
use super::files::*;
use super::{World, answer};
use crate::Status;
use std::test::Fail;

/// The whole answer for three plans, block by block one piece.
pub const LISTED: &[u8] =
    b"; plan 1\n; ops 0\n(switch-on)\n; cost = 1 (unit cost)\n; plan 2\n; ops 0 1 0\n(switch-on)\n(switch-off)\n(switch-on)\n; cost = 3 (unit cost)\n; plan 3\n; ops 0 1 0 1 0\n(switch-on)\n(switch-off)\n(switch-on)\n(switch-off)\n(switch-on)\n; cost = 5 (unit cost)\n; reached 3\n";

/// The sink's call that fails, and how many bytes were taken before it. Each piece is one write and one flush.
const TAKEN: [(u64, usize); 8] = [
    (1, 0),
    (2, 52),
    (3, 52),
    (4, 133),
    (5, 133),
    (6, 243),
    (7, 243),
    (8, 255),
];

#[test]
fn stops_at_each_call_of_the_sink(rt: HostRuntime) -> Result<(), Fail> {
    for (call, length) in TAKEN {
        let failing = [call];
        let mut world = World::of(SWITCH_AND_BACK, b"");
        world.failing_sink = &failing;
        let given = answer(rt.alloc(), &world, "plan FILE --k 3")?;
        let bytes = given.bytes.as_slice();
        assert!(&rt; given.status == Status::WriteFault, "call {call}");
        assert!(&rt;
            bytes.len() == length && LISTED.starts_with(bytes),
            "call {call}"
        );
    }
    Ok(())
}

#[test]
fn writes_as_the_sink_takes(rt: HostRuntime) -> Result<(), Fail> {
    let mut world = World::of(SWITCH_AND_BACK, b"");
    world.failing_sink = &[9];
    let given = answer(rt.alloc(), &world, "plan FILE --k 3")?;
    assert!(&rt; given.status == Status::Reached && given.bytes.as_slice() == LISTED);
    world.failing_sink = &[6];
    world.most = 10;
    let given = answer(rt.alloc(), &world, "plan FILE --k 3")?;
    assert!(&rt; given.status == Status::WriteFault && given.bytes.len() == 50);
    world.failing_sink = &[3];
    world.most = 1000;
    let given = answer(rt.alloc(), &world, "plan FILE --k 1000000000")?;
    assert!(&rt; given.status == Status::WriteFault && given.bytes.len() == 52);
    Ok(())
}

#[test]
fn stops_at_each_call_of_the_files(rt: HostRuntime) -> Result<(), Fail> {
    let rows = [
        ("plan FILE --k 3", 1, b"file unreadable\n".as_slice()),
        ("plan FILE --k 3", 2, b"file unreadable\n".as_slice()),
        ("check FILE PLANS", 4, b"plans unreadable\n".as_slice()),
        ("check FILE PLANS", 5, b"plans unreadable\n".as_slice()),
        ("prove FILE", 1, b"file unreadable\n".as_slice()),
        ("prove FILE", 2, b"file unreadable\n".as_slice()),
        ("refute FILE CERT", 2, b"file unreadable\n".as_slice()),
        ("refute FILE CERT", 4, b"cert unreadable\n".as_slice()),
        ("refute FILE CERT", 5, b"cert unreadable\n".as_slice()),
    ];
    for (words, call, text) in rows {
        let failing = [call];
        let mut world = World::of(SWITCH_AND_BACK, LISTED);
        world.failing_files = &failing;
        let given = answer(rt.alloc(), &world, words)?;
        assert!(&rt; given.status == Status::Unreadable, "{words}: call {call}");
        assert!(&rt; given.bytes.as_slice() == text, "{words}: call {call}");
    }
    Ok(())
}

/// What is asked of the task without an operator, the sink's call that fails, and how many bytes were taken before it.
const TAKEN_OF_ONE: [(&str, u64, usize); 5] = [
    ("prove FILE", 1, 0),
    ("prove FILE", 2, 44),
    ("refute FILE CERT", 1, 0),
    ("refute FILE CERT", 2, 8),
    ("refute OTHER CERT", 2, 16),
];

#[test]
fn stops_at_each_call_for_a_certificate(rt: HostRuntime) -> Result<(), Fail> {
    for (words, call, length) in TAKEN_OF_ONE {
        let failing = [call];
        let mut world = World::of(NO_OPERATOR, OFF);
        world.failing_sink = &failing;
        let given = answer(rt.alloc(), &world, words)?;
        assert!(&rt;
            given.status == Status::WriteFault && given.bytes.len() == length,
            "{words}: call {call}"
        );
    }
    Ok(())
}
