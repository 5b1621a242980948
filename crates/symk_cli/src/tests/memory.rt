//! An allocation fails, whichever it is: whole pieces were put, and the status says that it is out of memory.
//!
//! With ample memory the whole answer comes; `rt try --test --fail-alloc N` lets the Nth allocation of each test fail.

use super::certs::OFF;
use super::faults::LISTED;
use super::files::*;
use super::{World, answer};
use crate::Status;
use std::alloc::Global;
use std::process::Abort;
use std::test::Fail;

/// An answer: its status, the two texts that it may have, and how long the pieces before the last are together.
#[derive(Clone, Copy)]
struct Pieces<'a> {
    status: Status,
    text: &'a [u8],
    other: &'a [u8],
    ends: &'a [usize],
}

/// The answer comes whole, or is cut between two pieces when out of memory.
fn comes_in_pieces(
    rt: &impl Abort,
    alloc: Global,
    world: &World,
    words: &str,
    pieces: Pieces,
) -> Result<(), Fail> {
    match answer(alloc, world, words) {
        Ok(given) => {
            let bytes = given.bytes.as_slice();
            if given.status == Status::Memory {
                assert!(rt; pieces.ends.contains(&bytes.len()), "{words}: {bytes:?}");
                assert!(rt;
                    pieces.text.starts_with(bytes) || pieces.other.starts_with(bytes),
                    "{words}: {bytes:?}"
                );
            } else {
                assert!(rt;
                    given.status == pieces.status,
                    "{words}: {:?}",
                    given.status
                );
                assert!(rt;
                    pieces.text == bytes || pieces.other == bytes,
                    "{words}: {bytes:?}"
                );
            }
            Ok(())
        }
        // The words, the files or the copy of what was put found no memory, and the run has no part in it.
        Err(_) => Ok(()),
    }
}

#[test]
fn lists_in_pieces(rt: HostRuntime) -> Result<(), Fail> {
    let pieces = Pieces {
        status: Status::Reached,
        text: LISTED,
        other: LISTED,
        ends: &[0, 52, 133, 243],
    };
    let world = World::of(SWITCH_AND_BACK, b"");
    comes_in_pieces(&rt, rt.alloc(), &world, "plan FILE --k 3", pieces)
}

#[test]
fn lists_unordered_in_pieces(rt: HostRuntime) -> Result<(), Fail> {
    let pieces = Pieces {
        status: Status::Exhausted,
        text: b"; plan 1\n; ops 0 1\n(a-on)\n(b-on)\n; cost = 2 (unit cost)\n; exhausted 1\n",
        other: b"; plan 1\n; ops 1 0\n(b-on)\n(a-on)\n; cost = 2 (unit cost)\n; exhausted 1\n",
        ends: &[0, 56],
    };
    let world = World::of(TWO_SWITCHES, b"");
    comes_in_pieces(
        &rt,
        rt.alloc(),
        &world,
        "plan FILE --k 5 --mode unordered",
        pieces,
    )
}

#[test]
fn lists_loopless_in_pieces(rt: HostRuntime) -> Result<(), Fail> {
    let text = b"; plan 1\n; ops 0\n(go)\n; cost = 1 (general cost)\n; exhausted 1\n".as_slice();
    let pieces = Pieces {
        status: Status::Exhausted,
        text,
        other: text,
        ends: &[0, 48],
    };
    let world = World::of(ZERO_COSTS, b"");
    comes_in_pieces(
        &rt,
        rt.alloc(),
        &world,
        "plan FILE --k 3 --mode loopless",
        pieces,
    )
}

#[test]
fn checks_in_pieces(rt: HostRuntime) -> Result<(), Fail> {
    let text = b"good 3\n".as_slice();
    let pieces = Pieces {
        status: Status::Good,
        text,
        other: text,
        ends: &[0],
    };
    let world = World::of(SWITCH_AND_BACK, LISTED);
    comes_in_pieces(&rt, rt.alloc(), &world, "check FILE PLANS", pieces)
}

#[test]
fn settles_in_pieces(rt: HostRuntime) -> Result<(), Fail> {
    let pieces = |status, text| Pieces {
        status,
        text,
        other: text,
        ends: &[0],
    };
    let world = World::of(NO_OPERATOR, OFF);
    let proof = pieces(Status::Proved, OFF);
    comes_in_pieces(&rt, rt.alloc(), &world, "prove FILE", proof)?;
    let verdict = pieces(Status::Refuted, b"no plan\n".as_slice());
    comes_in_pieces(&rt, rt.alloc(), &world, "refute FILE CERT", verdict)
}
