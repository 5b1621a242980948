//! Tasks that seeds draw: a list and the one that goes on from it are a good list together.

use super::{World, answer};
use crate::Status;
use sas_writer::write_task;
use std::alloc::{AllocError, Global};
use std::process::Abort;
use std::test::Fail;
use task_draws::random_task;

/// The words that list a few plans of a mode, those that go on from them, and those that check both lists as one.
const ALL: (&str, &str, &str) = (
    "plan FILE --k 3",
    "plan FILE --k 4 --after PLANS",
    "check FILE PLANS",
);

const LOOPLESS: (&str, &str, &str) = (
    "plan FILE --k 3 --mode loopless",
    "plan FILE --k 4 --mode loopless --after PLANS",
    "check FILE PLANS --mode loopless",
);

const UNORDERED: (&str, &str, &str) = (
    "plan FILE --k 3 --mode unordered",
    "plan FILE --k 4 --mode unordered --after PLANS",
    "check FILE PLANS --mode unordered",
);

/// A text without its last line, and then another.
fn joined(alloc: Global, text: &[u8], other: &[u8]) -> Result<Vec<u8>, AllocError> {
    let mut whole = Vec::new(alloc);
    let mut last = b"".as_slice();
    for line in text.split_inclusive(|byte| *byte == b'\n') {
        whole.extend_from_slice(last)?;
        last = line;
    }
    whole.extend_from_slice(other)?;
    Ok(whole)
}

/// A list of the task and the one that goes on from it are good together.
fn goes_on_well(rt: &impl Abort, alloc: Global, file: &[u8], seed: u64) -> Result<(), Fail> {
    let (plan, further, check) = match seed % 3 {
        0 => ALL,
        1 => LOOPLESS,
        _ => UNORDERED,
    };
    let first = answer(alloc, &World::of(file, b""), plan)?;
    let world = World::of(file, first.bytes.as_slice());
    let second = answer(alloc, &world, further)?;
    let whole = joined(alloc, first.bytes.as_slice(), second.bytes.as_slice())?;
    let given = answer(alloc, &World::of(file, &whole), check)?;
    assert!(rt; given.status == Status::Good, "at seed {seed}: {further}");
    Ok(())
}

#[test]
fn goes_on_in_drawn_tasks(rt: HostRuntime) -> Result<(), Fail> {
    for seed in 0..100 {
        if let Some(task) = random_task(rt.alloc(), seed)? {
            let file = write_task(rt.alloc(), &task)?;
            goes_on_well(&rt, rt.alloc(), &file, seed)?;
        }
    }
    Ok(())
}
