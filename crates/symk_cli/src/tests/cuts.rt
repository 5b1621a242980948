//! Texts that are cut after each line.

use super::World;
use super::faults::LISTED;
use super::files::*;
use super::rows::gives;
use crate::Status;
use std::test::Fail;

/// What a task file of one switch lacks where it is cut before each of its lines.
const WANTED: [&str; 31] = [
    "line 1: wanted begin_version\n",
    "line 2: wanted 3\n",
    "line 3: wanted end_version\n",
    "line 4: wanted begin_metric\n",
    "line 5: wanted metric\n",
    "line 6: wanted end_metric\n",
    "line 7: wanted count\n",
    "line 8: wanted begin_variable\n",
    "line 9: wanted name\n",
    "line 10: wanted layer\n",
    "line 11: wanted range\n",
    "line 12: wanted name\n",
    "line 13: wanted name\n",
    "line 14: wanted end_variable\n",
    "line 15: wanted count\n",
    "line 16: wanted begin_state\n",
    "line 17: wanted value\n",
    "line 18: wanted end_state\n",
    "line 19: wanted begin_goal\n",
    "line 20: wanted count\n",
    "line 21: wanted fact\n",
    "line 22: wanted end_goal\n",
    "line 23: wanted count\n",
    "line 24: wanted begin_operator\n",
    "line 25: wanted name\n",
    "line 26: wanted count\n",
    "line 27: wanted count\n",
    "line 28: wanted effect\n",
    "line 29: wanted cost\n",
    "line 30: wanted end_operator\n",
    "line 31: wanted count\n",
];

#[test]
fn names_the_line_where_a_file_is_cut(rt: HostRuntime) -> Result<(), Fail> {
    let mut front = Vec::new(rt.alloc());
    for (line, wanted) in ONE_SWITCH
        .split_inclusive(|byte| *byte == b'\n')
        .zip(WANTED)
    {
        let world = World::of(&front, b"");
        let wanted = wanted.as_bytes();
        gives(
            &rt,
            rt.alloc(),
            &world,
            "plan FILE --k 3",
            Status::Offending,
            wanted,
        )?;
        front.extend_from_slice(line)?;
    }
    Ok(())
}

/// The verdict on a list of three plans that is cut before each of its lines.
const VERDICTS: [&str; 19] = [
    "good 0\n",
    "plans line 2\n",
    "plans line 3\n",
    "plans line 4\n",
    "good 1\n",
    "plans line 6\n",
    "plans line 7\n",
    "plans line 8\n",
    "plans line 9\n",
    "plans line 10\n",
    "good 2\n",
    "plans line 12\n",
    "plans line 13\n",
    "plans line 14\n",
    "plans line 15\n",
    "plans line 16\n",
    "plans line 17\n",
    "plans line 18\n",
    "good 3\n",
];

#[test]
fn judges_a_list_where_it_is_cut(rt: HostRuntime) -> Result<(), Fail> {
    let mut front = Vec::new(rt.alloc());
    for (line, verdict) in LISTED.split_inclusive(|byte| *byte == b'\n').zip(VERDICTS) {
        let world = World::of(SWITCH_AND_BACK, &front);
        let status = if verdict.starts_with("good") {
            Status::Good
        } else {
            Status::Offending
        };
        let verdict = verdict.as_bytes();
        gives(&rt, rt.alloc(), &world, "check FILE PLANS", status, verdict)?;
        front.extend_from_slice(line)?;
    }
    Ok(())
}
