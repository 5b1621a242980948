//! Stated mutex groups: those that are shown to hold cut the search, and no list is another.

use super::files::*;
use super::rows::{ask, ask_check, ask_either, holds};
use crate::Status;
use std::test::Fail;

const MOVED: &[u8] = b"; plan 1\n; ops 0\n(move)\n; cost = 1 (unit cost)\n; exhausted 1\n";

const MOVED_BOUNDED: &[u8] = b"; plan 1\n; ops 0\n(move)\n; cost = 1 (unit cost)\n; bounded 1\n";

const A_THEN_B: &[u8] =
    b"; plan 1\n; ops 0 1\n(a-on)\n(b-on)\n; cost = 2 (unit cost)\n; plan 2\n; ops 1 0\n(b-on)\n(a-on)\n; cost = 2 (unit cost)\n; exhausted 2\n";

const B_THEN_A: &[u8] =
    b"; plan 1\n; ops 1 0\n(b-on)\n(a-on)\n; cost = 2 (unit cost)\n; plan 2\n; ops 0 1\n(a-on)\n(b-on)\n; cost = 2 (unit cost)\n; exhausted 2\n";

#[test]
fn lists_the_same_within_groups(rt: HostRuntime) -> Result<(), Fail> {
    let words = [
        ("plan FILE --k 2 --mutex", Status::Exhausted, MOVED),
        (
            "plan FILE --k 2 --mode loopless --mutex",
            Status::Exhausted,
            MOVED,
        ),
        (
            "plan FILE --k 2 --mode unordered --search backward --mutex",
            Status::Exhausted,
            MOVED,
        ),
        (
            "plan FILE --k 2 --bound 1 --mutex",
            Status::Bounded,
            MOVED_BOUNDED,
        ),
        (
            "plan FILE --k 2 --mode loopless --bound 1 --mutex",
            Status::Bounded,
            MOVED_BOUNDED,
        ),
        (
            "plan FILE --k 2 --quality 100 --mutex",
            Status::Bounded,
            MOVED_BOUNDED,
        ),
    ];
    for (words, status, text) in words {
        holds(&rt, rt.alloc(), &[ask(words, IN_TURN, status, text)])?;
    }
    let further = "plan FILE --k 2 --after PLANS --mutex";
    let ended = b"; exhausted 1\n";
    let row = ask_check(further, IN_TURN, MOVED, Status::Exhausted, ended);
    holds(&rt, rt.alloc(), &[row])
}

#[test]
fn trusts_no_stated_group(rt: HostRuntime) -> Result<(), Fail> {
    for words in [
        "plan FILE --k 5 --mutex",
        "plan FILE --k 5 --search backward --mutex",
        "plan FILE --k 5 --mode loopless --mutex",
    ] {
        let row = ask_either(words, FALSE_GROUP, Status::Exhausted, A_THEN_B, B_THEN_A);
        holds(&rt, rt.alloc(), &[row])?;
    }
    Ok(())
}
