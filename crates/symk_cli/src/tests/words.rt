//! Words that are taken, and words that are answered by the usage text.

use super::World;
use super::files::*;
use super::rows::{ask, gives, holds};
use crate::Status;
use crate::top::USAGE;
use std::test::Fail;

#[test]
fn reads_words(rt: HostRuntime) -> Result<(), Fail> {
    let rows = [
        ask(
            "plan FILE --k=3",
            ONE_SWITCH,
            Status::Exhausted,
            b"; plan 1\n; ops 0\n(switch-on)\n; cost = 1 (unit cost)\n; exhausted 1\n",
        ),
        ask(
            "plan --k 3 FILE",
            ONE_SWITCH,
            Status::Exhausted,
            b"; plan 1\n; ops 0\n(switch-on)\n; cost = 1 (unit cost)\n; exhausted 1\n",
        ),
        ask(
            "plan FILE --k 00000000000000000003 --mode topk --search auto",
            ONE_SWITCH,
            Status::Exhausted,
            b"; plan 1\n; ops 0\n(switch-on)\n; cost = 1 (unit cost)\n; exhausted 1\n",
        ),
    ];
    holds(&rt, rt.alloc(), &rows)
}

#[test]
fn refuses_words(rt: HostRuntime) -> Result<(), Fail> {
    let refused = [
        "",
        "plan",
        "plan FILE",
        "plan FILE --k",
        "plan FILE --k 0",
        "plan FILE --k 1000000001",
        "plan FILE --k +3",
        "plan FILE --k 3x",
        "plan FILE --k 000000000000000000003",
        "plan FILE --k 18446744073709551616",
        "plan FILE --k 3 --k 3",
        "plan FILE --k 3 --bound x",
        "plan FILE --k 3 --bound 18446744073709551616",
        "plan FILE --k 3 --quality 99",
        "plan FILE --k 3 --quality 10001",
        "plan FILE --k 3 --bound 3 --quality 100",
        "plan FILE --k 3 --after",
        "plan FILE --k 3 --bound 3 --after PLANS",
        "plan FILE --k 3 --quality 100 --after PLANS",
        "plan FILE --k 3 --after PLANS --after PLANS",
        "plan FILE --k 3 --more yes",
        "plan FILE --k 3 --more=yes",
        "plan FILE --k 3 --more --more",
        "plan FILE --k 3 --mutex yes",
        "plan FILE --k 3 --mutex --mutex",
        "plan FILE --k 3 --mode best",
        "plan FILE --k 3 --search up",
        "plan FILE --k 3 --mode loopless --search forward",
        "plan FILE --k 3 --mode loopless --search bidirectional",
        "check FILE",
        "check FILE PLANS --mode best",
        "check FILE PLANS --search auto",
        "check FILE PLANS --mutex",
        "demo",
        "demo 0",
        "demo 65",
        "prove",
        "prove FILE CERT",
        "prove FILE --mutex",
        "refute FILE",
        "refute FILE CERT --mode topk",
        "help",
        "--help",
        "plan OTHER --k 0",
    ];
    for words in refused {
        let world = World::of(ONE_SWITCH, b"");
        gives(&rt, rt.alloc(), &world, words, Status::Usage, USAGE)?;
    }
    Ok(())
}
