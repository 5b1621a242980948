//! Lists that look one plan further, and lists up to a cost.

use super::files::*;
use super::rows::{ask, holds};
use crate::Status;
use std::test::Fail;

#[test]
fn looks_for_one_plan_more(rt: HostRuntime) -> Result<(), Fail> {
    let rows = [
        ask(
            "plan FILE --k 1 --more",
            ONE_SWITCH,
            Status::Exhausted,
            b"; plan 1\n; ops 0\n(switch-on)\n; cost = 1 (unit cost)\n; exhausted 1\n",
        ),
        ask(
            "plan FILE --k 3 --more",
            ONE_SWITCH,
            Status::Exhausted,
            b"; plan 1\n; ops 0\n(switch-on)\n; cost = 1 (unit cost)\n; exhausted 1\n",
        ),
        ask(
            "plan FILE --k 1 --more",
            SWITCH_AND_BACK,
            Status::MoreLeft,
            b"; plan 1\n; ops 0\n(switch-on)\n; cost = 1 (unit cost)\n; more 1\n",
        ),
        ask(
            "plan FILE --k 1 --mode loopless --search backward --more",
            SWITCH_AND_BACK,
            Status::Exhausted,
            b"; plan 1\n; ops 0\n(switch-on)\n; cost = 1 (unit cost)\n; exhausted 1\n",
        ),
        ask(
            "plan FILE --k 1 --more",
            GREATEST_COST,
            Status::CostRange,
            b"; plan 1\n; ops 0\n(go)\n; cost = 18446744073709551615 (general cost)\n; cost range\n",
        ),
        ask(
            "plan FILE --k 1",
            GREATEST_COST,
            Status::Reached,
            b"; plan 1\n; ops 0\n(go)\n; cost = 18446744073709551615 (general cost)\n; reached 1\n",
        ),
    ];
    holds(&rt, rt.alloc(), &rows)
}

const JUMP: &[u8] =
    b"; plan 1\n; ops 2\n(jump)\n; cost = 1000000000000 (general cost)\n; bounded 1\n";

const JUMP_AND_WALK: &[u8] =
    b"; plan 1\n; ops 2\n(jump)\n; cost = 1000000000000 (general cost)\n; plan 2\n; ops 0 1\n(near)\n(far)\n; cost = 1000000000001 (general cost)\n; bounded 2\n";

#[test]
fn lists_up_to_a_cost(rt: HostRuntime) -> Result<(), Fail> {
    let rows = [
        ask(
            "plan FILE --k 5 --bound 1000000000000",
            NEAR_AND_FAR,
            Status::Bounded,
            JUMP,
        ),
        ask(
            "plan FILE --k 5 --bound 1000000000001",
            NEAR_AND_FAR,
            Status::Bounded,
            JUMP_AND_WALK,
        ),
        ask(
            "plan FILE --k 9 --bound 4",
            SWITCH_AND_BACK,
            Status::Bounded,
            b"; plan 1\n; ops 0\n(switch-on)\n; cost = 1 (unit cost)\n; plan 2\n; ops 0 1 0\n(switch-on)\n(switch-off)\n(switch-on)\n; cost = 3 (unit cost)\n; bounded 2\n",
        ),
        ask(
            "plan FILE --k 1 --bound 0",
            ONE_SWITCH,
            Status::Bounded,
            b"; bounded 0\n",
        ),
        ask(
            "plan FILE --k 1 --more --bound 1",
            SWITCH_AND_BACK,
            Status::Bounded,
            b"; plan 1\n; ops 0\n(switch-on)\n; cost = 1 (unit cost)\n; bounded 1\n",
        ),
        ask(
            "plan FILE --k 1 --more --bound 3",
            SWITCH_AND_BACK,
            Status::MoreLeft,
            b"; plan 1\n; ops 0\n(switch-on)\n; cost = 1 (unit cost)\n; more 1\n",
        ),
        ask(
            "plan FILE --k 3 --mode loopless --bound 1",
            ZERO_COSTS,
            Status::Bounded,
            b"; plan 1\n; ops 0\n(go)\n; cost = 1 (general cost)\n; bounded 1\n",
        ),
    ];
    holds(&rt, rt.alloc(), &rows)
}

#[test]
fn lists_up_to_percent_of_the_least_cost(rt: HostRuntime) -> Result<(), Fail> {
    let rows = [
        ask(
            "plan FILE --k 5 --quality 100",
            NEAR_AND_FAR,
            Status::Bounded,
            JUMP,
        ),
        ask(
            "plan FILE --k 5 --quality 101",
            NEAR_AND_FAR,
            Status::Bounded,
            JUMP_AND_WALK,
        ),
        ask(
            "plan FILE --k 2 --quality 150",
            LAMP,
            Status::Exhausted,
            b"; exhausted 0\n",
        ),
        ask(
            "plan FILE --k 1 --quality 100",
            PAST_64_BITS,
            Status::CostRange,
            b"; cost range\n",
        ),
        ask(
            "plan FILE --k 5 --mode loopless --search backward --quality 10000",
            SWITCH_AND_BACK,
            Status::Bounded,
            b"; plan 1\n; ops 0\n(switch-on)\n; cost = 1 (unit cost)\n; bounded 1\n",
        ),
    ];
    holds(&rt, rt.alloc(), &rows)
}
