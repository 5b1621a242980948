//! Lists that go on from an earlier one.

use super::checks::EXCHANGED;
use super::files::*;
use super::rows::{ask_check, holds};
use crate::Status;
use std::test::Fail;

const FIRST: &[u8] = b"; plan 1\n; ops 0\n(switch-on)\n; cost = 1 (unit cost)\n";

const FIRST_TWO: &[u8] =
    b"; plan 1\n; ops 0\n(switch-on)\n; cost = 1 (unit cost)\n; plan 2\n; ops 0 1 0\n(switch-on)\n(switch-off)\n(switch-on)\n; cost = 3 (unit cost)\n";

const SECOND_ALONE: &[u8] =
    b"; plan 1\n; ops 0 1 0\n(switch-on)\n(switch-off)\n(switch-on)\n; cost = 3 (unit cost)\n";

const ONE_ORDER: &[u8] = b"; plan 1\n; ops 0 1\n(a-on)\n(b-on)\n; cost = 2 (unit cost)\n";

#[test]
fn goes_on_from_a_list(rt: HostRuntime) -> Result<(), Fail> {
    let rows = [
        ask_check(
            "plan FILE --k 1 --after PLANS",
            SWITCH_AND_BACK,
            FIRST_TWO,
            Status::Reached,
            b"; plan 3\n; ops 0 1 0 1 0\n(switch-on)\n(switch-off)\n(switch-on)\n(switch-off)\n(switch-on)\n; cost = 5 (unit cost)\n; reached 3\n",
        ),
        ask_check(
            "plan FILE --k 5 --after PLANS",
            TWO_SWITCHES,
            ONE_ORDER,
            Status::Exhausted,
            b"; plan 2\n; ops 1 0\n(b-on)\n(a-on)\n; cost = 2 (unit cost)\n; exhausted 2\n",
        ),
        ask_check(
            "plan FILE --k 5 --mode unordered --after PLANS",
            TWO_SWITCHES,
            ONE_ORDER,
            Status::Exhausted,
            b"; exhausted 1\n",
        ),
        ask_check(
            "plan FILE --k 1 --after PLANS",
            ONE_SWITCH,
            b"; plan 1\n; ops 0\n(switch-on)\n; cost = 1 (unit cost)\n; exhausted 1\n",
            Status::Exhausted,
            b"; exhausted 1\n",
        ),
        ask_check(
            "plan FILE --k 2 --mode loopless --after PLANS",
            SWITCH_AND_BACK,
            FIRST,
            Status::Exhausted,
            b"; exhausted 1\n",
        ),
        ask_check(
            "plan FILE --k 1 --more --after PLANS",
            SWITCH_AND_BACK,
            FIRST,
            Status::MoreLeft,
            b"; plan 2\n; ops 0 1 0\n(switch-on)\n(switch-off)\n(switch-on)\n; cost = 3 (unit cost)\n; more 2\n",
        ),
        ask_check(
            "plan FILE --k 3 --after PLANS",
            ONE_SWITCH,
            b"",
            Status::Exhausted,
            FIRST_AND_END,
        ),
        ask_check(
            "plan FILE --k 1 --after PLANS",
            GREATEST_COST,
            b"; plan 1\n; ops 0\n(go)\n; cost = 18446744073709551615 (general cost)\n",
            Status::CostRange,
            b"; cost range\n",
        ),
    ];
    holds(&rt, rt.alloc(), &rows)
}

/// The list of a task of one switch: its plan, and the end.
pub const FIRST_AND_END: &[u8] =
    b"; plan 1\n; ops 0\n(switch-on)\n; cost = 1 (unit cost)\n; exhausted 1\n";

#[test]
fn refuses_an_earlier_list(rt: HostRuntime) -> Result<(), Fail> {
    let rows = [
        ask_check(
            "plan FILE --k 1 --after PLANS",
            SWITCH_AND_BACK,
            SECOND_ALONE,
            Status::Gap,
            b"plans miss a plan of cost 1\n",
        ),
        ask_check(
            "plan FILE --k 1 --after PLANS",
            SWITCH_AND_BACK,
            EXCHANGED,
            Status::BadList,
            b"bad plan 2: cheaper than plan 1\n",
        ),
        ask_check(
            "plan FILE --k 1 --mode loopless --after PLANS",
            SWITCH_AND_BACK,
            FIRST_TWO,
            Status::BadList,
            b"bad plan 2: loops at step 2\n",
        ),
        ask_check(
            "plan FILE --k 1 --after PLANS",
            SWITCH_AND_BACK,
            b"; plan 2\n",
            Status::Offending,
            b"plans line 1\n",
        ),
        ask_check(
            "plan FILE --k 1 --after OTHER",
            SWITCH_AND_BACK,
            b"",
            Status::Unreadable,
            b"plans unreadable\n",
        ),
        ask_check(
            "plan FILE --k 1 --after OTHER",
            b"",
            b"",
            Status::Offending,
            b"line 1: wanted begin_version\n",
        ),
    ];
    holds(&rt, rt.alloc(), &rows)
}
