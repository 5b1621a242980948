//! Lists of plans that are checked, and demonstrations.

use super::faults::LISTED;
use super::files::*;
use super::rows::{ask, ask_check, holds};
use crate::Status;
use std::test::Fail;

/// Three plans, of which the first two are exchanged.
pub const EXCHANGED: &[u8] =
    b"; plan 1\n; ops 0 1 0\n(switch-on)\n(switch-off)\n(switch-on)\n; cost = 3 (unit cost)\n; plan 2\n; ops 0\n(switch-on)\n; cost = 1 (unit cost)\n; plan 3\n; ops 0 1 0 1 0\n(switch-on)\n(switch-off)\n(switch-on)\n(switch-off)\n(switch-on)\n; cost = 5 (unit cost)\n; reached 3\n";

#[test]
fn checks_lists(rt: HostRuntime) -> Result<(), Fail> {
    let rows = [
        ask_check(
            "check FILE PLANS",
            SWITCH_AND_BACK,
            LISTED,
            Status::Good,
            b"good 3\n",
        ),
        ask_check(
            "check FILE PLANS",
            SWITCH_AND_BACK,
            EXCHANGED,
            Status::BadList,
            b"bad plan 2: cheaper than plan 1\n",
        ),
        ask_check(
            "check FILE PLANS --mode loopless",
            SWITCH_AND_BACK,
            LISTED,
            Status::BadList,
            b"bad plan 2: loops at step 2\n",
        ),
        ask_check(
            "check FILE PLANS",
            SWITCH_AND_BACK,
            b"; plan 1\n; ops 0\n(switch-on)\n; cost = 1 (unit cost)\n; plan 2\n; ops 0\n(switch-on)\n; cost = 1 (unit cost)\n",
            Status::BadList,
            b"bad plan 2: repeats plan 1\n",
        ),
        ask(
            "check FILE PLANS",
            SWITCH_AND_BACK,
            Status::Good,
            b"good 0\n",
        ),
        ask_check(
            "check FILE PLANS",
            SWITCH_AND_BACK,
            b"; plan 2\n; ops 0\n(switch-on)\n; cost = 1 (unit cost)\n; plan 2\n; ops 0 1 0\n(switch-on)\n(switch-off)\n(switch-on)\n; cost = 3 (unit cost)\n; plan 3\n; ops 0 1 0 1 0\n(switch-on)\n(switch-off)\n(switch-on)\n(switch-off)\n(switch-on)\n; cost = 5 (unit cost)\n; reached 3\n",
            Status::Offending,
            b"plans line 1\n",
        ),
        ask_check(
            "check FILE PLANS",
            PAST_64_BITS,
            b"; plan 1\n; ops 0 1\n(big)\n(one)\n; cost = 18446744073709551615 (general cost)\n",
            Status::BadList,
            b"bad plan 1: costs 18446744073709551616\n",
        ),
        ask_check(
            "check FILE PLANS",
            PAST_64_BITS,
            b"; plan 1\n; ops 0 1\n(big)\n(one)\n; cost = 18446744073709551616 (general cost)\n",
            Status::Offending,
            b"plans line 5\n",
        ),
        ask_check(
            "check FILE PLANS --mode unordered",
            TWO_SWITCHES,
            b"; plan 1\n; ops 0 1\n(a-on)\n(b-on)\n; cost = 2 (unit cost)\n; plan 2\n; ops 1 0\n(b-on)\n(a-on)\n; cost = 2 (unit cost)\n",
            Status::BadList,
            b"bad plan 2: repeats plan 1\n",
        ),
        ask_check(
            "check FILE PLANS",
            SWITCH_AND_BACK,
            b"; plan 1\n; ops 0\n(switch-on)\n; cost = 1 (unit cost)\n; plan 2\n; ops 1\n(switch-off)\n; cost = 1 (unit cost)\n",
            Status::BadList,
            b"bad plan 2: does not apply at step 1\n",
        ),
        ask_check(
            "check FILE PLANS",
            SWITCH_AND_BACK,
            b"; plan 1\n; ops 0\n(switch-on)\n; cost = 1 (unit cost)\n; plan 2\n; ops 0 1\n(switch-on)\n(switch-off)\n; cost = 2 (unit cost)\n",
            Status::BadList,
            b"bad plan 2: misses the goal\n",
        ),
        ask_check(
            "check FILE PLANS",
            ONE_SWITCH,
            b"; plan 1\n; ops 0 7\n(switch-on)\n(x)\n; cost = 2 (unit cost)\n",
            Status::BadList,
            b"bad plan 1: no such operator at step 2\n",
        ),
        ask_check(
            "check FILE PLANS",
            ONE_SWITCH,
            b"; plan 1\n; ops 0\n(switch)\n; cost = 1 (unit cost)\n; exhausted 1\n",
            Status::BadList,
            b"bad plan 1: other name at step 1\n",
        ),
        ask_check(
            "check FILE PLANS",
            ONE_SWITCH,
            b"; plan 1\n; ops 0\n(switch-on)\n; cost = 1 (general cost)\n; exhausted 1\n",
            Status::BadList,
            b"bad plan 1: costs 1\n",
        ),
    ];
    holds(&rt, rt.alloc(), &rows)
}

#[test]
fn shows_switches(rt: HostRuntime) -> Result<(), Fail> {
    let rows = [
        ask(
            "demo 1",
            b"",
            Status::Shown,
            b"switches 1: variables 2 operators 1 rules 1\nplans 20: cheapest 1 dearest 39 total 400\nend reached 20\n",
        ),
        ask(
            "demo 2",
            b"",
            Status::Shown,
            b"switches 2: variables 3 operators 2 rules 1\nplans 20: cheapest 2 dearest 6 total 96\nend reached 20\n",
        ),
        ask(
            "demo 3",
            b"",
            Status::Shown,
            b"switches 3: variables 4 operators 3 rules 1\nplans 20: cheapest 3 dearest 5 total 88\nend reached 20\n",
        ),
        ask(
            "demo 12",
            b"",
            Status::Shown,
            b"switches 12: variables 13 operators 12 rules 1\nplans 20: cheapest 12 dearest 12 total 240\nend reached 20\n",
        ),
        ask(
            "demo 40",
            b"",
            Status::Shown,
            b"switches 40: variables 41 operators 40 rules 1\nplans 20: cheapest 40 dearest 40 total 800\nend reached 20\n",
        ),
    ];
    holds(&rt, rt.alloc(), &rows)
}
