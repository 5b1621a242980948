//! The worked lists of plans: in topk, by each search word, and in the other modes.

use super::files::*;
use super::rows::{ask, ask_either, holds};
use super::{World, answer, answer_in_memory};
use crate::Status;
use std::test::Fail;

#[test]
fn plans_in_order(rt: HostRuntime) -> Result<(), Fail> {
    let rows = [
        ask(
            "plan FILE --k 3",
            ONE_SWITCH,
            Status::Exhausted,
            b"; plan 1\n; ops 0\n(switch-on)\n; cost = 1 (unit cost)\n; exhausted 1\n",
        ),
        ask(
            "plan FILE --k 1",
            ONE_SWITCH,
            Status::Reached,
            b"; plan 1\n; ops 0\n(switch-on)\n; cost = 1 (unit cost)\n; reached 1\n",
        ),
        ask(
            "plan FILE --k 3",
            SWITCH_AND_BACK,
            Status::Reached,
            b"; plan 1\n; ops 0\n(switch-on)\n; cost = 1 (unit cost)\n; plan 2\n; ops 0 1 0\n(switch-on)\n(switch-off)\n(switch-on)\n; cost = 3 (unit cost)\n; plan 3\n; ops 0 1 0 1 0\n(switch-on)\n(switch-off)\n(switch-on)\n(switch-off)\n(switch-on)\n; cost = 5 (unit cost)\n; reached 3\n",
        ),
        ask_either(
            "plan FILE --k 5",
            TWO_SWITCHES,
            Status::Exhausted,
            b"; plan 1\n; ops 0 1\n(a-on)\n(b-on)\n; cost = 2 (unit cost)\n; plan 2\n; ops 1 0\n(b-on)\n(a-on)\n; cost = 2 (unit cost)\n; exhausted 2\n",
            b"; plan 1\n; ops 1 0\n(b-on)\n(a-on)\n; cost = 2 (unit cost)\n; plan 2\n; ops 0 1\n(a-on)\n(b-on)\n; cost = 2 (unit cost)\n; exhausted 2\n",
        ),
        ask(
            "plan FILE --k 5",
            AXIOM,
            Status::Exhausted,
            b"; plan 1\n; ops 0\n(m1)\n; cost = 1 (unit cost)\n; plan 2\n; ops 0 1\n(m1)\n(m2)\n; cost = 2 (unit cost)\n; exhausted 2\n",
        ),
        ask(
            "plan FILE --k 2",
            GOAL_AT_START,
            Status::Exhausted,
            b"; plan 1\n; ops\n; cost = 0 (unit cost)\n; exhausted 1\n",
        ),
        ask(
            "plan FILE --k 2",
            NO_OPERATOR,
            Status::Exhausted,
            b"; exhausted 0\n",
        ),
        ask(
            "plan FILE --k 2",
            DEFAULT_RULE,
            Status::Exhausted,
            b"; plan 1\n; ops 0\n(go)\n; cost = 1 (unit cost)\n; exhausted 1\n",
        ),
        ask(
            "plan FILE --k 5",
            LAYERS,
            Status::Exhausted,
            b"; plan 1\n; ops 0\n(go)\n; cost = 1 (unit cost)\n; exhausted 1\n",
        ),
        ask(
            "plan FILE --k 5",
            LAYERS_NEGATION,
            Status::Exhausted,
            b"; plan 1\n; ops\n; cost = 0 (unit cost)\n; exhausted 1\n",
        ),
        ask(
            "plan FILE --k 1",
            SWAP,
            Status::Reached,
            b"; plan 1\n; ops 0\n(swap)\n; cost = 1 (unit cost)\n; reached 1\n",
        ),
        ask(
            "plan FILE --k 2",
            LATER_EFFECT,
            Status::Exhausted,
            b"; exhausted 0\n",
        ),
        ask(
            "plan FILE --k 1",
            LATER_EFFECT_WINS,
            Status::Reached,
            b"; plan 1\n; ops 0\n(two)\n; cost = 1 (unit cost)\n; reached 1\n",
        ),
        ask(
            "plan FILE --k 3",
            b"begin_version\n3\nend_version\nbegin_metric\n0\nend_metric\n1\nbegin_variable\nvar0\n-1\n2\noff\non\nend_variable\n0\nbegin_state\n0\nend_state\nbegin_goal\n1\n0 1\nend_goal\n1\nbegin_operator\nswitch-on\n0\n1\n0 0 0 1\n7\nend_operator\n0\n",
            Status::Exhausted,
            b"; plan 1\n; ops 0\n(switch-on)\n; cost = 1 (unit cost)\n; exhausted 1\n",
        ),
        ask(
            "plan FILE --k 5",
            PAST_64_BITS,
            Status::CostRange,
            b"; cost range\n",
        ),
        ask(
            "plan FILE --k 5",
            AT_64_BITS,
            Status::Exhausted,
            b"; plan 1\n; ops 0\n(big)\n; cost = 18446744073709551615 (general cost)\n; exhausted 1\n",
        ),
    ];
    holds(&rt, rt.alloc(), &rows)
}

#[test]
fn plans_by_each_search(rt: HostRuntime) -> Result<(), Fail> {
    let rows = [
        ask(
            "plan FILE --k 2 --search auto",
            LAMP,
            Status::Exhausted,
            b"; exhausted 0\n",
        ),
        ask(
            "plan FILE --k 2 --mode unordered --search auto",
            LAMP,
            Status::Exhausted,
            b"; exhausted 0\n",
        ),
        ask(
            "plan FILE --k 2 --search auto",
            NEAR_AND_FAR,
            Status::Reached,
            b"; plan 1\n; ops 2\n(jump)\n; cost = 1000000000000 (general cost)\n; plan 2\n; ops 0 1\n(near)\n(far)\n; cost = 1000000000001 (general cost)\n; reached 2\n",
        ),
        ask(
            "plan FILE --k 3 --search auto",
            NEAR_AND_FAR,
            Status::Exhausted,
            b"; plan 1\n; ops 2\n(jump)\n; cost = 1000000000000 (general cost)\n; plan 2\n; ops 0 1\n(near)\n(far)\n; cost = 1000000000001 (general cost)\n; exhausted 2\n",
        ),
        ask_either(
            "plan FILE --k 2 --search auto",
            TWO_SWITCHES,
            Status::Reached,
            b"; plan 1\n; ops 0 1\n(a-on)\n(b-on)\n; cost = 2 (unit cost)\n; plan 2\n; ops 1 0\n(b-on)\n(a-on)\n; cost = 2 (unit cost)\n; reached 2\n",
            b"; plan 1\n; ops 1 0\n(b-on)\n(a-on)\n; cost = 2 (unit cost)\n; plan 2\n; ops 0 1\n(a-on)\n(b-on)\n; cost = 2 (unit cost)\n; reached 2\n",
        ),
        ask(
            "plan FILE --k 2 --search forward",
            LAMP,
            Status::Exhausted,
            b"; exhausted 0\n",
        ),
        ask(
            "plan FILE --k 2 --mode unordered --search forward",
            LAMP,
            Status::Exhausted,
            b"; exhausted 0\n",
        ),
        ask(
            "plan FILE --k 2 --search forward",
            NEAR_AND_FAR,
            Status::Reached,
            b"; plan 1\n; ops 2\n(jump)\n; cost = 1000000000000 (general cost)\n; plan 2\n; ops 0 1\n(near)\n(far)\n; cost = 1000000000001 (general cost)\n; reached 2\n",
        ),
        ask(
            "plan FILE --k 3 --search forward",
            NEAR_AND_FAR,
            Status::Exhausted,
            b"; plan 1\n; ops 2\n(jump)\n; cost = 1000000000000 (general cost)\n; plan 2\n; ops 0 1\n(near)\n(far)\n; cost = 1000000000001 (general cost)\n; exhausted 2\n",
        ),
        ask_either(
            "plan FILE --k 2 --search forward",
            TWO_SWITCHES,
            Status::Reached,
            b"; plan 1\n; ops 0 1\n(a-on)\n(b-on)\n; cost = 2 (unit cost)\n; plan 2\n; ops 1 0\n(b-on)\n(a-on)\n; cost = 2 (unit cost)\n; reached 2\n",
            b"; plan 1\n; ops 1 0\n(b-on)\n(a-on)\n; cost = 2 (unit cost)\n; plan 2\n; ops 0 1\n(a-on)\n(b-on)\n; cost = 2 (unit cost)\n; reached 2\n",
        ),
        ask(
            "plan FILE --k 2 --search backward",
            LAMP,
            Status::Exhausted,
            b"; exhausted 0\n",
        ),
        ask(
            "plan FILE --k 2 --mode unordered --search backward",
            LAMP,
            Status::Exhausted,
            b"; exhausted 0\n",
        ),
        ask(
            "plan FILE --k 2 --search backward",
            NEAR_AND_FAR,
            Status::Reached,
            b"; plan 1\n; ops 2\n(jump)\n; cost = 1000000000000 (general cost)\n; plan 2\n; ops 0 1\n(near)\n(far)\n; cost = 1000000000001 (general cost)\n; reached 2\n",
        ),
        ask(
            "plan FILE --k 3 --search backward",
            NEAR_AND_FAR,
            Status::Exhausted,
            b"; plan 1\n; ops 2\n(jump)\n; cost = 1000000000000 (general cost)\n; plan 2\n; ops 0 1\n(near)\n(far)\n; cost = 1000000000001 (general cost)\n; exhausted 2\n",
        ),
        ask_either(
            "plan FILE --k 2 --search backward",
            TWO_SWITCHES,
            Status::Reached,
            b"; plan 1\n; ops 0 1\n(a-on)\n(b-on)\n; cost = 2 (unit cost)\n; plan 2\n; ops 1 0\n(b-on)\n(a-on)\n; cost = 2 (unit cost)\n; reached 2\n",
            b"; plan 1\n; ops 1 0\n(b-on)\n(a-on)\n; cost = 2 (unit cost)\n; plan 2\n; ops 0 1\n(a-on)\n(b-on)\n; cost = 2 (unit cost)\n; reached 2\n",
        ),
        ask(
            "plan FILE --k 2 --search bidirectional",
            LAMP,
            Status::Exhausted,
            b"; exhausted 0\n",
        ),
        ask(
            "plan FILE --k 2 --mode unordered --search bidirectional",
            LAMP,
            Status::Exhausted,
            b"; exhausted 0\n",
        ),
        ask(
            "plan FILE --k 2 --search bidirectional",
            NEAR_AND_FAR,
            Status::Reached,
            b"; plan 1\n; ops 2\n(jump)\n; cost = 1000000000000 (general cost)\n; plan 2\n; ops 0 1\n(near)\n(far)\n; cost = 1000000000001 (general cost)\n; reached 2\n",
        ),
        ask(
            "plan FILE --k 3 --search bidirectional",
            NEAR_AND_FAR,
            Status::Exhausted,
            b"; plan 1\n; ops 2\n(jump)\n; cost = 1000000000000 (general cost)\n; plan 2\n; ops 0 1\n(near)\n(far)\n; cost = 1000000000001 (general cost)\n; exhausted 2\n",
        ),
        ask_either(
            "plan FILE --k 2 --search bidirectional",
            TWO_SWITCHES,
            Status::Reached,
            b"; plan 1\n; ops 0 1\n(a-on)\n(b-on)\n; cost = 2 (unit cost)\n; plan 2\n; ops 1 0\n(b-on)\n(a-on)\n; cost = 2 (unit cost)\n; reached 2\n",
            b"; plan 1\n; ops 1 0\n(b-on)\n(a-on)\n; cost = 2 (unit cost)\n; plan 2\n; ops 0 1\n(a-on)\n(b-on)\n; cost = 2 (unit cost)\n; reached 2\n",
        ),
        ask(
            "plan FILE --k 2 --mode loopless --search auto",
            LAMP,
            Status::Exhausted,
            b"; exhausted 0\n",
        ),
        ask(
            "plan FILE --k 2 --mode loopless --search backward",
            LAMP,
            Status::Exhausted,
            b"; exhausted 0\n",
        ),
    ];
    holds(&rt, rt.alloc(), &rows)
}

#[test]
fn plans_of_each_mode(rt: HostRuntime) -> Result<(), Fail> {
    let rows = [
        ask(
            "plan FILE --k 3 --mode loopless",
            SWITCH_AND_BACK,
            Status::Exhausted,
            b"; plan 1\n; ops 0\n(switch-on)\n; cost = 1 (unit cost)\n; exhausted 1\n",
        ),
        ask_either(
            "plan FILE --k 5 --mode unordered",
            TWO_SWITCHES,
            Status::Exhausted,
            b"; plan 1\n; ops 0 1\n(a-on)\n(b-on)\n; cost = 2 (unit cost)\n; exhausted 1\n",
            b"; plan 1\n; ops 1 0\n(b-on)\n(a-on)\n; cost = 2 (unit cost)\n; exhausted 1\n",
        ),
        ask(
            "plan FILE --k 3 --mode unordered",
            SWITCH_AND_BACK,
            Status::Reached,
            b"; plan 1\n; ops 0\n(switch-on)\n; cost = 1 (unit cost)\n; plan 2\n; ops 0 1 0\n(switch-on)\n(switch-off)\n(switch-on)\n; cost = 3 (unit cost)\n; plan 3\n; ops 0 1 0 1 0\n(switch-on)\n(switch-off)\n(switch-on)\n(switch-off)\n(switch-on)\n; cost = 5 (unit cost)\n; reached 3\n",
        ),
        ask(
            "plan FILE --k 3 --mode loopless",
            ZERO_COSTS,
            Status::Exhausted,
            b"; plan 1\n; ops 0\n(go)\n; cost = 1 (general cost)\n; exhausted 1\n",
        ),
        ask(
            "plan FILE --k 2 --mode loopless",
            SWAP,
            Status::Exhausted,
            b"; plan 1\n; ops 0\n(swap)\n; cost = 1 (unit cost)\n; exhausted 1\n",
        ),
        ask(
            "plan FILE --k 2 --mode loopless",
            LATER_EFFECT,
            Status::Exhausted,
            b"; exhausted 0\n",
        ),
        ask(
            "plan FILE --k 2 --mode loopless",
            LATER_EFFECT_WINS,
            Status::Exhausted,
            b"; plan 1\n; ops 0\n(two)\n; cost = 1 (unit cost)\n; exhausted 1\n",
        ),
        ask_either(
            "plan FILE --k 3",
            SAME_NAME,
            Status::Exhausted,
            b"; plan 1\n; ops 0\n(go)\n; cost = 1 (unit cost)\n; plan 2\n; ops 1\n(go)\n; cost = 1 (unit cost)\n; exhausted 2\n",
            b"; plan 1\n; ops 1\n(go)\n; cost = 1 (unit cost)\n; plan 2\n; ops 0\n(go)\n; cost = 1 (unit cost)\n; exhausted 2\n",
        ),
        ask_either(
            "plan FILE --k 3 --mode unordered",
            SAME_NAME,
            Status::Exhausted,
            b"; plan 1\n; ops 0\n(go)\n; cost = 1 (unit cost)\n; plan 2\n; ops 1\n(go)\n; cost = 1 (unit cost)\n; exhausted 2\n",
            b"; plan 1\n; ops 1\n(go)\n; cost = 1 (unit cost)\n; plan 2\n; ops 0\n(go)\n; cost = 1 (unit cost)\n; exhausted 2\n",
        ),
        ask(
            "plan FILE --k 1 --mode loopless",
            PAST_64_BITS,
            Status::CostRange,
            b"; cost range\n",
        ),
    ];
    holds(&rt, rt.alloc(), &rows)
}

/// Any three plans with one `go` and any number of `idle` are right, so the list is given back to the check.
#[test]
fn lists_past_idle_steps(rt: HostRuntime) -> Result<(), Fail> {
    for words in ["--k 3", "--k 3 --mode unordered"] {
        let mut plan = String::from_str(rt.alloc(), "plan FILE ")?;
        plan.push_str(words)?;
        let listed = answer(rt.alloc(), &World::of(ZERO_COSTS, b""), plan.as_str())?;
        assert!(&rt; listed.status == Status::Reached);
        let mut check = String::from_str(rt.alloc(), "check FILE PLANS")?;
        check.push_str(words.strip_prefix("--k 3").unwrap_or(""))?;
        let world = World::of(ZERO_COSTS, listed.bytes.as_slice());
        let checked = answer(rt.alloc(), &world, check.as_str())?;
        assert!(&rt; checked.bytes.as_slice() == b"good 3\n".as_slice());
    }
    Ok(())
}

/// The whole answer for a switch that can be turned on alone.
const ONE_PLAN: &[u8] = b"; plan 1\n; ops 0\n(switch-on)\n; cost = 1 (unit cost)\n; exhausted 1\n";

#[test]
fn lists_over_files_and_a_sink_that_cannot_fail(rt: HostRuntime) -> Result<(), Fail> {
    let given = answer_in_memory(rt.alloc(), ONE_SWITCH, "plan FILE --k 3")?;
    assert!(&rt; given.status == Status::Exhausted && given.bytes.as_slice() == ONE_PLAN);
    Ok(())
}
