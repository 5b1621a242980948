//! All plans.

use crate::engines::Engine;
use crate::listing::Ending;
use crate::prefix_lists::{Of, Row, are_listed, are_refused};
use lazy_plans::Stop;
use small_tasks::{Draft, FIRST_0_TO_1, FIRST_1_TO_0, FIRST_1_TO_2, OperatorDraft, THREE};
use std::test::Fail;

/// A place that is left at cost 1 and come back to at cost 2, and a far way on to the goal.
const WIDE: Draft = Draft {
    metric: 1,
    variables: &[THREE],
    initial: &[0],
    goal: &[(0, 2)],
    operators: &[
        OperatorDraft {
            name: b"leave",
            effects: &[FIRST_0_TO_1],
            cost: 1,
        },
        OperatorDraft {
            name: b"come back",
            effects: &[FIRST_1_TO_0],
            cost: 2,
        },
        OperatorDraft {
            name: b"go far",
            effects: &[FIRST_1_TO_2],
            cost: 1_000_000_000_000,
        },
    ],
    rules: &[],
};

const CIRCLES: [Row; 1] = [Row {
    of: Of::ZeroCosts,
    most: None,
    count: 3,
    plans: &[&[0], &[0, 1], &[0, 1, 1]],
    costs: &[1, 1, 1],
    ending: Ending::Reached,
}];

#[test]
fn circles_of_cost_0_come_as_longer_plans(rt: HostRuntime) -> Result<(), Fail> {
    assert!(rt; are_listed(rt.alloc(), Engine::Prefixes, &CIRCLES)?);
    Ok(())
}

const COMING_BACK: [Row; 1] = [Row {
    of: Of::SwitchAndBack,
    most: None,
    count: 3,
    plans: &[&[0], &[0, 1, 0], &[0, 1, 0, 1, 0]],
    costs: &[1, 3, 5],
    ending: Ending::Reached,
}];

#[test]
fn plans_that_come_back_are_listed(rt: HostRuntime) -> Result<(), Fail> {
    assert!(rt; are_listed(rt.alloc(), Engine::Prefixes, &COMING_BACK)?);
    Ok(())
}

const BOTH_ORDERS: [Row; 1] = [Row {
    of: Of::TwoSwitches,
    most: None,
    count: 5,
    plans: &[&[1, 0], &[0, 1]],
    costs: &[2, 2],
    ending: Ending::Exhausted,
}];

#[test]
fn both_orders_are_listed(rt: HostRuntime) -> Result<(), Fail> {
    assert!(rt; are_listed(rt.alloc(), Engine::Prefixes, &BOTH_ORDERS)?);
    Ok(())
}

const FAR_APART: [Row; 2] = [
    Row {
        of: Of::NearAndFar,
        most: None,
        count: 5,
        plans: &[&[2], &[0, 1]],
        costs: &[1_000_000_000_000, 1_000_000_000_001],
        ending: Ending::Exhausted,
    },
    Row {
        of: Of::Drafted(&WIDE),
        most: None,
        count: 3,
        plans: &[&[0, 2], &[0, 1, 0, 2], &[0, 1, 0, 1, 0, 2]],
        costs: &[1_000_000_000_001, 1_000_000_000_004, 1_000_000_000_007],
        ending: Ending::Reached,
    },
];

#[test]
fn costs_may_be_far_apart(rt: HostRuntime) -> Result<(), Fail> {
    assert!(rt; are_listed(rt.alloc(), Engine::Prefixes, &FAR_APART)?);
    Ok(())
}

/// No plan, and one that is empty.
const ENDS: [Row; 3] = [
    Row {
        of: Of::NoPlan,
        most: None,
        count: 3,
        plans: &[],
        costs: &[],
        ending: Ending::Exhausted,
    },
    Row {
        of: Of::NoOperator,
        most: None,
        count: 3,
        plans: &[],
        costs: &[],
        ending: Ending::Exhausted,
    },
    Row {
        of: Of::GoalAtStart,
        most: None,
        count: 3,
        plans: &[&[]],
        costs: &[0],
        ending: Ending::Exhausted,
    },
];

#[test]
fn lists_end_where_no_plan_is(rt: HostRuntime) -> Result<(), Fail> {
    assert!(rt; are_listed(rt.alloc(), Engine::Prefixes, &ENDS)?);
    Ok(())
}

const OUT_OF_RANGE: Row = Row {
    of: Of::Past64Bits,
    most: None,
    count: 3,
    plans: &[],
    costs: &[],
    ending: Ending::Stopped(Stop::CostRange),
};

const IN_RANGE: Row = Row {
    of: Of::Past64Bits,
    most: Some(u64::MAX),
    count: 3,
    plans: &[],
    costs: &[],
    ending: Ending::Exhausted,
};

#[test]
fn the_range_of_costs_ends_a_list(rt: HostRuntime) -> Result<(), Fail> {
    assert!(rt; are_listed(rt.alloc(), Engine::Prefixes, &[OUT_OF_RANGE, IN_RANGE])?);
    Ok(())
}

const BOUNDED: [Row; 2] = [
    Row {
        of: Of::SwitchAndBack,
        most: Some(4),
        count: 9,
        plans: &[&[0], &[0, 1, 0]],
        costs: &[1, 3],
        ending: Ending::Exhausted,
    },
    Row {
        of: Of::ZeroCosts,
        most: Some(0),
        count: 9,
        plans: &[],
        costs: &[],
        ending: Ending::Exhausted,
    },
];

#[test]
fn a_greatest_cost_ends_a_list(rt: HostRuntime) -> Result<(), Fail> {
    assert!(rt; are_listed(rt.alloc(), Engine::Prefixes, &BOUNDED)?);
    Ok(())
}

#[test]
fn each_call_of_the_space_is_refused_once(rt: HostRuntime) -> Result<(), Fail> {
    assert!(rt; are_refused(rt.alloc(), Engine::Prefixes, &BOTH_ORDERS)?);
    assert!(rt; are_refused(rt.alloc(), Engine::Prefixes, &[OUT_OF_RANGE])?);
    Ok(())
}
