//! One plan of each class of rearrangements.

use crate::engines::Engine;
use crate::listing::Ending;
use crate::prefix_lists::{Of, Row, are_listed, are_refused};
use lazy_plans::Stop;
use small_tasks::{
    BASE, DERIVED, Draft, EffectDraft, FIRST_0_TO_1, FIRST_0_TO_2, FIRST_1_TO_0, FURTHER,
    OperatorDraft, RuleDraft, SECOND_0_TO_1, THIRD_WHERE_SECOND, THREE,
};
use std::test::Fail;

/// The operator that turns on the first lamp.
const FIRST: OperatorDraft = OperatorDraft {
    name: b"first",
    effects: &[FIRST_0_TO_1],
    cost: 1,
};

/// The operator that turns on the second lamp.
const OTHER: OperatorDraft = OperatorDraft {
    name: b"other",
    effects: &[SECOND_0_TO_1],
    cost: 1,
};

/// Two lamps, the first of which has two switches.
const TWO_FOR_ONE: Draft = Draft {
    metric: 0,
    variables: &[BASE, BASE],
    initial: &[0, 0],
    goal: &[(0, 1), (1, 1)],
    operators: &[
        FIRST,
        OperatorDraft {
            name: b"second",
            effects: &[FIRST_0_TO_1],
            cost: 1,
        },
        OTHER,
    ],
    rules: &[],
};

/// A door that opens; what comes in before, and what after it.
const BEFORE_AND_AFTER: Draft = Draft {
    metric: 0,
    variables: &[BASE, BASE, BASE],
    initial: &[0, 0, 0],
    goal: &[(0, 1), (1, 1), (2, 1)],
    operators: &[
        OperatorDraft {
            name: b"open",
            effects: &[FIRST_0_TO_1],
            cost: 1,
        },
        OperatorDraft {
            name: b"before",
            effects: &[EffectDraft {
                conds: &[(0, 0)],
                var: 1,
                pre: None,
                post: 1,
            }],
            cost: 1,
        },
        OperatorDraft {
            name: b"after",
            effects: &[EffectDraft {
                conds: &[(0, 1)],
                var: 2,
                pre: None,
                post: 1,
            }],
            cost: 1,
        },
    ],
    rules: &[],
};

/// Two lamps, each of which gives light.
const EITHER: Draft = Draft {
    metric: 0,
    variables: &[BASE, BASE, DERIVED],
    initial: &[0, 0, 0],
    goal: &[(2, 1)],
    operators: &[
        FIRST,
        OperatorDraft {
            name: b"second",
            effects: &[SECOND_0_TO_1],
            cost: 1,
        },
    ],
    rules: &[
        RuleDraft {
            conds: &[(0, 1)],
            var: 2,
            new: 1,
        },
        THIRD_WHERE_SECOND,
    ],
};

/// A lamp that goes on and off at no cost, and one that goes on at cost 1.
const ROUND: Draft = Draft {
    metric: 1,
    variables: &[BASE, BASE],
    initial: &[0, 0],
    goal: &[(0, 1), (1, 1)],
    operators: &[
        OperatorDraft {
            name: b"on",
            effects: &[FIRST_0_TO_1],
            cost: 0,
        },
        OperatorDraft {
            name: b"off",
            effects: &[FIRST_1_TO_0],
            cost: 0,
        },
        OTHER,
    ],
    rules: &[],
};

/// A way of cost 5, and one of cost 2^64.
const NEAR_AND_PAST: Draft = Draft {
    metric: 1,
    variables: &[THREE],
    initial: &[0],
    goal: &[(0, 2)],
    operators: &[
        OperatorDraft {
            name: b"near",
            effects: &[FIRST_0_TO_2],
            cost: 5,
        },
        OperatorDraft {
            name: b"far",
            effects: &[FIRST_0_TO_1],
            cost: u64::MAX,
        },
        FURTHER,
    ],
    rules: &[],
};

/// 6 plans of cost 3, and of cost 5 those that turn one switch three times, of each class 5! / 3! = 20.
const ODD_TURNS: [Row; 1] = [Row {
    of: Of::ThreeSwitches,
    most: Some(5),
    count: 9,
    plans: &[
        &[0, 1, 2],
        &[0, 0, 0, 1, 2],
        &[0, 1, 1, 1, 2],
        &[0, 1, 2, 2, 2],
    ],
    costs: &[3, 5, 5, 5],
    ending: Ending::Exhausted,
}];

#[test]
fn each_switch_is_turned_an_odd_number_of_times(rt: HostRuntime) -> Result<(), Fail> {
    assert!(rt; are_listed(rt.alloc(), Engine::Classes, &ODD_TURNS)?);
    Ok(())
}

const TWO_WRITERS: [Row; 1] = [Row {
    of: Of::Drafted(&TWO_FOR_ONE),
    most: None,
    count: 5,
    plans: &[&[0, 2], &[1, 2]],
    costs: &[2, 2],
    ending: Ending::Exhausted,
}];

#[test]
fn two_writers_of_one_variable_are_two_classes(rt: HostRuntime) -> Result<(), Fail> {
    assert!(rt; are_listed(rt.alloc(), Engine::Classes, &TWO_WRITERS)?);
    Ok(())
}

/// Of cost 3 before, open, after alone; of cost 4 one of the two that ask for nothing comes twice.
const IN_ORDER: [Row; 1] = [Row {
    of: Of::Drafted(&BEFORE_AND_AFTER),
    most: Some(4),
    count: 9,
    plans: &[&[0, 1, 2], &[0, 1, 1, 2], &[0, 1, 2, 2]],
    costs: &[3, 4, 4],
    ending: Ending::Exhausted,
}];

#[test]
fn a_condition_that_another_writes_tells_the_order(rt: HostRuntime) -> Result<(), Fail> {
    assert!(rt; are_listed(rt.alloc(), Engine::Classes, &IN_ORDER)?);
    Ok(())
}

/// Each lamp is enough; both orders of the two are plans too, whose first operator is one already.
const TOLD_BY_RULES: [Row; 1] = [Row {
    of: Of::Drafted(&EITHER),
    most: None,
    count: 5,
    plans: &[&[0], &[1], &[0, 1]],
    costs: &[1, 1, 2],
    ending: Ending::Exhausted,
}];

#[test]
fn a_goal_that_rules_tell_is_reached_twice(rt: HostRuntime) -> Result<(), Fail> {
    assert!(rt; are_listed(rt.alloc(), Engine::Classes, &TOLD_BY_RULES)?);
    Ok(())
}

const CIRCLES: [Row; 3] = [
    Row {
        of: Of::ZeroCosts,
        most: None,
        count: 3,
        plans: &[&[0], &[0, 1], &[0, 1, 1]],
        costs: &[1, 1, 1],
        ending: Ending::Reached,
    },
    Row {
        of: Of::Drafted(&ROUND),
        most: None,
        count: 3,
        plans: &[&[0, 2], &[0, 0, 1, 2], &[0, 0, 0, 1, 1, 2]],
        costs: &[1, 1, 1],
        ending: Ending::Reached,
    },
    Row {
        of: Of::Drafted(&ROUND),
        most: Some(0),
        count: 3,
        plans: &[],
        costs: &[],
        ending: Ending::Exhausted,
    },
];

#[test]
fn circles_of_cost_0_come_as_longer_plans(rt: HostRuntime) -> Result<(), Fail> {
    assert!(rt; are_listed(rt.alloc(), Engine::Classes, &CIRCLES)?);
    Ok(())
}

const OUT_OF_RANGE: Row = Row {
    of: Of::Past64Bits,
    most: None,
    count: 3,
    plans: &[],
    costs: &[],
    ending: Ending::Stopped(Stop::CostRange),
};

const NEAR_ALONE: [Row; 2] = [
    Row {
        of: Of::Drafted(&NEAR_AND_PAST),
        most: None,
        count: 3,
        plans: &[&[0]],
        costs: &[5],
        ending: Ending::Stopped(Stop::CostRange),
    },
    Row {
        of: Of::Drafted(&NEAR_AND_PAST),
        most: Some(u64::MAX),
        count: 3,
        plans: &[&[0]],
        costs: &[5],
        ending: Ending::Exhausted,
    },
];

#[test]
fn the_range_of_costs_ends_a_list(rt: HostRuntime) -> Result<(), Fail> {
    assert!(rt; are_listed(rt.alloc(), Engine::Classes, &[OUT_OF_RANGE])?);
    assert!(rt; are_listed(rt.alloc(), Engine::Classes, &NEAR_ALONE)?);
    Ok(())
}

const BOUNDED: [Row; 1] = [Row {
    of: Of::SwitchAndBack,
    most: Some(4),
    count: 9,
    plans: &[&[0], &[0, 0, 1]],
    costs: &[1, 3],
    ending: Ending::Exhausted,
}];

#[test]
fn a_greatest_cost_ends_a_list(rt: HostRuntime) -> Result<(), Fail> {
    assert!(rt; are_listed(rt.alloc(), Engine::Classes, &BOUNDED)?);
    Ok(())
}

/// No plan, and one that is empty.
const ENDS: [Row; 3] = [
    Row {
        of: Of::NoPlan,
        most: None,
        count: 3,
        plans: &[],
        costs: &[],
        ending: Ending::Exhausted,
    },
    Row {
        of: Of::NoOperator,
        most: None,
        count: 3,
        plans: &[],
        costs: &[],
        ending: Ending::Exhausted,
    },
    Row {
        of: Of::GoalAtStart,
        most: None,
        count: 3,
        plans: &[&[]],
        costs: &[0],
        ending: Ending::Exhausted,
    },
];

#[test]
fn lists_end_where_no_plan_is(rt: HostRuntime) -> Result<(), Fail> {
    assert!(rt; are_listed(rt.alloc(), Engine::Classes, &ENDS)?);
    Ok(())
}

const LAMPS: [Row; 1] = [Row {
    of: Of::Axioms,
    most: None,
    count: 5,
    plans: &[&[0], &[0, 1]],
    costs: &[1, 2],
    ending: Ending::Exhausted,
}];

#[test]
fn each_call_of_the_space_is_refused_once(rt: HostRuntime) -> Result<(), Fail> {
    assert!(rt; are_refused(rt.alloc(), Engine::Classes, &LAMPS)?);
    assert!(rt; are_refused(rt.alloc(), Engine::Classes, &[OUT_OF_RANGE])?);
    Ok(())
}
