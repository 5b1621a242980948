//! Worked rows of orders of variables.

ghost use Rattle.std.specs.Prelude.{◌≡◌, IfSome};
ghost use Rattle.var_order.specs.Layout.{width_of};

use small_tasks::{
    BASE, DERIVED, Draft, FIRST_0_TO_1, FIRST_1_TO_2, OperatorDraft, RuleDraft, SECOND_WHERE_FIRST,
    THREE, VariableDraft, drafted,
};
use std::alloc::Global;
use std::process::Abort;
use std::test::Fail;
use symk_task::{Memory, State};
use var_order::Order;

/// A base variable of one value.
pub const ONE: VariableDraft = VariableDraft {
    layer: None,
    values: 1,
};

/// A base variable of five values.
const FIVE: VariableDraft = VariableDraft {
    layer: None,
    values: 5,
};

/// Two operators lead along a variable of three values, and rules raise a derived one, the goal, at all but the first.
pub const LINE: Draft = Draft {
    metric: 0,
    variables: &[THREE, DERIVED],
    initial: &[0, 0],
    goal: &[(1, 1)],
    operators: &[
        OperatorDraft {
            name: b"m1",
            effects: &[FIRST_0_TO_1],
            cost: 1,
        },
        OperatorDraft {
            name: b"m2",
            effects: &[FIRST_1_TO_2],
            cost: 1,
        },
    ],
    rules: &[
        SECOND_WHERE_FIRST,
        RuleDraft {
            conds: &[(0, 2)],
            var: 1,
            new: 1,
        },
    ],
};

/// The order of the variables of the draft's task.
pub fn order_in(rt: &impl Abort, alloc: Global, draft: &Draft<'_>) -> Result<Order, Memory> {
    let task = drafted(alloc, draft)?.expect(rt, "the draft fits");
    Order::of(alloc, &task)
}

/// The order of the variables of a task that are 0 at first, with nothing to do.
pub fn order_of(
    rt: &impl Abort,
    alloc: Global,
    variables: &[VariableDraft],
    initial: &[u32],
) -> Result<Order, Memory> {
    let draft = Draft {
        metric: 1,
        variables,
        initial,
        goal: &[],
        operators: &[],
        rules: &[],
    };
    order_in(rt, alloc, &draft)
}

/// How many bits the variable has, if it is a base variable.
fn width(order: &Order, var: u32) -> Option<u32>
    ensures { IfSome result (λ width. width ≡ width_of order.now var) }
{
    if order.slot(var).is_some() {
        Some(order.width(var))
    } else {
        None
    }
}

/// The place of a variable's bit, and the levels of the place.
fn place(order: &Order, var: u32, bit: u32) -> Option<(u32, u32, u32)> {
    if bit >= width(order, var)? {
        return None;
    }
    let place = order.place(var, bit);
    Some((place, order.level_now(place), order.level_next(place)))
}

/// The bit at the place, if the list is a state of the order and there is such a place.
fn bit_of(order: &Order, state: &State, place: u32) -> Option<bool> {
    if order.is_state(state) && place < order.bits() {
        Some(order.bit(state, place))
    } else {
        None
    }
}

fn check_three(rt: &impl Abort, order: &Order) {
    assert_eq!(rt; order.bits(), 2);
    assert_eq!(rt; width(order, 0), Some(2));
    assert_eq!(rt; place(order, 0, 1), Some((1, 2, 3)));
}

#[test]
fn a_variable_of_three_values_and_a_derived_one(rt: HostRuntime) -> Result<(), Fail> {
    let order = order_in(&rt, rt.alloc(), &LINE)?;
    check_three(&rt, &order);
    Ok(())
}

fn check_many(rt: &impl Abort, order: &Order) {
    assert_eq!(rt; order.bits(), 4);
    assert_eq!(rt; width(order, 0), Some(0));
    assert_eq!(rt; width(order, 1), Some(3));
    assert_eq!(rt; width(order, 2), None);
    assert_eq!(rt; width(order, 4), Some(1));
    assert_eq!(rt; place(order, 4, 0), Some((3, 6, 7)));
    assert_eq!(rt; place(order, 1, 2), Some((2, 4, 5)));
    assert_eq!(rt; order.slot(4), Some(3));
    assert_eq!(rt; order.blocks().len(), 4);
}

#[test]
fn variables_of_one_value_and_derived_ones(rt: HostRuntime) -> Result<(), Fail> {
    let variables = [ONE, FIVE, DERIVED, ONE, BASE];
    let order = order_of(&rt, rt.alloc(), &variables, &[0, 0, 0, 0, 0])?;
    check_many(&rt, &order);
    Ok(())
}

fn check_bits(rt: &impl Abort, alloc: Global, order: &Order) -> Result<(), Memory> {
    let state = State::of([4, 1].to_vec(alloc)?);
    for (place, bit) in [(0, true), (1, false), (2, false), (3, true)] {
        assert_eq!(rt; bit_of(order, &state, place), Some(bit));
    }
    Ok(())
}

#[test]
fn bits_of_a_state(rt: HostRuntime) -> Result<(), Fail> {
    let variables = [FIVE, DERIVED, BASE];
    let order = order_of(&rt, rt.alloc(), &variables, &[0, 0, 0])?;
    check_bits(&rt, rt.alloc(), &order)?;
    Ok(())
}
