//! Worked rows, over each space and with each choice, and drawn tasks.

mod refusals;

ghost use Rattle.std.specs.Prelude.{◌≤◌};

use crate::plans::{PlanCut, plan_cuts_of};
use crate::telling::{
    Costs, Cutting, Settled, cuts_once_settled, list_answers, list_costs, list_costs_again,
    list_cuts,
};
use bdd_space::BddSpace;
use bidirectional::{Choice, Cut, Lighter, Next};
use explicit_space::ExplicitSpace;
use small_tasks::{
    near_and_far, no_plan, one_switch, past_64_bits, same_name_twice, switch_and_back,
    two_switches, zero_costs,
};
use space_api::{Space, SpaceFault};
use std::alloc::Global;
use std::test::Fail;
use symk_task::{Memory, Task};
use task_draws::random_task;

/// Each choice of the side that goes on.
const CHOICES: [Choice; 4] = [
    Choice::Forward,
    Choice::Backward,
    Choice::Lower,
    Choice::Lighter(Lighter { ahead: 0, back: 0 }),
];

/// Settles and lists over the space.
fn settled_over<S: Space + Drop>(
    alloc: Global,
    space: S,
    choose: Choice,
    most: u64,
    cost: u64,
) -> Result<Settled, SpaceFault>
    requires { cost ≤ most }
{
    let mut space = space;
    cuts_once_settled(alloc, &mut space, choose, most, cost)
}

/// Settles and lists over the space of ordered sets, or over that of diagrams; the cost is at most the greatest one.
fn settles(
    alloc: Global,
    diagrams: bool,
    task: &Task,
    choose: Choice,
    most: u64,
    cost: u64,
) -> Result<Settled, SpaceFault> {
    let cost = cost.min(most);
    if diagrams {
        settled_over(alloc, BddSpace::of(alloc, task)?, choose, most, cost)
    } else {
        settled_over(alloc, ExplicitSpace::of(alloc, task)?, choose, most, cost)
    }
}

/// Lists the costs of plans over the space.
fn costs_over<S: Space + Drop>(
    alloc: Global,
    space: S,
    choose: Choice,
    most: u64,
) -> Result<Costs, SpaceFault> {
    let mut space = space;
    list_costs(alloc, &mut space, choose, most)
}

/// Lists the costs of plans over either space.
fn costs_in(
    alloc: Global,
    diagrams: bool,
    task: &Task,
    choose: Choice,
    most: u64,
) -> Result<Costs, SpaceFault> {
    if diagrams {
        costs_over(alloc, BddSpace::of(alloc, task)?, choose, most)
    } else {
        costs_over(alloc, ExplicitSpace::of(alloc, task)?, choose, most)
    }
}

/// Lists the costs of plans over the space, by sides that begin again after so much work.
fn again_over<S: Space + Drop>(
    alloc: Global,
    space: S,
    choose: Choice,
    most: u64,
    work: u64,
) -> Result<Vec<u64>, SpaceFault> {
    let mut space = space;
    list_costs_again(alloc, &mut space, choose, most, work)
}

/// The same over either space.
fn again_in(
    alloc: Global,
    diagrams: bool,
    task: &Task,
    choose: Choice,
    most: u64,
    work: u64,
) -> Result<Vec<u64>, SpaceFault> {
    if diagrams {
        again_over(alloc, BddSpace::of(alloc, task)?, choose, most, work)
    } else {
        again_over(alloc, ExplicitSpace::of(alloc, task)?, choose, most, work)
    }
}

/// A row: a task, a choice, what is settled, the cost that is cut, and its cuts in order.
#[derive(Clone, Copy)]
struct Row {
    task: u32,
    choose: Choice,
    most: u64,
    cost: u64,
    first: Option<Cut>,
    second: Option<Cut>,
}

/// The tasks of the rows.
fn task_of(alloc: Global, number: u32) -> Result<Task, Memory> {
    match number {
        0 => switch_and_back(alloc),
        1 => two_switches(alloc),
        2 => same_name_twice(alloc),
        3 => one_switch(alloc),
        4 => zero_costs(alloc),
        5 => near_and_far(alloc),
        6 => past_64_bits(alloc),
        _ => no_plan(alloc),
    }
}

fn begun_row(task: u32, choose: Choice, most: u64, cost: u64) -> Row {
    Row {
        task,
        choose,
        most,
        cost,
        first: None,
        second: None,
    }
}

impl Row {
    /// The row with one cut more.
    fn whole(mut self) -> Row {
        self.first = Some(Cut::Whole);
        self
    }

    /// The row with one cut more.
    fn cross(mut self, x: u64, op: u32, y: u64) -> Row {
        if self.first.is_none() {
            self.first = Some(Cut::Cross { x, op, y });
        } else {
            self.second = Some(Cut::Cross { x, op, y });
        }
        self
    }
}

/// Whether these are the cuts of the row.
fn are_cuts(row: Row, cuts: &[Cut]) -> bool {
    match cuts {
        [] => row.first.is_none(),
        [one] => row.first == Some(*one) && row.second.is_none(),
        [one, other] => row.first == Some(*one) && row.second == Some(*other),
        _ => false,
    }
}

/// Whether the row is met over the space.
fn is_met_over(alloc: Global, diagrams: bool, row: Row) -> Result<bool, Memory> {
    let task = task_of(alloc, row.task)?;
    let found = settles(alloc, diagrams, &task, row.choose, row.most, row.cost)?;
    Ok(are_cuts(row, &found.first) && are_cuts(row, &found.all))
}

/// Whether the row is met over each space.
fn is_met(alloc: Global, row: Row) -> Result<bool, Memory> {
    Ok(is_met_over(alloc, false, row)? && is_met_over(alloc, true, row)?)
}

/// Rows of the switch, once costs up to 5 are settled.
fn switch_rows() -> [Row; 8] {
    [
        begun_row(0, Choice::Backward, 5, 3).whole(),
        begun_row(0, Choice::Backward, 5, 4),
        begun_row(0, Choice::Backward, 5, 5).cross(0, 0, 4),
        begun_row(0, Choice::Forward, 5, 4),
        begun_row(0, Choice::Forward, 5, 5).cross(4, 0, 0),
        begun_row(0, Choice::Lower, 5, 3).cross(0, 0, 2),
        begun_row(0, Choice::Lower, 5, 4),
        begun_row(0, Choice::Lower, 5, 5).cross(2, 0, 2),
    ]
}

/// Rows of tasks where several operators cross, where one does, and where a plan is dear.
fn crossing_rows() -> [Row; 8] {
    [
        begun_row(1, Choice::Backward, 5, 2).whole(),
        begun_row(1, Choice::Backward, 2, 2)
            .cross(0, 0, 1)
            .cross(0, 1, 1),
        begun_row(1, Choice::Forward, 5, 2)
            .cross(1, 0, 0)
            .cross(1, 1, 0),
        begun_row(1, Choice::Lower, 2, 2)
            .cross(1, 0, 0)
            .cross(1, 1, 0),
        begun_row(2, Choice::Forward, 1, 1)
            .cross(0, 0, 0)
            .cross(0, 1, 0),
        begun_row(3, Choice::Forward, 1, 1).cross(0, 0, 0),
        begun_row(4, Choice::Forward, 1, 1).cross(0, 0, 0),
        begun_row(5, Choice::Forward, FAR + 1, FAR + 1).cross(1, 1, 0),
    ]
}

const FAR: u64 = 1_000_000_000_000;

#[test]
fn cuts_are_those_of_the_rows(rt: HostRuntime) -> Result<(), Fail> {
    for row in switch_rows() {
        assert!(rt; is_met(rt.alloc(), row)?, "cost {}", row.cost);
    }
    for row in crossing_rows() {
        assert!(rt; is_met(rt.alloc(), row)?, "task {}", row.task);
    }
    Ok(())
}

/// What both sides know of the switch once costs up to 5 are settled.
fn known(alloc: Global, diagrams: bool, choose: Choice) -> Result<(u128, u128), Memory> {
    let task = switch_and_back(alloc)?;
    let found = settles(alloc, diagrams, &task, choose, 5, 5)?;
    Ok((found.f, found.b))
}

#[test]
fn the_chosen_side_goes_on(rt: HostRuntime) -> Result<(), Fail> {
    for diagrams in [false, true] {
        for (choose, want) in [
            (Choice::Backward, (1, 5)),
            (Choice::Forward, (5, 1)),
            (Choice::Lower, (3, 3)),
        ] {
            assert_eq!(rt; known(rt.alloc(), diagrams, choose)?, want, "{choose:?}");
        }
    }
    Ok(())
}

/// What comes after each cost of a plan over the space, at most so many answers.
fn answers_over<S: Space + Drop>(
    alloc: Global,
    space: S,
    choose: Choice,
    count: u32,
) -> Result<Vec<Next>, SpaceFault> {
    let mut space = space;
    list_answers(alloc, &mut space, choose, count)
}

/// What comes after each cost of a plan over either space, at most so many answers.
fn answers_in(
    alloc: Global,
    diagrams: bool,
    task: &Task,
    choose: Choice,
    count: u32,
) -> Result<Vec<Next>, SpaceFault> {
    if diagrams {
        answers_over(alloc, BddSpace::of(alloc, task)?, choose, count)
    } else {
        answers_over(alloc, ExplicitSpace::of(alloc, task)?, choose, count)
    }
}

/// Whether these are the first three answers, or all, over each space.
fn both_answer(
    alloc: Global,
    task: &Task,
    choose: Choice,
    want: &[Next],
) -> Result<bool, SpaceFault> {
    let by_states = answers_in(alloc, false, task, choose, 3)?;
    let by_diagrams = answers_in(alloc, true, task, choose, 3)?;
    Ok(by_states.as_slice() == want && by_diagrams.as_slice() == want)
}

/// The same with each choice.
fn all_answer(alloc: Global, task: &Task, want: &[Next]) -> Result<bool, SpaceFault> {
    for choose in CHOICES {
        if !both_answer(alloc, task, choose, want)? {
            return Ok(false);
        }
    }
    Ok(true)
}

/// The same of the task of this number.
fn answers_are(alloc: Global, task: u32, want: &[Next]) -> Result<bool, Memory> {
    let task = task_of(alloc, task)?;
    all_answer(alloc, &task, want)
}

#[test]
fn each_cost_of_a_plan_follows_the_one_before(rt: HostRuntime) -> Result<(), Fail> {
    let alloc = rt.alloc();
    let far = [
        Next::Plans { cost: FAR },
        Next::Plans { cost: FAR + 1 },
        Next::Never,
    ];
    assert!(rt; answers_are(alloc, 5, &far)?);
    assert!(rt; answers_are(alloc, 6, &[Next::Beyond])?);
    let odd = [
        Next::Plans { cost: 1 },
        Next::Plans { cost: 3 },
        Next::Plans { cost: 5 },
    ];
    assert!(rt; answers_are(alloc, 0, &odd)?);
    Ok(())
}

/// A row: a task, the greatest cost, the first and the last cost of a plan up to it, how many there are, and
/// what comes then.
#[derive(Clone, Copy)]
struct CostRow {
    task: u32,
    most: u64,
    first: Option<u64>,
    last: Option<u64>,
    count: usize,
    next: Next,
}

/// Whether the row is met over the space with the choice, and no layer is above the greatest cost; and whether sides
/// that begin again at once, or never, name the same costs.
fn costs_are_met(
    alloc: Global,
    diagrams: bool,
    choose: Choice,
    row: CostRow,
) -> Result<bool, Memory> {
    let task = task_of(alloc, row.task)?;
    let found = costs_in(alloc, diagrams, &task, choose, row.most)?;
    let at_once = again_in(alloc, diagrams, &task, choose, row.most, 0)?;
    let never = again_in(alloc, diagrams, &task, choose, row.most, u64::MAX)?;
    Ok(
        at_once == found.within
            && never == found.within
            && found.within.first().copied() == row.first
            && found.within.last().copied() == row.last
            && found.within.len() == row.count
            && found.above.is_none()
            && found.next == row.next,
    )
}

/// Whether the row is met over each space with each choice.
fn costs_are_met_by_all(alloc: Global, row: CostRow) -> Result<bool, Memory> {
    for choose in CHOICES {
        let sets = costs_are_met(alloc, false, choose, row)?;
        let diagrams = costs_are_met(alloc, true, choose, row)?;
        if !sets || !diagrams {
            return Ok(false);
        }
    }
    Ok(true)
}

fn cost_row(
    task: u32,
    most: u64,
    costs: (Option<u64>, Option<u64>),
    count: usize,
    next: Next,
) -> CostRow {
    CostRow {
        task,
        most,
        first: costs.0,
        last: costs.1,
        count,
        next,
    }
}

/// Rows of costs.
fn cost_rows() -> [CostRow; 7] {
    [
        cost_row(0, 6, (Some(1), Some(5)), 3, Next::Plans { cost: 7 }),
        cost_row(1, 2, (Some(2), Some(2)), 1, Next::Never),
        cost_row(3, 1, (Some(1), Some(1)), 1, Next::Never),
        cost_row(4, 1, (Some(1), Some(1)), 1, Next::Never),
        cost_row(5, FAR + 1, (Some(FAR), Some(FAR + 1)), 2, Next::Never),
        cost_row(6, u64::MAX, (None, None), 0, Next::Beyond),
        cost_row(7, 3, (None, None), 0, Next::Never),
    ]
}

#[test]
fn the_costs_of_plans_come_rising_and_their_end_is_told(rt: HostRuntime) -> Result<(), Fail> {
    for row in cost_rows() {
        assert!(rt; costs_are_met_by_all(rt.alloc(), row)?, "task {}", row.task);
    }
    Ok(())
}

/// Whether the first cut stands before the second: by cost; then whole plans first, then by the cost that is
/// left, then by the operator.
fn stands_before(first: PlanCut, second: PlanCut) -> bool {
    if first.cost != second.cost {
        return first.cost < second.cost;
    }
    match (first.cut, second.cut) {
        (_, Cut::Whole) => false,
        (Cut::Whole, _) => true,
        (Cut::Cross { x: _, op, y }, Cut::Cross { x: _, op: k, y: z }) => {
            y < z || (y == z && op < k)
        }
    }
}

/// Whether the cuts are those of the listed plans, in order.
fn are_those(listed: &[PlanCut], cuts: &[PlanCut]) -> bool {
    let mut after = None;
    for cut in cuts {
        if !listed.contains(cut) {
            return false;
        }
        if let Some(before) = after {
            if !stands_before(before, *cut) {
                return false;
            }
        }
        after = Some(*cut);
    }
    listed.len() == cuts.len()
}

/// Settles a cost and lists the cuts of each up to it, over the space.
fn cuts_over<S: Space + Drop>(
    alloc: Global,
    space: S,
    choose: Choice,
    most: u64,
) -> Result<Cutting, SpaceFault> {
    let mut space = space;
    list_cuts(alloc, &mut space, choose, most)
}

/// Settles a cost and lists the cuts of each up to it, over either space.
fn cuts_in(
    alloc: Global,
    diagrams: bool,
    task: &Task,
    choose: Choice,
    most: u64,
) -> Result<Cutting, SpaceFault> {
    if diagrams {
        cuts_over(alloc, BddSpace::of(alloc, task)?, choose, most)
    } else {
        cuts_over(alloc, ExplicitSpace::of(alloc, task)?, choose, most)
    }
}

/// Whether cuts agree with listed plans, and how many were compared.
#[derive(Clone, Copy)]
struct Compared {
    agree: bool,
    cuts: usize,
}

/// Whether the cuts of the costs up to 4 are those of listed plans; None where there are too many plans to list.
fn compare(
    alloc: Global,
    diagrams: bool,
    task: &Task,
    choose: Choice,
) -> Result<Option<Compared>, Memory> {
    let found = cuts_in(alloc, diagrams, task, choose, 4)?;
    let Some(listed) = plan_cuts_of(alloc, task, found.b, 4)? else {
        return Ok(None);
    };
    Ok(Some(Compared {
        agree: are_those(&listed, &found.cuts),
        cuts: listed.len(),
    }))
}

/// The same of the task that the seed draws, over a space and with a choice by the seed; None also where it draws none.
fn compare_drawn(alloc: Global, seed: u64) -> Result<Option<Compared>, Memory> {
    match random_task(alloc, seed)? {
        Some(task) => {
            let choose = CHOICES[(seed / 2 % 4) as usize];
            compare(alloc, seed % 2 == 0, &task, choose)
        }
        None => Ok(None),
    }
}

#[test]
fn the_cuts_of_drawn_tasks_are_those_of_their_plans(rt: HostRuntime) -> Result<(), Fail> {
    let mut tried = 0_u32;
    let mut cuts = 0_usize;
    for seed in 0..1000 {
        if tried == 200 {
            break;
        }
        if let Some(found) = compare_drawn(rt.alloc(), seed)? {
            assert!(rt; found.agree, "seed {seed}");
            tried = tried.saturating_add(1);
            cuts = cuts.saturating_add(found.cuts);
        }
    }
    assert_eq!(rt; tried, 200);
    assert!(rt; cuts >= 200, "{cuts} cuts");
    Ok(())
}
