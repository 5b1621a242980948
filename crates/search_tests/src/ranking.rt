//! The ranks of what is left to the goal, by a search from both ends.

ghost use Rattle.std.specs.Prelude.{IfOk};
ghost use Rattle.cost_to_go.specs.Standing.{IsCostToGo};

use bdd_space::BddSpace;
use cost_to_go::{CostToGo, Rank};
use explicit_space::ExplicitSpace;
use small_tasks::{past_64_bits, two_switches, zero_costs};
use space_api::{Space, SpaceFault, start};
use std::alloc::Global;
use std::process::Abort;
use std::test::Fail;
use symk_task::Task;

/// What is known of the initial state each time that one set more has a rank, and once nothing waits: the last row is that
/// one. No plan is cheaper than `plan`, where there is one.
#[derive(Clone, Copy)]
struct Rows<'a> {
    starts: &'a [Option<Rank>],
    plan: Option<u64>,
    is_beyond: bool,
}

/// Nothing has a rank, and each state may have one.
fn begin<S: Space>(alloc: Global, space: &mut S) -> Result<CostToGo<S::Set>, SpaceFault>
    ensures { IfOk result (IsCostToGo (S.view space.new)) }
{
    let all = space.all()?;
    CostToGo::new(alloc, space, all)
}

/// Steps until one set more has a rank, or nothing waits.
fn rank_more<S: Space>(
    alloc: Global,
    space: &mut S,
    search: &mut CostToGo<S::Set>,
) -> Result<(), SpaceFault>
    requires { IsCostToGo (S.view space.old) search.old }
    ensures { IsCostToGo (S.view space.new) search.new }
{
    let ranks = search.ranks();
    'steps: for _ in 0..100 {
        if search.ranks() > ranks || search.next().is_none() {
            return Ok(());
        }
        search.go_on(alloc, space)?;
    }
    Ok(())
}

/// The rank of the initial state, if it has one.
fn rank_of_start<S: Space>(
    alloc: Global,
    space: &S,
    search: &CostToGo<S::Set>,
) -> Result<Option<Rank>, SpaceFault>
    requires { IsCostToGo (S.view space.now) search.now }
{
    let state = start(alloc, space)?;
    let first = Rank { cost: 0, number: 0 };
    Ok(search.rank_from(space, &state, first))
}

/// Whether no key of what waits is above the cost of the cheapest plan, while the initial state has no rank.
fn is_below(search_next: Option<u128>, start: Option<Rank>, plan: Option<u64>) -> bool {
    match (search_next, start, plan) {
        (Some(next), None, Some(plan)) => next <= plan as u128,
        (None, None, Some(_)) => false,
        (_, _, _) => true,
    }
}

/// Goes on row by row.
fn go_by<S: Space>(
    rt: &impl Abort,
    alloc: Global,
    space: &mut S,
    search: &mut CostToGo<S::Set>,
    rows: Rows<'_>,
) -> Result<(), SpaceFault>
    requires { IsCostToGo (S.view space.old) search.old }
    ensures { IsCostToGo (S.view space.new) search.new }
{
    'rows: for row in rows.starts {
        rank_more(alloc, space, search)?;
        let found = rank_of_start(alloc, space, search)?;
        assert!(rt; found == *row);
        assert!(rt; is_below(search.next(), found, rows.plan));
    }
    Ok(())
}

fn has_rows<S: Space + Drop>(
    rt: &impl Abort,
    alloc: Global,
    space: S,
    rows: Rows<'_>,
) -> Result<(), SpaceFault> {
    let mut space = space;
    let mut search = begin(alloc, &mut space)?;
    assert!(rt; search.next() == Some(0));
    go_by(rt, alloc, &mut space, &mut search, rows)?;
    assert!(rt; search.next().is_none());
    assert_eq!(rt; search.beyond(), rows.is_beyond);
    let ranks = rows.starts.len().saturating_sub(1);
    assert_eq!(rt; search.ranks(), ranks);
    Ok(())
}

fn both_have_rows(
    rt: &impl Abort,
    alloc: Global,
    task: &Task,
    rows: Rows<'_>,
) -> Result<(), SpaceFault> {
    has_rows(rt, alloc, ExplicitSpace::of(alloc, task)?, rows)?;
    has_rows(rt, alloc, BddSpace::of(alloc, task)?, rows)
}

#[test]
fn states_of_one_cost_have_one_rank(rt: HostRuntime) -> Result<(), Fail> {
    let task = two_switches(rt.alloc())?;
    // One switch is left, then both are: two states at cost 1, and the initial one at cost 2.
    let last = Some(Rank { cost: 2, number: 2 });
    let rows = Rows {
        starts: &[None, None, last, last],
        plan: Some(2),
        is_beyond: false,
    };
    both_have_rows(&rt, rt.alloc(), &task, rows)?;
    Ok(())
}

#[test]
fn an_operator_of_cost_0_that_changes_nothing_gives_no_rank(rt: HostRuntime) -> Result<(), Fail> {
    let task = zero_costs(rt.alloc())?;
    let last = Some(Rank { cost: 1, number: 1 });
    let rows = Rows {
        starts: &[None, last, last],
        plan: Some(1),
        is_beyond: false,
    };
    both_have_rows(&rt, rt.alloc(), &task, rows)?;
    Ok(())
}

#[test]
fn a_state_whose_cost_is_past_64_bits_has_no_rank(rt: HostRuntime) -> Result<(), Fail> {
    let task = past_64_bits(rt.alloc())?;
    // The state before the goal has cost 1, and the initial one 2^64.
    let rows = Rows {
        starts: &[None, None, None],
        plan: None,
        is_beyond: true,
    };
    both_have_rows(&rt, rt.alloc(), &task, rows)?;
    Ok(())
}
