//! What a search from both ends tells.

ghost use Rattle.std.specs.Prelude.{◌≤◌};
ghost use Rattle.bidirectional.specs.Both.{IsBoth, BothGoOn};

use crate::listing::{all_cuts, cuts_up_to, first_cuts};
use crate::plans::PlanCut;
use bidirectional::{Both, Choose, Cut, Next, Within};
use space_api::{Space, SpaceFault};
use std::alloc::Global;

/// What is known once costs are settled, and the cuts of one of them.
#[derive(Debug, Drop)]
pub struct Settled {
    /// What the forward layers are known below.
    pub f: u128,
    /// What the backward layers are known below.
    pub b: u128,
    /// The cuts, by one call after the other; at most 99.
    pub first: Vec<Cut>,
    /// The cuts, by the iterator.
    pub all: Vec<Cut>,
}

/// Begins over the space, settles the one cost, and lists the cuts of the other.
pub fn cuts_once_settled<S: Space, P: Choose + Drop>(
    alloc: Global,
    space: &mut S,
    choose: P,
    settled: u64,
    cost: u64,
) -> Result<Settled, SpaceFault>
    requires { cost ≤ settled }
{
    let mut both = Both::new(alloc, space, choose)?;
    both.settle(alloc, space, settled)?;
    let f = both.forward_layers().known_below();
    let b = both.backward_layers().known_below();
    let first = first_cuts(alloc, space, &both, cost, 99)?;
    let all = all_cuts(alloc, space, &both, cost)?;
    both.give_back(space);
    Ok(Settled { f, b, first, all })
}

/// The cuts of the plans of each cost up to the one that was settled.
#[derive(Debug, Drop)]
pub struct Cutting {
    /// What the backward layers are known below.
    pub b: u128,
    /// The cuts, by rising cost, in the order of each.
    pub cuts: Vec<PlanCut>,
}

/// Begins over the space, settles this cost, and lists the cuts of each cost up to it.
pub fn list_cuts<S: Space, P: Choose + Drop>(
    alloc: Global,
    space: &mut S,
    choose: P,
    most: u64,
) -> Result<Cutting, SpaceFault> {
    let mut both = Both::new(alloc, space, choose)?;
    both.settle(alloc, space, most)?;
    let b = both.backward_layers().known_below();
    let cuts = cuts_up_to(alloc, space, &both, most)?;
    both.give_back(space);
    Ok(Cutting { b, cuts })
}

/// Costs of plans, what came after them, and whether a layer of a cost above the greatest one was made.
#[derive(Debug, Drop)]
pub struct Costs {
    /// The costs of plans up to the greatest one, rising.
    pub within: Vec<u64>,
    /// The cost of a layer of either side that is above the greatest one.
    pub above: Option<u64>,
    /// What comes after the last of these costs.
    pub next: Next,
}

/// The costs of plans up to the greatest one, rising.
fn costs_within<S: Space, P: Choose>(
    alloc: Global,
    space: &mut S,
    both: &mut Both<S::Set, P>,
    most: u64,
) -> Result<Vec<u64>, SpaceFault>
    requires { IsBoth (S.view space.old) both.old }
    ensures { BothGoOn (S.view space.old) (S.view space.new) both.old both.new }
{
    let mut found = Vec::new(alloc);
    let mut above = None;
    'costs: for _ in 0..99 {
        match both.advance_within(alloc, space, above, most)? {
            Within::Plans { cost } => {
                found.push(cost)?;
                above = Some(cost);
            }
            Within::Past => return Ok(found),
        }
    }
    Ok(found)
}

/// The least cost above this one that has a layer on either side.
fn layer_above<T: Copy, P: Choose>(both: &Both<T, P>, most: u64) -> Option<u64> {
    let first = most.checked_add(1)?;
    let ahead = both.forward_layers().next_cost(first);
    let back = both.backward_layers().next_cost(first);
    ahead.or(back)
}

/// Begins over the space, with all states for the backward side, and lists the costs of plans up to the greatest
/// one, at most 99, then the next. The set of all states stays in the space.
pub fn list_costs<S: Space, P: Choose + Drop>(
    alloc: Global,
    space: &mut S,
    choose: P,
    most: u64,
) -> Result<Costs, SpaceFault> {
    let all = space.all()?;
    let mut both = Both::new_within(alloc, space, choose, all)?;
    let within = costs_within(alloc, space, &mut both, most)?;
    let above = layer_above(&both, most);
    let next = both.advance(alloc, space, within.last().copied())?;
    both.give_back(space);
    Ok(Costs {
        within,
        above,
        next,
    })
}

/// The costs of plans up to the greatest one, rising, at most 99; before each the search may begin again.
fn costs_again<S: Space, P: Choose>(
    alloc: Global,
    space: &mut S,
    both: &mut Both<S::Set, P>,
    most: u64,
    work: u64,
) -> Result<Vec<u64>, SpaceFault>
    requires { IsBoth (S.view space.old) both.old }
    ensures { IsBoth (S.view space.new) both.new }
{
    let mut found = Vec::new(alloc);
    let mut above = None;
    'costs: for _ in 0..99 {
        both.restart_if_long(alloc, space, above, most, work)?;
        match both.advance_within(alloc, space, above, most)? {
            Within::Plans { cost } => {
                found.push(cost)?;
                above = Some(cost);
            }
            Within::Past => return Ok(found),
        }
    }
    Ok(found)
}

/// Begins over the space, with all states for later, and lists the costs of plans up to the greatest one, at most 99:
/// it begins again where a cost takes more than so much of the space's work. The set of all states stays in the space.
pub fn list_costs_again<S: Space, P: Choose + Drop>(
    alloc: Global,
    space: &mut S,
    choose: P,
    most: u64,
    work: u64,
) -> Result<Vec<u64>, SpaceFault> {
    let all = space.all()?;
    let mut both = Both::new_later(alloc, space, choose, all)?;
    let found = costs_again(alloc, space, &mut both, most, work)?;
    both.give_back(space);
    Ok(found)
}

/// What comes after each cost of a plan, the first included, at most so many answers.
fn answers_of<S: Space, P: Choose>(
    alloc: Global,
    space: &mut S,
    both: &mut Both<S::Set, P>,
    count: u32,
) -> Result<Vec<Next>, SpaceFault>
    requires { IsBoth (S.view space.old) both.old }
    ensures { BothGoOn (S.view space.old) (S.view space.new) both.old both.new }
{
    let mut answers = Vec::new(alloc);
    let mut above = None;
    'answers: for _ in 0..count {
        let next = both.advance(alloc, space, above)?;
        answers.push(next)?;
        match next {
            Next::Plans { cost } => above = Some(cost),
            Next::Beyond | Next::Never => return Ok(answers),
        }
    }
    Ok(answers)
}

/// Begins over the space, and lists what comes after each cost of a plan, the first included, at most so many
/// answers.
pub fn list_answers<S: Space, P: Choose + Drop>(
    alloc: Global,
    space: &mut S,
    choose: P,
    count: u32,
) -> Result<Vec<Next>, SpaceFault> {
    let mut both = Both::new(alloc, space, choose)?;
    let answers = answers_of(alloc, space, &mut both, count)?;
    both.give_back(space);
    Ok(answers)
}
