//! Lists by any engine over either space.

ghost use Rattle.std.specs.Prelude.{◌≡◌, None, Some, IfOk};
ghost use Rattle.task_system.specs.Computed.{system_of as system_by};
ghost use Rattle.reconstruct.specs.Engine.{IsReadyFor, IsCutEngine};
ghost use Rattle.loopless.specs.Engine.{IsLooplessEngine as IsLoopless};
ghost use Rattle.prefix_plans.specs.Engine.{IsPrefixEngine as IsPrefixes};
ghost use Rattle.member_plans.specs.Engine.{member_system, HasAllPlans, IsMemberEngine as IsMembers};

use crate::costs::costs_of;
use crate::listing::{Ending, Listing, first_plans};
use bdd_space::BddSpace;
use bidirectional::Choice;
use explicit_space::{ExplicitSpace, FuseSpace};
use lazy_plans::LazyPlans;
use loopless::LooplessPlans;
use member_plans::MemberPlans;
use prefix_plans::PrefixPlans;
use reconstruct::TopPlans;
use selectors::{Classes, Unordered};
use space_api::Space;
use std::alloc::Global;
use symk_task::{Memory, Mode, Task};

/// An engine of plans.
#[derive(Clone, Copy)]
pub(crate) enum Engine {
    /// All plans, from the middle outwards.
    Top(Choice),
    /// The same, kept to a set of all states once a cost takes long.
    TopLater(Choice),
    /// Of those the first of each class of rearrangements.
    Unordered(Choice),
    /// All plans, by their prefixes.
    Prefixes,
    /// Of those the first of each class of rearrangements.
    PrefixClasses,
    /// One plan of each class of rearrangements, without drawing all of them.
    Classes,
    /// The plans that visit no state twice.
    Loopless,
}

impl Engine {
    /// Which plans it gives.
    pub fn mode(self) -> Mode {
        match self {
            Engine::Top(_) | Engine::TopLater(_) | Engine::Prefixes => Mode::TopK,
            Engine::Unordered(_) | Engine::PrefixClasses | Engine::Classes => Mode::Unordered,
            Engine::Loopless => Mode::Loopless,
        }
    }
}

/// What sets of states are made of.
#[derive(Clone, Copy)]
pub(crate) enum Sets {
    /// Lists of states, in order; so many calls of the space are passed on, and each later one is refused.
    States { calls: u64 },
    /// Diagrams.
    Diagrams,
}

/// What is asked for.
#[derive(Clone, Copy)]
pub(crate) struct Request {
    pub engine: Engine,
    pub sets: Sets,
    /// The greatest cost that is wanted, where there is one.
    pub most: Option<u64>,
    /// Whether the engine is handed a set of all states.
    pub handed: bool,
    /// How many plans are wanted.
    pub count: u32,
}

/// The first plans of the engine.
fn list_of<I: LazyPlans + Drop>(alloc: Global, engine: I, count: u32) -> Result<Listing, Memory>
    requires { I.lawful engine }
{
    let mut engine = engine;
    first_plans(alloc, &mut engine, count)
}

/// The engine of all plans.
fn all_plans<S: Space + Drop>(
    alloc: Global,
    space: S,
    choice: Choice,
    request: Request,
) -> Result<TopPlans<S, Choice>, Memory>
    requires { IsReadyFor (S.view space) None }
    ensures { IfOk result (IsCutEngine S.view) }
{
    let mut space = space;
    if !request.handed {
        return match request.most {
            None => TopPlans::new(alloc, space, choice),
            Some(most) => TopPlans::within(alloc, space, choice, most),
        };
    }
    let all = space.all()?;
    match request.most {
        None => TopPlans::new_within(alloc, space, choice, all),
        Some(most) => TopPlans::within_most(alloc, space, choice, most, all),
    }
}

/// The engine of all plans, kept to all states once a cost takes long.
fn later_plans<S: Space + Drop>(
    alloc: Global,
    space: S,
    choice: Choice,
    most: Option<u64>,
) -> Result<TopPlans<S, Choice>, Memory>
    requires { IsReadyFor (S.view space) None }
    ensures { IfOk result (IsCutEngine S.view) }
{
    let mut space = space;
    let all = space.all()?;
    TopPlans::within_later(alloc, space, choice, most, all)
}

/// The engine of all plans by their prefixes.
fn prefix_plans<S: Space + Drop>(
    alloc: Global,
    space: S,
    request: Request,
) -> Result<PrefixPlans<S>, Memory>
    requires { IsReadyFor (S.view space) None }
    ensures { IfOk result (IsPrefixes S.view) }
{
    let mut space = space;
    if !request.handed {
        return match request.most {
            None => PrefixPlans::new(alloc, space),
            Some(most) => PrefixPlans::within(alloc, space, most),
        };
    }
    let all = space.all()?;
    match request.most {
        None => PrefixPlans::new_within(alloc, space, all),
        Some(most) => PrefixPlans::within_most(alloc, space, most, all),
    }
}

/// The engine of one plan of each class at least.
fn member_plans<'a, S: Space + Drop>(
    alloc: Global,
    task: &'a Task,
    space: S,
    request: Request,
) -> Result<MemberPlans<'a, S>, Memory>
    requires task { (S.view space).system ≡ system_by task.now }
    requires none { IsReadyFor (S.view space) None }
    ensures lawful { IfOk result (IsMembers S.view) }
    ensures all { IfOk result (λ x. HasAllPlans S.view (member_system S.view x) x) }
{
    let mut space = space;
    if !request.handed {
        return match request.most {
            None => MemberPlans::new(alloc, task, space),
            Some(most) => MemberPlans::within(alloc, task, space, most),
        };
    }
    let all = space.all()?;
    match request.most {
        None => MemberPlans::new_within(alloc, task, space, all),
        Some(most) => MemberPlans::within_most(alloc, task, space, most, all),
    }
}

/// The engine of loopless plans.
fn loopless_plans<S: Space + Drop>(
    alloc: Global,
    space: S,
    request: Request,
) -> Result<LooplessPlans<S>, Memory>
    requires { IsReadyFor (S.view space) None }
    ensures { IfOk result (IsLoopless S.view) }
{
    let mut space = space;
    if !request.handed {
        return match request.most {
            None => LooplessPlans::new(alloc, space),
            Some(most) => LooplessPlans::within(alloc, space, most),
        };
    }
    let all = space.all()?;
    match request.most {
        None => LooplessPlans::new_within(alloc, space, all),
        Some(most) => LooplessPlans::within_most(alloc, space, most, all),
    }
}

/// The first plans over a space.
fn listed_over<S: Space + Drop>(
    alloc: Global,
    task: &Task,
    space: S,
    request: Request,
) -> Result<Listing, Memory>
    requires task { (S.view space).system ≡ system_by task.now }
    requires none { IsReadyFor (S.view space) None }
{
    match request.engine {
        Engine::Top(choice) => {
            let plans = all_plans(alloc, space, choice, request)?;
            list_of(alloc, plans, request.count)
        }
        Engine::TopLater(choice) => {
            let plans = later_plans(alloc, space, choice, request.most)?;
            list_of(alloc, plans, request.count)
        }
        Engine::Unordered(choice) => {
            let plans = all_plans(alloc, space, choice, request)?;
            list_of(alloc, Unordered::new(alloc, plans)?, request.count)
        }
        Engine::Prefixes => {
            let plans = prefix_plans(alloc, space, request)?;
            list_of(alloc, plans, request.count)
        }
        Engine::PrefixClasses => {
            let plans = prefix_plans(alloc, space, request)?;
            list_of(alloc, Unordered::new(alloc, plans)?, request.count)
        }
        Engine::Classes => {
            let plans = member_plans(alloc, task, space, request)?;
            list_of(alloc, Classes::new(alloc, plans), request.count)
        }
        Engine::Loopless => {
            let plans = loopless_plans(alloc, space, request)?;
            list_of(alloc, plans, request.count)
        }
    }
}

/// The first plans of the task, as they are asked for.
pub(crate) fn listed(alloc: Global, task: &Task, request: Request) -> Result<Listing, Memory> {
    match request.sets {
        Sets::States { calls } => {
            let space = FuseSpace::new(ExplicitSpace::of(alloc, task)?, calls);
            listed_over(alloc, task, space, request)
        }
        Sets::Diagrams => listed_over(alloc, task, BddSpace::of(alloc, task)?, request),
    }
}

/// Whether the list that is asked for is good, costs this and ends so, for good.
pub(crate) fn lists(
    alloc: Global,
    task: &Task,
    request: Request,
    costs: &[u64],
    ending: Ending,
) -> Result<bool, Memory> {
    let listing = listed(alloc, task, request)?;
    match costs_of(alloc, task, request.engine.mode(), &listing.plans)? {
        Some(found) => Ok(found.as_slice() == costs && listing.ending == ending && listing.lasts),
        None => Ok(false),
    }
}
