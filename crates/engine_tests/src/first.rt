//! The first plan alone, by the selector that gives so many.

ghost use Rattle.std.specs.Prelude.{◌≡◌, None};
ghost use Rattle.reconstruct.specs.Engine.{IsReadyFor};

use crate::engines::Sets;
use bdd_space::BddSpace;
use bidirectional::Choice;
use explicit_space::{ExplicitSpace, FuseSpace};
use lazy_plans::LazyPlans;
use reconstruct::TopPlans;
use selectors::Limited;
use space_api::Space;
use std::alloc::Global;
use symk_task::{Memory, Plan, Task};

/// A plan that came first where one is wanted.
#[derive(Drop)]
pub(crate) struct First {
    pub plan: Plan,
    /// Whether nothing came after it, and it alone was counted.
    pub alone: bool,
}

/// The first plan of the engine, where it comes.
fn first_of<I: LazyPlans + Drop>(alloc: Global, engine: I) -> Option<First>
    requires { I.lawful engine }
{
    let mut plans = Limited::new(alloc, engine, 1);
    let Some(Ok(plan)) = plans.next() else {
        return None;
    };
    let alone = plans.next().is_none() && plans.listed() == 1;
    Some(First { plan, alone })
}

/// The first plan over a space, where it comes.
fn first_over<S: Space + Drop>(
    alloc: Global,
    space: S,
    choice: Choice,
) -> Result<Option<First>, Memory>
    requires { IsReadyFor (S.view space) None }
{
    let plans = TopPlans::new(alloc, space, choice)?;
    Ok(first_of(alloc, plans))
}

/// The first plan of the task by `Limited`, of which one is wanted, where it comes.
pub(crate) fn first_plan(
    alloc: Global,
    task: &Task,
    sets: Sets,
    choice: Choice,
) -> Result<Option<First>, Memory> {
    match sets {
        Sets::States { calls } => {
            let space = FuseSpace::new(ExplicitSpace::of(alloc, task)?, calls);
            first_over(alloc, space, choice)
        }
        Sets::Diagrams => first_over(alloc, BddSpace::of(alloc, task)?, choice),
    }
}
