//! What the cheapest plans of a task cost.

ghost use Rattle.std.specs.Prelude.{◌≡◌, ◌+◌, ◌^◌, ◌<◌, IfOk, None, min, max};
ghost use Rattle.symk_task.specs.declared.parts.Mode.TheVariants.{TopK};
ghost use Rattle.plan_run.specs.Engines.{OwesAll};
ghost use Rattle.plan_run.specs.Costs.{HasMorePlans, HasPlans};

use crate::beginning::top_plans;
use crate::options::{Direction, Search};
use bdd_space::BddSpace;
use selectors::{LazyPlans, Limited, Stop};
use std::alloc::{AllocError, Global};
use symk_task::{Memory, Task};

/// How many plans are shown.
pub const SHOWN: u64 = 20;

/// How plans are searched for where nothing is asked for.
const UNASKED: Search = Search {
    direction: Direction::Auto,
    mutex: false,
};

/// What plans cost.
#[derive(Clone, Copy, Debug)]
pub struct Costs {
    /// The least cost.
    pub cheapest: u64,
    /// The greatest cost.
    pub dearest: u64,
    /// The sum of the costs.
    pub total: u128,
}

impl Costs {
    /// Those of one plan more.
    fn with(self, cost: u64) -> Costs
        requires { self.total + cost < 2 ^ 128 }
        ensures cheapest { result.cheapest ≡ min self.cheapest cost }
        ensures dearest { result.dearest ≡ max self.dearest cost }
        ensures total { result.total ≡ self.total + cost }
    {
        Costs {
            cheapest: self.cheapest.min(cost),
            dearest: self.dearest.max(cost),
            total: self.total + u128::from(cost),
        }
    }
}

/// What 20 plans cost of an engine that owes all plans of the task.
fn costs_of<I: LazyPlans + Drop>(alloc: Global, task: &Task, engine: I) -> Result<Costs, Memory>
    requires owes { OwesAll I.system I.mode I.most I.pends I.lawful task.now TopK None engine }
    requires many { HasMorePlans task.now 20 }
    ensures { IfOk result (λ costs. HasPlans task.now costs.cheapest costs.dearest costs.total) }
{
    // A task fits.
    let _ = task.parts();
    let mut plans = Limited::new(alloc, engine, SHOWN);
    let mut costs = Costs {
        cheapest: u64::MAX,
        dearest: 0,
        total: 0,
    };
    'plans: for _number in 0..SHOWN {
        match plans.next() {
            Some(Ok(plan)) => costs = costs.with(task.plan_cost(&plan) as u64),
            Some(Err(Stop::Memory)) => return Err(AllocError),
            Some(Err(Stop::CostRange)) => unreachable!(),
            None => unreachable!(),
        }
    }
    Ok(costs)
}

/// What the 20 cheapest plans cost of a task that has more, in the direction that is chosen without being asked for.
pub fn costs_found(alloc: Global, task: &Task) -> Result<Costs, Memory>
    requires { HasMorePlans task.now 20 }
    ensures { IfOk result (λ costs. HasPlans task.now costs.cheapest costs.dearest costs.total) }
{
    let space = BddSpace::of(alloc, task)?;
    let plans = top_plans(alloc, task, UNASKED, space, None)?;
    costs_of(alloc, task, plans)
}
