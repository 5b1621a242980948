//! Lists up to a cost, which may be named in percent of the least one.

ghost use Rattle.std.specs.Prelude.{◌≡◌, ◌≤◌, ◌<◌, ◌^◌, IfOk, IfSome};
ghost use Rattle.symk_task.specs.declared.parts.Mode.TheVariants.{TopK};
ghost use Rattle.run_status.specs.Ends.{HasCauses, PutsOutWith};
ghost use Rattle.plan_run.specs.Engines.{OwesAll};
ghost use Rattle.plan_run.specs.Lists.{OrPart, aim};
ghost use Rattle.plan_run.specs.Reaches.{OrReached, HasLeast, IsNear, share};

use crate::beginning::{prefix_plans, top_plans};
use crate::earlier::Earlier;
use crate::engines::list_found;
use crate::job::Job;
use crate::options::{Reach, Search, Wanted};
use crate::planning::end_list;
use crate::width::costs_are_wide;
use bdd_space::BddSpace;
use plan_out::End;
use run_status::Status;
use selectors::{LazyPlans, Limited, Stop};
use std::alloc::{AllocError, Global};
use symk_io::Sink;
use symk_task::{Memory, Mode, Task};

/// What the cheapest plan of a task costs.
#[derive(Clone, Copy, Debug, PartialEq, Eq)]
pub(crate) enum Least {
    /// So much.
    Costs(u64),
    /// More than 64 bits hold.
    Dear,
    /// There is no plan.
    Never,
}

/// Lists as many plans of the task in the mode as are wanted, up to the cost that is asked for.
pub fn list_reached<K: Sink>(
    alloc: Global,
    task: &Task,
    mode: Mode,
    search: Search,
    wanted: Wanted,
    reach: Reach,
    sink: &mut K,
) -> Status
    requires least { 1 ≤ wanted.count }
    requires count { wanted.count ≤ 1000000000 }
    requires near { IsNear reach }
    ensures lists { PutsOutWith (OrReached task.now mode wanted reach) (K.view sink.old) (K.view sink.new) result }
    ensures causes { HasCauses result 0 0 (K.view sink.old).faults (K.view sink.new).faults }
{
    match reach {
        Reach::All => list_first(alloc, task, mode, search, wanted, None, sink),
        Reach::UpTo(most) => list_first(alloc, task, mode, search, wanted, Some(most), sink),
        Reach::Percent(percent) => match least_cost(alloc, task, search) {
            Ok(Least::Costs(cost)) => {
                let most = share(cost, percent);
                list_first(alloc, task, mode, search, wanted, Some(most), sink)
            }
            Ok(Least::Dear) => end_list(alloc, sink, End::CostRange),
            Ok(Least::Never) => end_list(alloc, sink, End::Exhausted { n: 0 }),
            Err(_) => Status::Memory,
        },
    }
}

/// Lists plans with no earlier list, up to a greatest cost where there is one.
fn list_first<K: Sink>(
    alloc: Global,
    task: &Task,
    mode: Mode,
    search: Search,
    wanted: Wanted,
    limit: Option<u64>,
    sink: &mut K,
) -> Status
    requires least { 1 ≤ wanted.count }
    requires count { wanted.count ≤ 1000000000 }
    requires limit { IfSome limit (λ most. most < 2 ^ 64) }
    ensures lists { PutsOutWith (OrPart (aim task.now mode wanted limit)) (K.view sink.old) (K.view sink.new) result }
    ensures causes { HasCauses result 0 0 (K.view sink.old).faults (K.view sink.new).faults }
{
    let earlier = Earlier::none(alloc);
    let job = Job {
        task,
        mode,
        search,
        wanted,
        limit,
        earlier: &earlier,
    };
    list_found(alloc, job, sink)
}

/// So many percent of a cost, the whole part, or the greatest cost, if that is less.
fn share(cost: u64, percent: u64) -> u64
    requires { percent ≤ 10000 }
    ensures { result ≡ share cost percent }
{
    let most = u128::from(cost) * u128::from(percent) / 100;
    most.min(u128::from(u64::MAX)) as u64
}

/// What the cheapest plan of the task costs. In each mode that is what the cheapest plan of the mode costs:
/// leaving out a circle makes no plan dearer, so that a cheapest one may be taken to be loopless.
fn least_cost(alloc: Global, task: &Task, search: Search) -> Result<Least, Memory>
    ensures { IfOk result (HasLeast task.now) }
{
    let space = BddSpace::of(alloc, task)?;
    if costs_are_wide(task) {
        let plans = prefix_plans(alloc, task, search, space, None)?;
        cheapest_of(alloc, task, plans)
    } else {
        let plans = top_plans(alloc, task, search, space, None)?;
        cheapest_of(alloc, task, plans)
    }
}

/// What the first plan of an engine costs that owes all plans of the task.
fn cheapest_of<I: LazyPlans + Drop>(alloc: Global, task: &Task, engine: I) -> Result<Least, Memory>
    requires { OwesAll I.system I.mode I.most I.pends I.lawful task.now TopK None engine }
    ensures { IfOk result (HasLeast task.now) }
{
    // A task fits.
    let _ = task.parts();
    let mut plans = Limited::new(alloc, engine, 1);
    match plans.next() {
        Some(Ok(plan)) => Ok(Least::Costs(task.plan_cost(&plan) as u64)),
        Some(Err(Stop::CostRange)) => Ok(Least::Dear),
        Some(Err(Stop::Memory)) => Err(AllocError),
        None => Ok(Least::Never),
    }
}
