//! Lists by the engine that a mode and an earlier list ask for.

ghost use Rattle.std.specs.Prelude.{◌≡◌, IsFalse};
ghost use Rattle.symk_task.specs.declared.parts.Mode.TheVariants.{TopK, Unordered, Loopless};
ghost use Rattle.task_system.specs.Computed.{system_of};
ghost use Rattle.space_api.specs.View.{View};
ghost use Rattle.run_status.specs.Ends.{HasCauses, PutsOutWith};
ghost use Rattle.plan_run.specs.Engines.{OwesAll};
ghost use Rattle.plan_run.specs.Jobs.{IsLawfulJob, aim_of};
ghost use Rattle.plan_run.specs.Lists.{OrPart};

use crate::beginning::{class_plans, loopless_plans, prefix_plans, top_plans};
use crate::job::Job;
use crate::planning::list_plans;
use crate::width::costs_are_wide;
use bdd_space::BddSpace;
use run_status::Status;
use selectors::{After, LazyPlans};
use space_api::Space;
use std::alloc::Global;
use symk_io::Sink;
use symk_task::Mode;

/// Lists the plans of the job. Where the earlier list misses a plan, nothing is listed, and the text says what the
/// cheapest such plan costs.
pub fn list_found<K: Sink>(alloc: Global, job: Job<'_>, sink: &mut K) -> Status
    requires { IsLawfulJob job }
    ensures lists { PutsOutWith (OrPart (aim_of job.entry)) (K.view sink.old) (K.view sink.new) result }
    ensures causes { HasCauses result 0 0 (K.view sink.old).faults (K.view sink.new).faults }
{
    let Ok(space) = BddSpace::of(alloc, job.task) else {
        return Status::Memory;
    };
    match job.mode {
        Mode::TopK => list_all(alloc, job, space, sink),
        Mode::Unordered => list_classes(alloc, job, space, sink),
        Mode::Loopless => list_loopless(alloc, job, space, sink),
    }
}

/// Lists loopless plans, over a space of the task that has no valid set.
fn list_loopless<S: Space + Drop, K: Sink>(
    alloc: Global,
    job: Job<'_>,
    space: S,
    sink: &mut K,
) -> Status
    requires task { (S.view space).task ≡ job.task.now }
    requires system { (S.view space).system ≡ system_of job.task.now }
    requires none { (a : S.Set) → IsFalse ((S.view space).valid a) }
    requires lawful { IsLawfulJob job }
    requires mode { job.mode ≡ Loopless }
    ensures lists { PutsOutWith (OrPart (aim_of job.entry)) (K.view sink.old) (K.view sink.new) result }
    ensures causes { HasCauses result 0 0 (K.view sink.old).faults (K.view sink.new).faults }
{
    match loopless_plans(alloc, job.task, job.search, space, job.limit) {
        Ok(plans) => list_rest(alloc, job, plans, sink),
        Err(_) => Status::Memory,
    }
}

/// Lists all plans, over such a space.
fn list_all<S: Space + Drop, K: Sink>(alloc: Global, job: Job<'_>, space: S, sink: &mut K) -> Status
    requires task { (S.view space).task ≡ job.task.now }
    requires system { (S.view space).system ≡ system_of job.task.now }
    requires none { (a : S.Set) → IsFalse ((S.view space).valid a) }
    requires lawful { IsLawfulJob job }
    requires mode { job.mode ≡ TopK }
    ensures lists { PutsOutWith (OrPart (aim_of job.entry)) (K.view sink.old) (K.view sink.new) result }
    ensures causes { HasCauses result 0 0 (K.view sink.old).faults (K.view sink.new).faults }
{
    if costs_are_wide(job.task) {
        match prefix_plans(alloc, job.task, job.search, space, job.limit) {
            Ok(plans) => list_rest(alloc, job, plans, sink),
            Err(_) => Status::Memory,
        }
    } else {
        match top_plans(alloc, job.task, job.search, space, job.limit) {
            Ok(plans) => list_rest(alloc, job, plans, sink),
            Err(_) => Status::Memory,
        }
    }
}

/// Lists one plan of each class of rearrangements, over such a space.
fn list_classes<S: Space + Drop, K: Sink>(
    alloc: Global,
    job: Job<'_>,
    space: S,
    sink: &mut K,
) -> Status
    requires task { (S.view space).task ≡ job.task.now }
    requires system { (S.view space).system ≡ system_of job.task.now }
    requires none { (a : S.Set) → IsFalse ((S.view space).valid a) }
    requires lawful { IsLawfulJob job }
    requires mode { job.mode ≡ Unordered }
    ensures lists { PutsOutWith (OrPart (aim_of job.entry)) (K.view sink.old) (K.view sink.new) result }
    ensures causes { HasCauses result 0 0 (K.view sink.old).faults (K.view sink.new).faults }
{
    match class_plans(alloc, job.task, job.search, space, job.limit) {
        Ok(plans) => list_rest(alloc, job, plans, sink),
        Err(_) => Status::Memory,
    }
}

/// Lists those plans of an engine that owes all which count as one with no earlier plan.
fn list_rest<I: LazyPlans + Drop, K: Sink>(
    alloc: Global,
    job: Job<'_>,
    engine: I,
    sink: &mut K,
) -> Status
    requires owes { OwesAll I.system I.mode I.most I.pends I.lawful job.task.now job.mode job.limit engine }
    requires lawful { IsLawfulJob job }
    ensures lists { PutsOutWith (OrPart (aim_of job.entry)) (K.view sink.old) (K.view sink.new) result }
    ensures causes { HasCauses result 0 0 (K.view sink.old).faults (K.view sink.new).faults }
{
    match After::new(alloc, engine, job.mode, &job.earlier.plans) {
        Ok(plans) => list_plans(alloc, job, plans, sink),
        Err(_) => Status::Memory,
    }
}
