//! Plans, listed one by one.

ghost use Rattle.std.specs.Prelude.{◌≡◌, ◌⊎◌, ◌↔◌, IfOk, IfErr, IsTrue, OnOk, OnErr};
ghost use Rattle.symk_task.specs.Plans.{IsUnit, cost_of};
ghost use Rattle.plan_out.specs.Texts.{block as block_text, end_line as end_text};
ghost use Rattle.run_status.specs.Ends.{EndsWithText, HasCauses, PutsOutWith};
ghost use Rattle.plan_run.specs.Engines.{OwesRest};
ghost use Rattle.plan_run.specs.Jobs.{IsLawfulJob, aim_of};
ghost use Rattle.run_status.specs.Sent.{TookPiece, TookFront};
ghost use Rattle.plan_run.specs.Listable.{IsListable};
ghost use Rattle.plan_run.specs.Lists.{OrPart, all_end, end_status, gap_text};

use crate::job::Job;
use plan_out::{End, block_with_cost, end_line};
use run_status::{Status, end, end_with, status_of};
use selectors::{LazyPlans, Limited, Stop};
use std::alloc::Global;
use symk_io::{Sink, put};
use symk_task::{Memory, Plan, Task};
use symk_text::{Text, push_bytes, push_number};

/// Lists the plans of the job, of an engine that owes the rest of its earlier list: each block is put before the next plan is asked for, and then the line that says why the list ends.
/// After the last plan that is wanted nothing is asked for but the one that is looked for where that is wanted too;
/// it is not put.
///
/// The first plan tells whether the earlier list misses one: it is then cheaper than the last of that list, and a
/// cheapest.
pub(crate) fn list_plans<I: LazyPlans + Drop, K: Sink>(
    alloc: Global,
    job: Job<'_>,
    engine: I,
    sink: &mut K,
) -> Status
    requires owes { OwesRest I.system I.mode I.most I.pends I.lawful
        job.task.now job.mode job.limit job.earlier.now.plans engine }
    requires lawful { IsLawfulJob job }
    ensures lists { PutsOutWith (OrPart (aim_of job.entry)) (K.view sink.old) (K.view sink.new) result }
    ensures causes { HasCauses result 0 0 (K.view sink.old).faults (K.view sink.new).faults }
{
    let Job {
        task,
        wanted,
        limit,
        earlier,
        ..
    } = job;
    // A task fits.
    let _ = task.parts();
    let unit = task.unit();
    let before = earlier.plans.len() as u64;
    let mut plans = Limited::new(alloc, engine, wanted.asked());
    'plans: for number in 0..wanted.count {
        match plans.next() {
            Some(Ok(plan)) => {
                let cost = task.plan_cost(&plan) as u64;
                if cost < earlier.dearest {
                    return end_with(sink, gap_text(alloc, cost), Status::Gap);
                }
                match put_block(alloc, task, before + number + 1, &plan, cost, unit, sink) {
                    Ok(()) => {}
                    Err(status) => return status,
                }
            }
            Some(Err(Stop::CostRange)) => return end_list(alloc, sink, End::CostRange),
            Some(Err(Stop::Memory)) => return Status::Memory,
            None => return end_list(alloc, sink, all_listed(limit, before + number)),
        }
    }
    let n = before + wanted.count;
    if !wanted.more {
        return end_list(alloc, sink, End::Reached { n });
    }
    match plans.next() {
        Some(Ok(_)) => end_list(alloc, sink, End::More { n }),
        Some(Err(Stop::CostRange)) => end_list(alloc, sink, End::CostRange),
        Some(Err(Stop::Memory)) => Status::Memory,
        None => end_list(alloc, sink, all_listed(limit, n)),
    }
}

/// How a list ends that has all plans that are wanted.
fn all_listed(limit: Option<u64>, n: u64) -> End
    ensures { result ≡ all_end limit n }
{
    match limit {
        None => End::Exhausted { n },
        Some(_) => End::Bounded { n },
    }
}

/// `plans miss a plan of cost C`
#[tactic(auto, unfolding(crate::specs::Lists::gap_text))]
fn gap_text(alloc: Global, cost: u64) -> Result<Text, Memory>
    ensures { IfOk result (λ text. text ≡ gap_text cost) }
{
    let mut text = Text::new(alloc);
    push_bytes(&mut text, b"plans miss a plan of cost ")?;
    push_number(&mut text, cost)?;
    push_bytes(&mut text, b"\n")?;
    Ok(text)
}

/// Puts the block of a plan, which is the one of this number in its list, as one piece, or ends the run. What is
/// known already is what the plan costs, and whether each operator of the task costs 1.
fn put_block<K: Sink>(
    alloc: Global,
    task: &Task,
    number: u64,
    plan: &Plan,
    cost: u64,
    unit: bool,
    sink: &mut K,
) -> Result<(), Status>
    requires listable { IsListable task.now plan.now }
    requires cost { cost ≡ cost_of task.now plan.now }
    requires unit { IsTrue unit ↔ IsUnit task.now }
    ensures ok { OnOk result (TookPiece (block_text task.now number plan.now) (K.view sink.old) (K.view sink.new)) }
    ensures quiet { OnOk result ((K.view sink.new).faults ≡ (K.view sink.old).faults) }
    ensures err { OnErr result (TookFront (block_text task.now number plan.now) (K.view sink.old) (K.view sink.new)) }
    ensures stop { IfErr result (λ status. (status ≡ Status.WriteFault) ⊎ (status ≡ Status.Memory)) }
    ensures causes { IfErr result (λ status. HasCauses status 0 0 (K.view sink.old).faults (K.view sink.new).faults) }
{
    let Ok(text) = block_with_cost(alloc, task, number, plan, cost, unit) else {
        return Err(Status::Memory);
    };
    match put(sink, &text) {
        Ok(()) => Ok(()),
        Err(fault) => Err(status_of(fault)),
    }
}

/// Puts the line that ends a list.
pub(crate) fn end_list<K: Sink>(alloc: Global, sink: &mut K, why: End) -> Status
    ensures ends { EndsWithText (end_status why) (end_text why) (K.view sink.old) (K.view sink.new) result }
    ensures causes { HasCauses result 0 0 (K.view sink.old).faults (K.view sink.new).faults }
{
    match end_line(alloc, why) {
        Ok(text) => end(sink, &text, status_of_end(why)),
        Err(_) => Status::Memory,
    }
}

fn status_of_end(why: End) -> Status
    ensures { result ≡ end_status why }
{
    match why {
        End::Reached { .. } => Status::Reached,
        End::More { .. } => Status::MoreLeft,
        End::Bounded { .. } => Status::Bounded,
        End::Exhausted { .. } => Status::Exhausted,
        End::CostRange => Status::CostRange,
    }
}
