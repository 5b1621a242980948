//! Runs of plans.

ghost use Rattle.std.specs.Prelude.{◌≡◌, ◌<◌, ℕ, List, All, IfOk, MatchOption};
ghost use Rattle.symk_task.specs.declared.parts.TaskParts.{TaskParts};
ghost use Rattle.symk_task.specs.Fits.{Fits};
ghost use Rattle.task_run.specs.declared.verdict.Verdict.{Verdict};
ghost use Rattle.task_run.specs.Verdicts.{IsTooLarge, Judges};

use crate::closing::closed_by;
use crate::rules::Rules;
use crate::steps::{applies_in, goal_in, successor_in};
use crate::verdict::Verdict;
use std::alloc::Global;
use symk_task::{Memory, Plan, Task};

/// The place of the first number that is no operator's.
fn too_large(numbers: &[u32], operators: u32) -> Option<usize>
    ensures { MatchOption result (All (λ a. a < operators) numbers.now) (IsTooLarge operators numbers.now) }
{
    for i in 0..numbers.len() {
        if numbers[i] >= operators {
            return Some(i);
        }
    }
    None
}

/// What a run of the plan comes to. Each state on the way is closed once.
pub fn run_plan(alloc: Global, task: &Task, plan: &Plan) -> Result<Verdict, Memory>
    ensures { IfOk result (Judges task.now plan.now) }
{
    let numbers = plan.as_slice();
    if let Some(at) = too_large(numbers, task.operators()) {
        return Ok(Verdict::NoSuchOperator {
            step: at as u64 + 1,
        });
    }
    let rules = Rules::of(alloc, task)?;
    let mut state = task.start(alloc)?;
    let mut values = closed_by(alloc, task, &rules, &state)?;
    for i in 0..numbers.len() {
        if !applies_in(task, numbers[i], &state, &values) {
            return Ok(Verdict::StopsAt { step: i as u64 + 1 });
        }
        state = successor_in(alloc, task, numbers[i], &state, &values)?;
        values = closed_by(alloc, task, &rules, &state)?;
    }
    if goal_in(task, &state, &values) {
        Ok(Verdict::Reaches {
            cost: task.plan_cost(plan),
        })
    } else {
        Ok(Verdict::MissesGoal)
    }
}

/// A plan of a task has one verdict: no other than the one that `run_plan` gives is true of it.
pub fn plan_has_one_verdict()
    ensures { (task : TaskParts) (plan : List ℕ) (one other : Verdict) →
        Fits task → Judges task plan one → Judges task plan other → one ≡ other }
{}
