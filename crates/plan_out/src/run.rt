//! Runs of a block's operators.

ghost use Rattle.std.specs.Prelude.{◌≡◌, ℕ, ◌+◌, ◌<◌, List, [], ◌∷◌, ◌++◌, All, IfOk, OnOk, length};
ghost use Rattle.plan_out.specs.Checks.{IsOutcome, IsPassed};
ghost use Rattle.symk_task.specs.declared.parts.Mode.{Mode};
ghost use Rattle.symk_task.specs.declared.parts.Mode.TheVariants.{Loopless};
ghost use Rattle.task_run.specs.Counted.{AreRulesOf};

use std::alloc::Global;
use std::collections::BTreeSet;
use symk_task::{Memory, Mode, Plan, State, Task};
use task_run::{Rules, applies_in, closed_by, goal_in, successor_in};

/// What a run comes to.
#[derive(Clone, Copy)]
pub enum Outcome {
    /// The first operator that doesn't apply, counted from 1.
    StopsAt { step: u64 },
    /// The goal doesn't hold at the end.
    MissesGoal,
    /// The goal holds at the end; in mode loopless, the first step that leads back to a state of the run, if one does.
    Reaches { back: Option<u64> },
}

/// Runs the operators from the initial state.
pub fn run(
    alloc: Global,
    task: &Task,
    rules: &Rules,
    mode: Mode,
    plan: &Plan,
) -> Result<Outcome, Memory>
    requires rules { AreRulesOf task.now rules.now }
    requires operators { All (λ op. op < length task.now.operators) plan.now }
    ensures { IfOk result (IsOutcome task.now mode plan.now) }
{
    let operators = plan.as_slice();
    let mut passed = Passed::new(alloc);
    let mut state = task.start(alloc)?;
    let mut values = closed_by(alloc, task, rules, &state)?;
    for i in 0..operators.len() {
        if !applies_in(task, operators[i], &state, &values) {
            return Ok(Outcome::StopsAt { step: i as u64 + 1 });
        }
        let next = successor_in(alloc, task, operators[i], &state, &values)?;
        values = closed_by(alloc, task, rules, &next)?;
        passed.leave(mode, state, &next, i as u64 + 1)?;
        state = next;
    }
    if goal_in(task, &state, &values) {
        Ok(Outcome::Reaches { back: passed.back })
    } else {
        Ok(Outcome::MissesGoal)
    }
}

/// The states that a run has left, and the first step that led back to one.
#[derive(Drop)]
struct Passed {
    left: BTreeSet<State>,
    back: Option<u64>,
}

impl Passed {
    fn new(alloc: Global) -> Passed
        ensures { (mode : Mode) (state : List ℕ) → IsPassed mode [] state result }
    {
        Passed {
            left: BTreeSet::new(alloc),
            back: None,
        }
    }

    /// Notes that this step leads from one state to the other; in mode loopless alone.
    fn leave(&mut self, mode: Mode, from: State, to: &State, step: u64) -> Result<(), Memory>
        ensures { OnOk result ((left : List (List ℕ)) → step ≡ length left + 1 →
            IsPassed mode left from self.old → IsPassed mode (left ++ from ∷ []) to.now self.new) }
    {
        match mode {
            Mode::TopK | Mode::Unordered => Ok(()),
            Mode::Loopless => self.note(from, to, step),
        }
    }

    /// Notes that this step leads from one state to the other.
    fn note(&mut self, from: State, to: &State, step: u64) -> Result<(), Memory>
        ensures { OnOk result ((left : List (List ℕ)) → step ≡ length left + 1 →
            IsPassed Loopless left from self.old → IsPassed Loopless (left ++ from ∷ []) to.now self.new) }
    {
        if self.back.is_some() {
            return Ok(());
        }
        self.left.insert(from)?;
        if self.left.contains(to) {
            self.back = Some(step);
        }
        Ok(())
    }
}
