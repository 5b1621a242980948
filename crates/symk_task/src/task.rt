//! Tasks that fit.

use crate::parts::TaskParts;
use std::marker::Model;

/// A task whose parts fit.
#[derive(Drop)]
pub struct Task {
    parts: TaskParts,
}

impl Model for Task {
    ghost use Rattle.symk_task.specs.declared.parts.TaskParts.{TaskParts};
    ghost use Rattle.symk_task.specs.Fits.{Fits};

    ghost Value = { TaskParts };

    ghost view = { λ a. a.parts };

    ghost invariant = { λ a. Fits a.parts };
}

ghost use Rattle.std.specs.Prelude.{◌≡◌, ◌<◌, ◌↔◌, IsTrue, IfOk, All, length};
ghost use Rattle.symk_task.specs.Fits.{Fits};
ghost use Rattle.symk_task.specs.Steps.{cost_at};
ghost use Rattle.symk_task.specs.Plans.{IsInitial, IsUnit, cost_of};

use crate::base::base_values;
use crate::list::{Memory, Plan, State};
use std::alloc::Global;

impl Task {
    /// The task that the parts state.
    pub fn of(parts: TaskParts) -> Task
        requires { Fits parts }
        ensures { result ≡ parts }
    {
        Task { parts }
    }

    /// What the task states.
    pub fn parts(&self) -> &TaskParts
        ensures value { result.now ≡ self.now }
        ensures fits { Fits self.now }
    {
        &self.parts
    }

    /// The initial state.
    #[tactic(auto, using(crate::proofs::Starting::start_law))]
    pub fn start(&self, alloc: Global) -> Result<State, Memory>
        ensures { IfOk result (IsInitial self.now) }
    {
        let parts = self.parts();
        base_values(alloc, parts.variables.as_slice(), parts.initial.as_slice())
    }

    /// The number of operators: at most 1,000,000.
    pub fn operators(&self) -> u32
        ensures { result ≡ length self.now.operators }
    {
        self.parts.operators.len() as u32
    }

    /// What the operator costs, by the metric.
    pub fn cost(&self, op: u32) -> u64
        requires { op < length self.now.operators }
        ensures { result ≡ cost_at self.now op }
    {
        if self.parts.metric == 0 {
            1
        } else {
            self.parts.operators.as_slice()[op as usize].cost
        }
    }

    /// Whether each operator costs 1, by the metric; so too where there is none.
    pub fn unit(&self) -> bool
        ensures { IsTrue result ↔ IsUnit self.now }
    {
        let operators = self.parts.operators.as_slice();
        self.parts.metric == 0 || operators.iter().all(|operator| operator.cost == 1)
    }

    /// What the operators of the plan cost together, by the metric.
    pub fn plan_cost(&self, plan: &Plan) -> u128
        requires { All (λ op. op < length self.now.operators) plan.now }
        ensures { result ≡ cost_of self.now plan.now }
    {
        let operators = plan.as_slice();
        let mut cost = 0;
        for i in 0..operators.len() {
            cost += u128::from(self.cost(operators[i]));
        }
        cost
    }
}
