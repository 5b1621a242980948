//! Explicit runs of a task, apart from diagrams.
//!
//! `closed` gives all values in a state, derived ones included; `applies`, `successor`, `step` and `goal_holds` are
//! the operators and the goal on one state; `run_plan` says what a run of a plan comes to. Each is proved to be what
//! the definitions of a task say, and `plan_has_one_verdict` that no plan comes to two things. A search that meets
//! many states makes the `Rules` once and finds the values of each state once: `closed_by`, `applies_in`,
//! `successor_in` and `goal_in`. Closing a state takes time linear in the task's variables, rules and conditions. It
//! stands on `symk_task`.
#![tactic(auto)]

mod closing;
mod counting;
mod layer;
mod rule_status;
mod rules;
mod run;
mod steps;
mod values;
mod verdict;
mod work;

pub use closing::{closed, closed_by};
pub use counting::Counting;
pub use rules::Rules;
pub use run::{plan_has_one_verdict, run_plan};
pub use steps::{applies, applies_in, goal_holds, goal_in, step, successor, successor_in};
pub use values::Closed;
pub use verdict::Verdict;
