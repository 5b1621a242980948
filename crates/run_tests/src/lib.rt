//! Worked rows of tasks and of runs: widths and keys, closed states, steps and plans; tasks that are made, the numbers
//! by which tasks are drawn, and operators that commute, beside their definition.
//!
//! There is no call: tests stand apart from the crates of which they are, so that those are proved once. It
//! stands on `symk_task`, `task_run`, `task_gen`, `task_draws`, `stubborn_sets` and `small_tasks`.
#![tactic(auto)]

#[cfg(test)]
mod numbers;
#[cfg(test)]
mod pairs;
#[cfg(test)]
mod runs;
#[cfg(test)]
mod switches;
#[cfg(test)]
mod tasks;
