//! Worked rows of certificates that no plan exists, written and checked.
//!
//! The tests write the certificates of small tasks and compare them with rows that were worked out by hand; and
//! `cert_check` accepts what `cert_out` writes for tasks that seeds draw. What `cert_run` puts into a sink is compared
//! with rows as well. What `cert_check` says of worked certificates, and of those of the states that are reached with a
//! node, the root or a member changed, is compared with what is found by looking at every state of the task. There is
//! no call. It stands on `cert_out`, `cert_check` and `cert_run`, on `task_run` for the states, and on `small_tasks` and
//! `task_draws` for the tasks.
#![tactic(auto)]

#[cfg(test)]
mod accepted;
#[cfg(test)]
mod brute_force;
#[cfg(test)]
mod drafts;
#[cfg(test)]
mod putting;
#[cfg(test)]
mod reached;
#[cfg(test)]
mod spelling;
#[cfg(test)]
mod states;
#[cfg(test)]
mod tests;
#[cfg(test)]
mod verdicts;
