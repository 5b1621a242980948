//! Certificates that a task has no plan, put into a sink: written under a status, or checked.
//!
//! `prove` puts a certificate where the task has no plan, and says that it has one where it has. `refute` puts what a
//! certificate shows, whoever wrote it: that no plan exists, the first part of being inductive that it doesn't show,
//! or the first line at which no certificate can go on so (`specs/Proofs.antt`). Each puts one piece, under the
//! status that goes with it, and where `refute` says that no plan exists no list of operators is a plan. `prove`
//! stands on `cert_out`, which searches. `refute` stands on `cert_check`, which doesn't, and takes nothing from the
//! search that stands beside it. Both end by `run_status`.
#![tactic(auto)]

mod laws;
mod proving;
mod refuting;

pub use laws::refuted_tasks_have_no_plan;
pub use proving::prove;
pub use refuting::refute;
