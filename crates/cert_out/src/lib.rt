//! Certificates that a task has no plan, written.
//!
//! `write_cert` closes the initial state under the operators, over sets of states that are decision diagrams, and
//! stops where the goal holds in one. Where it never does, the closed set is inductive, and its diagram, rebuilt
//! over the bits in the order of the file, is the certificate. It promises a certificate exactly where the task has
//! no plan, in canonical numbers, with nothing to spare. It stands on `reached_states` and `bdd_space` for the
//! closure, on `certificates` for the nodes, and on `sas_writer` for texts that are made of lines.
#![tactic(auto)]

mod closing;
mod text;
mod writing;

pub use writing::write_cert;
