//! Certificates that a task has no plan, checked apart from any search.
//!
//! `check_cert` reads a certificate and says whether the states that it names are inductive, and else which part fails
//! first (`specs/Judging.antt`). Where its text is none, it names the first line at which no certificate can go on so.
//! Where it says yes, no list of operators is a plan, whoever wrote the certificate. It takes one image an operator,
//! and no layer, search or table of a writer. It stands on `certificates` for what a certificate is, on `line_grammar`
//! for reading one, and on `transitions` for images.
#![tactic(auto)]

mod building;
mod checking;
mod fault;
mod judging;
mod reading;
mod room;
mod rows;

pub use checking::check_cert;
pub use fault::CertFault;
pub use judging::{CertPart, CertVerdict};
pub use reading::text_states_one_certificate;
