//! How a run ends: its status, the text that goes out with it, and the causes.
//!
//! `Status` has a value for each way in which the program ends, and `code` is its exit status. `end` puts the
//! text that ends a run, and `end_with` one that had to be made: the whole text goes out under its status, or a
//! part of it, and then the status says why. `specs/Ends.antt` says that, and `specs/Sent.antt` what a sink
//! took piece by piece. It stands on `symk_io` for the sink and `symk_text` for texts, and is a crate by itself
//! so that what lists plans and what judges certificates end alike, though neither stands on the other.
#![tactic(auto)]

mod ending;
mod status;

pub use ending::{end, end_with, status_of};
pub use status::Status;
