//! Lists of plans, put into a sink one by one: from an engine to a status.
//!
//! `list_reached` lists the plans of a task in a mode, up to a cost where one is wanted, and `list_found` also those
//! that an earlier list lacks. Each block is put as one piece, with one flush, before the next plan is asked for, and
//! then the line that says why the list ends. Whichever the engine is, a list is right by the law of lazy plans
//! alone: with the earlier plans it is the cheapest plans of the mode, each once, by cost, and the end is the true
//! one; where the earlier list misses a plan, the cheapest one is named and nothing is listed. How plans are searched
//! for changes none of this: neither the direction nor whether the mutex groups that are shown inductive cut the
//! search. It stands on the engines (`reconstruct`, `prefix_plans`, `loopless`), the selectors (`selectors`), the space on diagrams
//! (`bdd_space`), the groups (`mutex_use`), and the texts of blocks (`plan_out`), and it is a crate by itself so that
//! what holds of these engines over this space is proved once, below the program.
#![tactic(auto)]

mod beginning;
mod choice;
mod costs;
mod earlier;
mod engines;
mod job;
mod options;
mod planning;
mod reaching;
mod width;

pub use costs::{Costs, SHOWN, costs_found};
pub use earlier::Earlier;
pub use engines::list_found;
pub use job::Job;
pub use options::{Direction, Reach, Search, Wanted};
pub use reaching::list_reached;
