//! Search from both ends, and the cuts of the plans of one cost.
//!
//! A `Both` holds a search from the initial state and one from the goal states, and chooses which goes on. Below f
//! the forward layers are right, below b the backward ones, so that the plans that cost less than f + b are known:
//! each has one cut, where the layers meet. `advance` names the least cost of a plan above a given one, or tells that
//! the next plan costs more than 64 bits hold, or that there is none; `next_cut` names the cuts of one cost, in
//! order, `cuts` iterates over them, and `next_cuts` names all at once that leave the same cost. Where one search
//! tells that no operator leads out of its layers, the useful states are found inside them, once, and both searches
//! are cut to these; so both end by themselves where the plans do. Sets that a call makes and doesn't keep are given
//! back. After a fault both bounds and the right layers stand. It stands on `forward_search` and `backward_search`
//! for the layers, on `cost_layers` for the useful states, on `plan_cuts` for what a cut is, on `space_api` for
//! sets, and on `task_system` for states.
//!
//! Symbolic search from both ends for all cheapest plans by cost, each plan read from one cut: Á. Torralba (2015);
//! D. Speck, R. Mattmüller and B. Nebel (2020).
#![tactic(auto)]

mod choose;
mod crossing;
mod cutting;
mod iterating;
mod landing;
mod passing;
mod search;
mod sides;

pub use choose::{AlwaysBackward, AlwaysForward, Choice, Choose, Lighter, Lower};
pub use iterating::Cuts;
pub use plan_cuts::Cut;
pub use search::{Both, Next, Within};
