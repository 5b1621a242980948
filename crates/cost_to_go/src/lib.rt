//! The cost to go: what is left from a state to the goal, by a search from both ends.
//!
//! A `CostToGo` goes back from the goal states by the ranks of `goal_ranks`, and ahead from the initial state by its
//! least costs, by turns: the side goes on that was less work for each unit of cost, until the two have met; then what
//! is ahead stays as it is, and the ranks go on alone. So a state has a rank, which is its least cost to the goal, or
//! the least key of what waits bounds what a plan through it costs. Each useful state may have a rank: so both hold of
//! any list of operators from a state that is reached. Each step leaves fewer steps. It stands on `goal_ranks` for
//! ranks, keys and the search ahead, and on `space_api` for sets.
//!
//! Search from both ends by costs: T. A. J. Nicholson (1966); the keys of one side that look at the other: H. Kaindl and
//! G. Kainz (1997).
#![tactic(auto)]

mod beginning;
mod search;
mod spells;
mod steering;
mod stepping;
mod telling;

pub use goal_ranks::Rank;
pub use search::CostToGo;
