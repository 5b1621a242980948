//! The search by least costs from one side, and states ranked by their least cost to the goal, by keys.
//!
//! A `LeastCosts` settles states by their least cost, ahead from the initial state or back from the goal states: each
//! state stands in one ring, at its least cost, and no state outside the rings is reached at a cost below `next_cost`.
//! From each settled state a way leads on by earlier rings, at the cost between them. A step takes one open cost out,
//! and opens others only where it settles a state: so there are at most as many steps as states times different costs
//! of operators, and one more, however wide the costs are. Costs past 64 bits are told. It is the search of
//! `cost_search` with each state kept once (E. W. Dijkstra, 1959; over sets of states S. Edelkamp and F. Reffel, 1998).
//!
//! A `GoalRanks` goes back from the goal states and ranks sets of states, each state once and at its least cost. What
//! waits to be ranked has a key: no more than its cost to the goal and the least cost from the initial state to it, as
//! far as a `LeastCosts` ahead tells it (the key of A*; Hart, Nilsson and Raphael, 1968; over sets of states Edelkamp
//! and Reffel, 1998). The least key comes first; so no plan through a state without a rank costs less than it. It
//! stands in front of a heap beside each list, in which a key that has grown since stays until it comes up. What
//! operators of a cost lead to is made when a key comes to it, and not before. The search ahead may go on at any time,
//! or stop, as where both have met.
//!
//! It stands on `run_graph` for what right layers and ranks are, on `cost_search` and `cost_layers` for steps over sets
//! and for the rings, on `space_api` for sets, and on std's binary heap.
#![tactic(auto)]

mod agenda;
mod arcs;
mod least;
mod lists;
mod lookup;
mod nearness;
mod parts;
mod release;
mod rings;
mod search;
mod slots;
mod steps;
mod telling;
mod turning;
mod unions;

pub use cost_search::Step;
pub use least::LeastCosts;
pub use lookup::Rank;
pub use nearness::ahead_of;
pub use parts::Waiting;
pub use rings::Rings;
pub use run_graph::Side;
pub use search::GoalRanks;
pub use telling::{Part, bound_ahead, divide};
pub use turning::Turn;
