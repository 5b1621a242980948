//! The graph of a task's runs: when layers by cost are right, and when ranks by keys are, once for both directions.
//!
//! A graph has a start, a finish, and arcs with costs; backward search is forward search on the turned graph. The
//! definitions in `specs/` say what a walk is, when layers of states by cost are sound and settled below a cost, when a
//! layer is right with its rings, and when a set is shut. The laws: layers that keep a few local facts are right; one
//! more cost can be settled; layers may be cut to the useful states; a shut set has all that walks reach; and each of
//! these, on either side, in the words of the system: reached at a cost, to the goal at a cost, useful.
//!
//! A search may also rank sets of states, from the initial state or from the goal, each state once and at its least
//! cost. What waits to be ranked has a key: no more than its cost and the least cost between it and the other end, as
//! far as a search from there tells it (the key of A*; Hart, Nilsson and Raphael, 1968). `specs/Ranks.antt` says what
//! right ranks and keys are. The laws: a ranked state's cost is its least; the least key bounds what any run costs,
//! from one end to the other, through a state that has no rank; states that wait under it, if it is their cost and what
//! lies between them and the other end, may be ranked next; what waits may be told anew; and the search from the other
//! end may go on meanwhile.
//!
//! It has no algorithm. It stands on `task_system` for the system, and on `space_api` for the laws of its runs.
#![tactic(auto)]

mod laws;
mod ranks;

pub use laws::{
    closed_layers_are_shut, narrowing_keeps_layers, one_more_cost_is_settled,
    right_layers_are_the_systems, settled_layers_are_right, shut_sets_have_all,
};
pub use ranks::{
    keys_bound_runs, one_more_rank_is_right, other_end_may_go_on, ranks_are_least_costs,
    waiting_may_be_told_anew,
};

/// Direction of a search: along the operators from the initial state, or against them from the goal states.
#[derive(Clone, Copy, Debug, PartialEq, Eq)]
pub enum Side {
    Ahead,
    Back,
}

/// Duplicate detection, which layers a state stands in: that of each cost that reaches it, or that of the least such
/// cost alone.
#[derive(Clone, Copy, Debug, PartialEq, Eq)]
pub enum Kind {
    Every,
    Least,
}
