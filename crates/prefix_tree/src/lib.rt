//! Prefixes of plans: a tree that has each once, the states where they end, and a queue of those that may still go on.
//!
//! A prefix in the tree has the one before it, the operator that makes it longer, and the number of the one state where
//! it ends, since operators lead to one state. So a prefix takes the same memory however long it is, and no set: its
//! operators, and the numbers of the states on its way, are read along the ones before. `StateGraph` has each state
//! once, as values of the task's variables, and of a state the moves, which are found once, when the first prefix that
//! ends there goes on. The queue hands out the entry of the least bound, of equal bounds one of the greatest cost, and of
//! those one in the earliest ring. The contracts say which operators a prefix has, whether it passes a state, which moves
//! lead on from a state, and which entries the queue has, for all plans (a prefix runs) and for loopless ones (it passes
//! no state twice besides). Before the first turn the empty prefix alone waits (`empty_prefix`). It stands on `lazy_plans`
//! for what prefixes are, on `space_api` for steps from state to state, on `indexmap` for states by number, and on std's
//! binary heap.
#![tactic(auto)]

mod beginning;
mod ends;
mod entry;
mod moves;
mod queue;
mod state_graph;
mod tree;

pub use beginning::empty_prefix;
pub use ends::goal_after;
pub use entry::{Entry, one_or_none};
pub use moves::{find_moves, number_of_start};
pub use queue::Queue;
pub use state_graph::{Move, StateGraph};
pub use tree::{Node, add, node_at, operators_to, passes};
