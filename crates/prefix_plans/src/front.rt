//! What turns change.

use crate::ranks::Ranks;
use prefix_tree::{Node, Queue, StateGraph};

/// Prefixes, and those that wait.
#[derive(Drop)]
pub struct Front {
    /// The states to which prefixes come.
    pub(crate) graph: StateGraph,
    /// Of some of them the rank.
    pub(crate) ranks: Ranks,
    /// The prefixes that were made.
    pub(crate) tree: Vec<Node>,
    /// Those that may go on.
    pub(crate) queue: Queue,
}
