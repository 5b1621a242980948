//! What turns change.

use crate::rests::Rests;
use prefix_tree::{Node, Queue, StateGraph};

/// Prefixes, those that may go on, and where they end.
#[derive(Drop)]
pub struct Front {
    /// The states to which prefixes come.
    pub(crate) graph: StateGraph,
    /// What is known for good of what is left from them.
    pub(crate) rests: Rests,
    /// The prefixes that were made.
    pub(crate) tree: Vec<Node>,
    /// Those that may go on.
    pub(crate) queue: Queue,
}
