//! The empty prefix, which alone waits before the first turn.

ghost use Rattle.std.specs.Prelude.{IfOk};
ghost use Rattle.space_api.specs.View.{View};
ghost use Rattle.prefix_tree.specs.Entries.{queued_entries};
ghost use Rattle.prefix_tree.specs.EmptyPrefix.{EmptyWaits};

use crate::entry::Entry;
use crate::moves::number_of_start;
use crate::queue::Queue;
use crate::state_graph::StateGraph;
use crate::tree::Node;
use space_api::{Space, goal_at};
use std::alloc::Global;
use std::cmp::Reverse;
use symk_task::Memory;

/// The states, the tree and the queue where the empty prefix alone waits, which ends in the initial state.
pub fn empty_prefix<S: Space>(
    alloc: Global,
    space: &S,
) -> Result<(StateGraph, Vec<Node>, Queue), Memory>
    ensures { IfOk result (λ x. EmptyWaits (S.view space.now).system x.0 x.1.items (queued_entries x.2)) }
{
    let mut graph = StateGraph::new(alloc);
    let start = number_of_start(alloc, space, &mut graph)?;
    let at_goal = goal_at(alloc, space, graph.state(start))?;
    let mut tree = Vec::new(alloc);
    tree.push(Node {
        parent: 0,
        op: 0,
        state: start,
    })?;
    let mut queue = Queue::new(alloc);
    queue.push(Entry {
        bound: Reverse(0),
        cost: 0,
        ring: Reverse(0),
        node: 0,
        settled: false,
        at_goal,
    })?;
    Ok((graph, tree, queue))
}
