//! The children of a prefix.

ghost use Rattle.std.specs.Prelude.{◌≡◌, ◌<◌, IfOk, OnOk, IsSome, length};
ghost use Rattle.symk_task.specs.declared.parts.Mode.TheVariants.{TopK};
ghost use Rattle.space_api.specs.View.{View};
ghost use Rattle.prefix_tree.specs.Tree.{IsTree, GrowsTree, path_at, state_number_at};
ghost use Rattle.prefix_tree.specs.StateGraph.{states_of, moves_at, IsStateGraph};
ghost use Rattle.prefix_tree.specs.Entries.{HasQueueRoom, queued_entries};
ghost use Rattle.prefix_plans.specs.EndChildren.{IsEndEntry};
ghost use Rattle.prefix_plans.specs.Children.{ArePrefixChildren};
ghost use Rattle.prefix_plans.specs.Standing.{PrefixFrontStands};

use crate::front::Front;
use crate::left::Heuristic;
use crate::taking::Taken;
use cost_to_go::CostToGo;
use prefix_tree::{Entry, Node, StateGraph, find_moves, node_at};
use space_api::{Space, SpaceFault};
use std::alloc::Global;

/// Finds the moves from the state where the entry's prefix ends, if they weren't found before, and tells its number.
pub fn find_moves_at<S: Space>(
    alloc: Global,
    space: &S,
    graph: &mut StateGraph,
    tree: &[Node],
    entry: Entry,
) -> Result<usize, SpaceFault>
    requires graph { IsStateGraph (S.view space.now).system graph.old }
    requires tree { IsTree (S.view space.now).system TopK (states_of graph.old) tree.now }
    requires inside { entry.node < length tree.now }
    ensures graph { IsStateGraph (S.view space.now).system graph.new }
    ensures tree { IsTree (S.view space.now).system TopK (states_of graph.new) tree.now }
    ensures number { IfOk result (λ number. number ≡ state_number_at tree.now entry.node) }
    ensures found { OnOk result (IsSome (moves_at graph.new (state_number_at tree.now entry.node))) }
{
    let here = node_at(tree, entry.node);
    find_moves(alloc, space, graph, here.state)?;
    Ok(here.state)
}

/// The children of an entry, which stand in the tree then, and for which the queue has room.
pub(crate) fn expand<S: Space>(
    alloc: Global,
    space: &S,
    search: &CostToGo<S::Set>,
    front: &mut Front,
    entry: Entry,
) -> Result<Vec<Entry>, SpaceFault>
    requires ready { PrefixFrontStands (S.view space.now) search.now front.old }
    requires entry { IsEndEntry (S.view space.now) search.now front.old.tree.items entry }
    ensures graph { IsStateGraph (S.view space.now).system front.new.graph }
    ensures queue { queued_entries front.new.queue ≡ queued_entries front.old.queue }
    ensures grows { GrowsTree (S.view space.now).system TopK (states_of front.new.graph) front.old.tree.items
        front.new.tree.items }
    ensures room { IfOk result (λ kids. HasQueueRoom front.new.queue (length kids.items)) }
    ensures children { IfOk result (λ kids. ArePrefixChildren (S.view space.now) search.now front.new.tree.items
        (path_at front.old.tree.items entry.node) (S.view space.now).system.operators kids.items) }
{
    find_moves_at(alloc, space, &mut front.graph, &front.tree, entry)?;
    let heuristic = Heuristic {
        space,
        search,
        graph: &front.graph,
    };
    let children = front
        .ranks
        .add_children(alloc, &heuristic, &mut front.tree, entry, Taken::All)?;
    front.queue.make_room(children.len())?;
    Ok(children)
}
