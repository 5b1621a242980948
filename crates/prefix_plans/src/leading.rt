//! Whether a plan goes on from a prefix at all.

ghost use Rattle.std.specs.Prelude.{◌<◌, length};
ghost use Rattle.std.specs.Bool.{Decides};
ghost use Rattle.symk_task.specs.declared.parts.Mode.TheVariants.{TopK};
ghost use Rattle.space_api.specs.View.{View, Valid};
ghost use Rattle.prefix_tree.specs.StateGraph.{states_of, IsStateGraph};
ghost use Rattle.prefix_tree.specs.Tree.{IsTree, path_at};
ghost use Rattle.prefix_plans.specs.Leading.{TellsLeading, GoesOnFrom};

use prefix_tree::{Entry, Node, StateGraph, node_at};
use space_api::{Space, has_state};

/// Whether a plan goes on from the entry's prefix: its last state is one of those that lead to the goal.
pub(crate) fn goes_on<S: Space>(
    space: &S,
    leading: S::Set,
    graph: &StateGraph,
    tree: &[Node],
    entry: Entry,
) -> bool
    requires leading { Valid (S.view space.now) leading }
    requires tells { TellsLeading (S.view space.now) leading }
    requires graph { IsStateGraph (S.view space.now).system graph.now }
    requires tree { IsTree (S.view space.now).system TopK (states_of graph.now) tree.now }
    requires inside { entry.node < length tree.now }
    ensures { Decides result (GoesOnFrom (S.view space.now).system (path_at tree.now entry.node)) }
{
    let here = node_at(tree, entry.node);
    has_state(space, leading, graph.state(here.state))
}
