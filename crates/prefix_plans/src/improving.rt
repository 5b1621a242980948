//! Entries whose last state had no rank.

ghost use Rattle.symk_task.specs.declared.parts.Mode.TheVariants.{TopK};
ghost use Rattle.space_api.specs.View.{View};
ghost use Rattle.prefix_tree.specs.StateGraph.{states_of, IsStateGraph};
ghost use Rattle.prefix_tree.specs.Tree.{IsTree};
ghost use Rattle.cost_to_go.specs.Standing.{IsCostToGo};
ghost use Rattle.prefix_plans.specs.EndChildren.{IsEndEntry};
ghost use Rattle.prefix_plans.specs.EndStanding.{IsBetterEnd};

use crate::children::entry_of;
use crate::left::{Heuristic, left_after, left_from};
use crate::ranks::Ranks;
use prefix_tree::{Entry, Node, node_at};
use space_api::Space;

/// The entry with what the search knows now; None where no plan goes on from it.
pub(crate) fn improve<S: Space>(
    heuristic: &Heuristic<S>,
    ranks: &mut Ranks,
    tree: &[Node],
    entry: Entry,
) -> Option<Entry>
    requires search { IsCostToGo (S.view heuristic.now.space.now) heuristic.now.search.now }
    requires graph { IsStateGraph (S.view heuristic.now.space.now).system heuristic.now.graph.now }
    requires tree { IsTree (S.view heuristic.now.space.now).system TopK (states_of heuristic.now.graph.now) tree.now }
    requires entry { IsEndEntry (S.view heuristic.now.space.now) heuristic.now.search.now tree.now entry }
    ensures { IsBetterEnd (S.view heuristic.now.space.now) heuristic.now.search.now tree.now entry result }
{
    let low = left_after(entry.bound.0, entry.cost);
    let here = node_at(tree, entry.node);
    let state = heuristic.graph.state(here.state);
    let (cost, first) = (entry.cost, entry.ring.0);
    match left_from(heuristic, ranks, state, here.state, cost, first, low) {
        None => None,
        Some(left) => Some(entry_of(cost, left, entry.node, entry.at_goal)),
    }
}
