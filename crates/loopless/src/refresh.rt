//! What is learned of an entry's bound.

ghost use Rattle.std.specs.Prelude.{◌≡◌, ◌+◌, ◌*◌, ◌-◌, ◌<◌, ◌≤◌, ◌^◌, ◌⊎◌, IsFalse, IfOk};
ghost use Rattle.space_api.specs.View.{View};
ghost use Rattle.cost_search.specs.Directed.{IsBackward};
ghost use Rattle.prefix_tree.specs.StateGraph.{states_of};
ghost use Rattle.prefix_tree.specs.Tree.{IsTree};
ghost use Rattle.symk_task.specs.declared.parts.Mode.TheVariants.{Loopless};
ghost use Rattle.loopless.specs.Rests.{AreKeptRests};
ghost use Rattle.loopless.specs.Told.{IsInformed, Informs};
ghost use Rattle.loopless.specs.Children.{IsEntry};
ghost use Rattle.loopless.specs.Standing.{MovedBackward, IsBetter, stale};

use crate::left::{Heuristic, Left, left_after, left_from};
use crate::rests::Rests;
use backward_search::Backward;
use prefix_tree::{Entry, Node, StateGraph, node_at};
use space_api::{Space, SpaceFault};
use std::alloc::Global;
use std::cmp::Reverse;

/// Settles one cost more of the search back, unless more is known already than the entry's bound says.
fn look_further<S: Space>(
    alloc: Global,
    space: &mut S,
    backward: &mut Backward<S::Set>,
    is_known: bool,
    entry: Entry,
) -> Result<(), SpaceFault>
    requires backward { IsBackward (S.view space.old) backward.old }
    requires least { entry.cost ≤ entry.bound.0 }
    ensures backward { IsBackward (S.view space.new) backward.new }
    ensures moved { MovedBackward (S.view space.old) (S.view space.new) backward.old backward.new }
{
    if is_known || entry.bound.0 - entry.cost < backward.layers().known_below() {
        return Ok(());
    }
    backward.extend(alloc, space)?;
    Ok(())
}

/// The entry with what is known now. Where that is no more than before, nothing more can be learned.
fn improved(entry: Entry, left: Left) -> Entry
    requires open { IsFalse entry.settled }
    requires roomy { entry.cost ≤ (2 ^ 64 - 1) * entry.node }
    requires least { entry.cost ≤ entry.bound.0 }
    requires span { entry.bound.0 ≤ entry.cost + 2 ^ 64 }
    requires small { left.cost ≤ 2 ^ 64 }
    ensures node { result.node ≡ entry.node }
    ensures cost { result.cost ≡ entry.cost }
    ensures at_goal { result.at_goal ≡ entry.at_goal }
    ensures bound { (result.bound.0 ≡ entry.cost + left.cost) ⊎ (result.bound.0 ≡ entry.bound.0) }
    ensures stale { stale result < stale entry }
{
    let bound = entry.cost + left.cost;
    if left.exact {
        return Entry {
            bound: Reverse(bound),
            cost: entry.cost,
            ring: entry.ring,
            node: entry.node,
            settled: true,
            at_goal: entry.at_goal,
        };
    }
    if entry.bound.0 < bound {
        return Entry {
            bound: Reverse(bound),
            cost: entry.cost,
            ring: entry.ring,
            node: entry.node,
            settled: false,
            at_goal: entry.at_goal,
        };
    }
    Entry {
        bound: entry.bound,
        cost: entry.cost,
        ring: entry.ring,
        node: entry.node,
        settled: true,
        at_goal: entry.at_goal,
    }
}

/// The entry with what the search back knows now; None where no plan goes on from it.
fn improve<S: Space>(
    heuristic: &Heuristic<S>,
    rests: &mut Rests,
    tree: &[Node],
    entry: Entry,
) -> Option<Entry>
    requires informed { Informs S.view heuristic.now rests.old }
    requires tree { IsTree (S.view heuristic.now.space.now).system Loopless (states_of heuristic.now.graph.now) tree.now }
    requires entry { IsEntry (S.view heuristic.now.space.now).system tree.now entry }
    requires open { IsFalse entry.settled }
    ensures informed { Informs S.view heuristic.now rests.new }
    ensures better { IsBetter (S.view heuristic.now.space.now).system tree.now entry result }
{
    let low = left_after(entry.bound.0, entry.cost);
    let here = node_at(tree, entry.node);
    match left_from(heuristic, rests, here.state, low) {
        None => None,
        Some(left) => Some(improved(entry, left)),
    }
}

/// The entry with a better bound, after the search back went on where that was needed; None where no plan goes
/// on from it.
pub(crate) fn refresh<S: Space>(
    alloc: Global,
    space: &mut S,
    backward: &mut Backward<S::Set>,
    graph: &StateGraph,
    rests: &mut Rests,
    tree: &[Node],
    entry: Entry,
) -> Result<Option<Entry>, SpaceFault>
    requires informed { IsInformed (S.view space.old) backward.old graph.now rests.old }
    requires tree { IsTree (S.view space.old).system Loopless (states_of graph.now) tree.now }
    requires entry { IsEntry (S.view space.old).system tree.now entry }
    requires open { IsFalse entry.settled }
    ensures backward { IsBackward (S.view space.new) backward.new }
    ensures moved { MovedBackward (S.view space.old) (S.view space.new) backward.old backward.new }
    ensures kept { AreKeptRests (S.view space.old).system (states_of graph.now) rests.new }
    ensures better { IfOk result (IsBetter (S.view space.old).system tree.now entry) }
{
    let here = node_at(tree, entry.node);
    let is_known = rests.at(here.state).is_some();
    look_further(alloc, space, backward, is_known, entry)?;
    let heuristic = Heuristic {
        space,
        backward,
        graph,
    };
    Ok(improve(&heuristic, rests, tree, entry))
}
