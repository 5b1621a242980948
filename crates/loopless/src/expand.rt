//! The children of a prefix.

ghost use Rattle.std.specs.Prelude.{◌≡◌, ℕ, ◌+◌, ◌<◌, ◌≤◌, ◌*◌, ◌-◌, ◌^◌, [], IfOk, OnOk, length};
ghost use Rattle.space_api.specs.View.{View};
ghost use Rattle.prefix_tree.specs.Tree.{IsTree, GrowsTree, path_at, end_at};
ghost use Rattle.prefix_tree.specs.StateGraph.{states_of, IsGraphMove, AreGraphMoves};
ghost use Rattle.prefix_tree.specs.Entries.{HasQueueRoom};
ghost use Rattle.symk_task.specs.declared.parts.Mode.TheVariants.{Loopless};
ghost use Rattle.loopless.specs.Told.{Informs};
ghost use Rattle.loopless.specs.Children.{IsEntry, AddsLooplessChild, AreChildren};
ghost use Rattle.loopless.specs.Standing.{IsLooplessReady, IsGrown};

use crate::front::Front;
use crate::left::{Heuristic, left_after};
use crate::reach::reach;
use crate::rests::Rests;
use backward_search::Backward;
use prefix_tree::{Entry, Move, Node, add, find_moves, node_at};
use space_api::{Space, SpaceFault};
use std::alloc::Global;
use std::cmp::Reverse;

/// The entry of a prefix at this place of the tree.
fn entry_of(cost: u128, left: u128, node: usize, settled: bool, at_goal: bool) -> Entry
    requires cost { cost ≤ (2 ^ 64 - 1) * node }
    requires left { left ≤ 2 ^ 64 }
    ensures bound { result.bound.0 ≡ cost + left }
    ensures cost { result.cost ≡ cost }
    ensures node { result.node ≡ node }
    ensures at_goal { result.at_goal ≡ at_goal }
{
    Entry {
        bound: Reverse(cost + left),
        cost,
        ring: Reverse(0),
        node,
        settled,
        at_goal,
    }
}

/// Adds the child by this move to the tree and to the children, where a loopless plan may go on so. Out of memory, it
/// leaves the children as they were.
fn add_child<S: Space>(
    alloc: Global,
    heuristic: &Heuristic<S>,
    rests: &mut Rests,
    tree: &mut Vec<Node>,
    entry: Entry,
    step: Move,
    children: &mut Vec<Entry>,
) -> Result<(), SpaceFault>
    requires informed { Informs S.view heuristic.now rests.old }
    requires tree { IsTree (S.view heuristic.now.space.now).system Loopless (states_of heuristic.now.graph.now)
        tree.old.items }
    requires entry { IsEntry (S.view heuristic.now.space.now).system tree.old.items entry }
    requires step { IsGraphMove (S.view heuristic.now.space.now).system (states_of heuristic.now.graph.now)
        (end_at (states_of heuristic.now.graph.now) tree.old.items entry.node) step }
    ensures informed { Informs S.view heuristic.now rests.new }
    ensures grows { GrowsTree (S.view heuristic.now.space.now).system Loopless (states_of heuristic.now.graph.now)
        tree.old.items tree.new.items }
    ensures added { OnOk result (AddsLooplessChild (S.view heuristic.now.space.now).system tree.new.items
        (path_at tree.old.items entry.node) step.op children.old.items children.new.items) }
{
    let cost = entry.cost + heuristic.space.cost_of(step.op) as u128;
    let low = left_after(entry.bound.0, cost);
    match reach(alloc, heuristic, rests, tree, entry.node, step, low)? {
        None => Ok(()),
        Some(to) => {
            let node = add(tree, entry.node, step.op, step.to)?;
            children.push(entry_of(cost, to.left.cost, node, to.left.exact, to.at_goal))?;
            Ok(())
        }
    }
}

/// Adds the children by all moves from the end of the entry's prefix to the tree and to the children. Out of memory, it
/// leaves what came so far.
fn add_all<S: Space>(
    alloc: Global,
    heuristic: &Heuristic<S>,
    rests: &mut Rests,
    tree: &mut Vec<Node>,
    entry: Entry,
    moves: &[Move],
    children: &mut Vec<Entry>,
) -> Result<(), SpaceFault>
    requires informed { Informs S.view heuristic.now rests.old }
    requires tree { IsTree (S.view heuristic.now.space.now).system Loopless (states_of heuristic.now.graph.now)
        tree.old.items }
    requires entry { IsEntry (S.view heuristic.now.space.now).system tree.old.items entry }
    requires moves { AreGraphMoves (S.view heuristic.now.space.now).system (states_of heuristic.now.graph.now)
        (end_at (states_of heuristic.now.graph.now) tree.old.items entry.node) moves.now }
    requires none { children.old.items ≡ [] }
    ensures informed { Informs S.view heuristic.now rests.new }
    ensures grows { GrowsTree (S.view heuristic.now.space.now).system Loopless (states_of heuristic.now.graph.now)
        tree.old.items tree.new.items }
    ensures children { OnOk result (AreChildren (S.view heuristic.now.space.now).system tree.new.items
        (path_at tree.old.items entry.node) (S.view heuristic.now.space.now).system.operators children.new.items) }
{
    'moves: for step in moves {
        add_child(alloc, heuristic, rests, tree, entry, *step, children)?;
    }
    Ok(())
}

/// The children of an entry, which stand in the tree then, and for which the queue has room.
pub(crate) fn expand<S: Space>(
    alloc: Global,
    space: &S,
    backward: &Backward<S::Set>,
    front: &mut Front,
    entry: Entry,
) -> Result<Vec<Entry>, SpaceFault>
    requires ready { IsLooplessReady (S.view space.now) backward.now front.old }
    requires entry { IsEntry (S.view space.now).system front.old.tree.items entry }
    ensures grown { IsGrown (S.view space.now).system front.old front.new }
    ensures room { IfOk result (λ kids. HasQueueRoom front.new.queue (length kids.items)) }
    ensures children { IfOk result (λ kids. AreChildren (S.view space.now).system front.new.tree.items
        (path_at front.old.tree.items entry.node) (S.view space.now).system.operators kids.items) }
{
    let here = node_at(&front.tree, entry.node);
    find_moves(alloc, space, &mut front.graph, here.state)?;
    let mut children = Vec::new(alloc);
    match front.graph.moves_of(here.state) {
        None => unreachable!(),
        Some(moves) => {
            let heuristic = Heuristic {
                space,
                backward,
                graph: &front.graph,
            };
            add_all(
                alloc,
                &heuristic,
                &mut front.rests,
                &mut front.tree,
                entry,
                moves,
                &mut children,
            )?;
            front.queue.make_room(children.len())?;
            Ok(children)
        }
    }
}
