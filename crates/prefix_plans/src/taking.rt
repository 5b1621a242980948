//! The children of a prefix, by all moves from its end or by some.

/// Which moves are taken.
#[derive(Clone, Copy)]
pub enum Taken<'a> {
    /// All.
    All,
    /// Those whose operators are marked. An operator beyond the marks isn't.
    Marked(&'a [bool]),
    /// Those whose operators aren't marked.
    Unmarked(&'a [bool]),
}

ghost use Rattle.std.specs.Prelude.{◌≡◌, false, IfOk, IsSome, slice_index_or};
ghost use Rattle.symk_task.specs.declared.parts.Mode.TheVariants.{TopK};
ghost use Rattle.space_api.specs.View.{View};
ghost use Rattle.prefix_tree.specs.Tree.{GrowsTree, path_at, end_at, state_number_at};
ghost use Rattle.prefix_tree.specs.StateGraph.{states_of, moves_at, AreGraphMoves};
ghost use Rattle.prefix_plans.specs.EndStanding.{EndEntryStands};
ghost use Rattle.prefix_plans.specs.Children.{is_taken, AreChildrenBy};

use crate::left::Heuristic;
use crate::ranks::Ranks;
use prefix_tree::{Entry, Move, Node, node_at};
use space_api::{Space, SpaceFault};
use std::alloc::Global;

/// Whether the operator is marked.
fn is_marked(marks: &[bool], op: u32) -> bool
    ensures { result ≡ slice_index_or marks.now op false }
{
    match marks.get(op as usize) {
        Some(mark) => *mark,
        None => false,
    }
}

/// Whether the move by this operator is taken.
fn takes(taken: Taken<'_>, op: u32) -> bool
    ensures { result ≡ is_taken taken.entry op }
{
    match taken {
        Taken::All => true,
        Taken::Marked(marks) => is_marked(marks, op),
        Taken::Unmarked(marks) => !is_marked(marks, op),
    }
}

impl Ranks {
    /// Adds the children by those of the moves from the end of the entry's prefix that are taken to the tree, and tells
    /// them. Out of memory, it leaves what came so far.
    fn add_by_moves<S: Space>(
        &mut self,
        alloc: Global,
        heuristic: &Heuristic<S>,
        tree: &mut Vec<Node>,
        entry: Entry,
        moves: &[Move],
        taken: Taken<'_>,
    ) -> Result<Vec<Entry>, SpaceFault>
        requires stands { EndEntryStands (S.view heuristic.now.space.now) heuristic.now.search.now
            heuristic.now.graph.now tree.old.items entry }
        requires moves { AreGraphMoves (S.view heuristic.now.space.now).system (states_of heuristic.now.graph.now)
            (end_at (states_of heuristic.now.graph.now) tree.old.items entry.node) moves.now }
        ensures grows { GrowsTree (S.view heuristic.now.space.now).system TopK (states_of heuristic.now.graph.now)
            tree.old.items tree.new.items }
        ensures children { IfOk result (λ kids. AreChildrenBy (S.view heuristic.now.space.now)
            heuristic.now.search.now tree.new.items (path_at tree.old.items entry.node) (is_taken taken.entry)
            (S.view heuristic.now.space.now).system.operators kids.items) }
    {
        let mut children = Vec::new(alloc);
        'moves: for step in moves {
            if !takes(taken, step.op) {
                continue;
            }
            self.add_child(alloc, heuristic, tree, entry, *step, &mut children)?;
        }
        Ok(children)
    }

    /// The same, where the moves were found.
    pub fn add_children<S: Space>(
        &mut self,
        alloc: Global,
        heuristic: &Heuristic<S>,
        tree: &mut Vec<Node>,
        entry: Entry,
        taken: Taken<'_>,
    ) -> Result<Vec<Entry>, SpaceFault>
        requires stands { EndEntryStands (S.view heuristic.now.space.now) heuristic.now.search.now
            heuristic.now.graph.now tree.old.items entry }
        requires found { IsSome (moves_at heuristic.now.graph.now (state_number_at tree.old.items entry.node)) }
        ensures grows { GrowsTree (S.view heuristic.now.space.now).system TopK (states_of heuristic.now.graph.now)
            tree.old.items tree.new.items }
        ensures children { IfOk result (λ kids. AreChildrenBy (S.view heuristic.now.space.now)
            heuristic.now.search.now tree.new.items (path_at tree.old.items entry.node) (is_taken taken.entry)
            (S.view heuristic.now.space.now).system.operators kids.items) }
    {
        let here = node_at(tree, entry.node);
        match heuristic.graph.moves_of(here.state) {
            None => unreachable!(),
            Some(moves) => self.add_by_moves(alloc, heuristic, tree, entry, moves, taken),
        }
    }
}
