//! The children of a prefix.

ghost use Rattle.std.specs.Prelude.{◌≡◌, ◌++◌, IfOk, IsSome, length};
ghost use Rattle.symk_task.specs.declared.parts.Mode.TheVariants.{TopK};
ghost use Rattle.space_api.specs.View.{View};
ghost use Rattle.stubborn_sets.specs.Stubborn.{Stubborn};
ghost use Rattle.stubborn_sets.specs.Closing.{has_mark};
ghost use Rattle.cost_to_go.specs.Standing.{IsCostToGo};
ghost use Rattle.prefix_tree.specs.Tree.{IsTree, GrowsTree, path_at, end_at, state_number_at};
ghost use Rattle.prefix_tree.specs.StateGraph.{states_of, moves_at, IsStateGraph};
ghost use Rattle.prefix_tree.specs.Entries.{HasQueueRoom, queued_entries};
ghost use Rattle.prefix_plans.specs.EndChildren.{IsEndEntry};
ghost use Rattle.prefix_plans.specs.EndStanding.{EndEntryStands};
ghost use Rattle.member_plans.specs.Moves.{Serves};
ghost use Rattle.member_plans.specs.Children.{AreEnough};

use crate::front::Front;
use crate::nearer::is_one_nearer;
use cost_to_go::CostToGo;
use prefix_plans::{Heuristic, Ranks, Taken, find_moves_at};
use prefix_tree::{Entry, Node};
use space_api::{Space, SpaceFault};
use std::alloc::Global;

/// The children by the moves whose operators are marked; and by the others too where none of these is nearer to a plan,
/// so that circles that cost nothing don't put off what is nearer for ever.
fn add_enough<S: Space>(
    alloc: Global,
    heuristic: &Heuristic<S>,
    ranks: &mut Ranks,
    tree: &mut Vec<Node>,
    entry: Entry,
    marks: &[bool],
) -> Result<Vec<Entry>, SpaceFault>
    requires stands { EndEntryStands (S.view heuristic.now.space.now) heuristic.now.search.now
        heuristic.now.graph.now tree.old.items entry }
    requires found { IsSome (moves_at heuristic.now.graph.now (state_number_at tree.old.items entry.node)) }
    requires marks { Stubborn (S.view heuristic.now.space.now).system (has_mark marks.now)
        (end_at (states_of heuristic.now.graph.now) tree.old.items entry.node) }
    ensures grows { GrowsTree (S.view heuristic.now.space.now).system TopK (states_of heuristic.now.graph.now)
        tree.old.items tree.new.items }
    ensures children { IfOk result (λ kids. AreEnough (S.view heuristic.now.space.now) heuristic.now.search.now
        tree.new.items (path_at tree.old.items entry.node)
        (end_at (states_of heuristic.now.graph.now) tree.old.items entry.node) kids.items) }
{
    let mut children = ranks.add_children(alloc, heuristic, tree, entry, Taken::Marked(marks))?;
    if is_one_nearer(&children, entry) {
        return Ok(children);
    }
    let others = ranks.add_children(alloc, heuristic, tree, entry, Taken::Unmarked(marks))?;
    children.extend_from_slice(&others)?;
    Ok(children)
}

impl<'a> Front<'a> {
    /// The children of an entry that are enough, which stand in the tree then.
    fn children_of<S: Space>(
        &mut self,
        alloc: Global,
        space: &S,
        search: &CostToGo<S::Set>,
        entry: Entry,
    ) -> Result<Vec<Entry>, SpaceFault>
        requires search { IsCostToGo (S.view space.now) search.now }
        requires graph { IsStateGraph (S.view space.now).system self.old.graph }
        requires serves { Serves self.old.moves (S.view space.now).system }
        requires tree { IsTree (S.view space.now).system TopK (states_of self.old.graph) self.old.tree.items }
        requires entry { IsEndEntry (S.view space.now) search.now self.old.tree.items entry }
        ensures graph { IsStateGraph (S.view space.now).system self.new.graph }
        ensures serves { Serves self.new.moves (S.view space.now).system }
        ensures queue { queued_entries self.new.queue ≡ queued_entries self.old.queue }
        ensures other { queued_entries self.new.other ≡ queued_entries self.old.other }
        ensures opened { self.new.opened ≡ self.old.opened }
        ensures grows { GrowsTree (S.view space.now).system TopK (states_of self.new.graph) self.old.tree.items
            self.new.tree.items }
        ensures children { IfOk result (λ kids. AreEnough (S.view space.now) search.now self.new.tree.items
            (path_at self.old.tree.items entry.node)
            (end_at (states_of self.new.graph) self.old.tree.items entry.node) kids.items) }
    {
        let number = find_moves_at(alloc, space, &mut self.graph, &self.tree, entry)?;
        let state = self.graph.state(number);
        self.moves.find_marks(alloc, number, state)?;
        let marks = self.moves.marks_of(number);
        let heuristic = Heuristic {
            space,
            search,
            graph: &self.graph,
        };
        add_enough(
            alloc,
            &heuristic,
            &mut self.ranks,
            &mut self.tree,
            entry,
            marks,
        )
    }

    /// The children of an entry that are enough, which stand in the tree then: those of the kind of the queue at work,
    /// for which that queue has room, and those for which the other has.
    pub(crate) fn expand<S: Space>(
        &mut self,
        alloc: Global,
        space: &S,
        search: &CostToGo<S::Set>,
        entry: Entry,
    ) -> Result<(Vec<Entry>, Vec<Entry>), SpaceFault>
        requires search { IsCostToGo (S.view space.now) search.now }
        requires graph { IsStateGraph (S.view space.now).system self.old.graph }
        requires serves { Serves self.old.moves (S.view space.now).system }
        requires tree { IsTree (S.view space.now).system TopK (states_of self.old.graph) self.old.tree.items }
        requires entry { IsEndEntry (S.view space.now) search.now self.old.tree.items entry }
        ensures graph { IsStateGraph (S.view space.now).system self.new.graph }
        ensures serves { Serves self.new.moves (S.view space.now).system }
        ensures queue { queued_entries self.new.queue ≡ queued_entries self.old.queue }
        ensures other { queued_entries self.new.other ≡ queued_entries self.old.other }
        ensures opened { self.new.opened ≡ self.old.opened }
        ensures grows { GrowsTree (S.view space.now).system TopK (states_of self.new.graph) self.old.tree.items
            self.new.tree.items }
        ensures here { IfOk result (λ kids. HasQueueRoom self.new.queue (length kids.0.items)) }
        ensures there { IfOk result (λ kids. HasQueueRoom self.new.other (length kids.1.items)) }
        ensures children { IfOk result (λ kids. AreEnough (S.view space.now) search.now self.new.tree.items
            (path_at self.old.tree.items entry.node)
            (end_at (states_of self.new.graph) self.old.tree.items entry.node) (kids.0.items ++ kids.1.items)) }
    {
        let children = self.children_of(alloc, space, search, entry)?;
        let (here, there) = self
            .given
            .part(alloc, &self.tree, entry.node, &children, self.is_late)?;
        self.queue.make_room(here.len())?;
        self.other.make_room(there.len())?;
        Ok((here, there))
    }
}
