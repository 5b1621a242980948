//! What turns change.

use crate::given::Given;
use crate::moves::Moves;
use crate::opened::Opened;
use prefix_plans::Ranks;
use prefix_tree::{Node, Queue, StateGraph};

/// Prefixes, those that wait, and those that were opened.
#[derive(Drop)]
pub struct Front<'a> {
    /// The states to which prefixes come.
    pub(crate) graph: StateGraph,
    /// Of some of them the rank.
    pub(crate) ranks: Ranks,
    /// Which of the moves from there are enough.
    pub(crate) moves: Moves<'a>,
    /// The prefixes that were made.
    pub(crate) tree: Vec<Node>,
    /// Those that may go on: the queue at work.
    pub(crate) queue: Queue,
    /// Others that may go on, of prefixes of the other kind.
    pub(crate) other: Queue,
    /// The queue at work is the one of prefixes that go inside a plan that was given.
    pub(crate) is_late: bool,
    /// The plans that were given.
    pub(crate) given: Given,
    /// Those that were opened.
    pub(crate) opened: Opened,
}

ghost use Rattle.std.specs.Prelude.{◌≡◌, ◌<◌, ◌≤◌, [], All, IsTrue, IsFalse, IfSome, IfNone, length, slice_index_or};
ghost use Rattle.prefix_tree.specs.Entries.{queued_entries};
ghost use Rattle.member_plans.specs.Front.{waiting_members, IsAheadOf, Rearranged};

use prefix_tree::Entry;

impl<'a> Front<'a> {
    /// Whether the other queue goes first: its least bound is less, or as great where the queue at work is the late one.
    fn is_other_ahead(&self) -> bool
        ensures yes { IsTrue result → IsAheadOf (queued_entries self.now.other) (queued_entries self.now.queue) }
        ensures no { IsFalse result → IsAheadOf (queued_entries self.now.queue) (queued_entries self.now.other) }
    {
        match (self.queue.first(), self.other.first()) {
            (_, None) => false,
            (None, Some(_)) => true,
            (Some(one), Some(two)) => {
                two.bound.0 < one.bound.0 || (self.is_late && two.bound.0 == one.bound.0)
            }
        }
    }

    /// Puts the queue to work that goes first.
    fn turn(&mut self)
        ensures rearranged { Rearranged self.old self.new }
        ensures ahead { IsAheadOf (queued_entries self.new.queue) (queued_entries self.new.other) }
    {
        if !self.is_other_ahead() {
            return;
        }
        std::mem::swap(&mut self.queue, &mut self.other);
        self.is_late = !self.is_late;
    }

    /// An entry of the least bound of all. The queue that has it as its first one is at work then.
    pub(crate) fn turn_to_first(&mut self) -> Option<Entry>
        ensures rearranged { Rearranged self.old self.new }
        ensures none { IfNone result (waiting_members self.new ≡ []) }
        ensures some { IfSome result (λ e. 0 < length (queued_entries self.new.queue)) }
        ensures first { IfSome result (λ e. e ≡ slice_index_or (queued_entries self.new.queue) 0 e) }
        ensures least { IfSome result (λ e. All (λ k. e.bound.0 ≤ k.bound.0) (waiting_members self.new)) }
    {
        self.turn();
        self.queue.first()
    }
}
