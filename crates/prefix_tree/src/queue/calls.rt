//! What a queue of prefixes does.

ghost use Rattle.std.specs.Prelude.{◌≡◌, ◌+◌, ◌<◌, ◌≤◌, ◌∷◌, ◌++◌, [], All, IfSome, IfNone, IfOk, OnOk, OnErr, IsPermutation, drop, slice_index_or, length};
ghost use Rattle.std.specs.BinaryHeap.{IsHeap, heap_items, heap_len, heap_capacity};
ghost use Rattle.prefix_tree.specs.Entries.{queued_entries, HasQueueRoom};
ghost use Rattle.prefix_tree.specs.Order.{IsNoLater, queue_order};

use crate::entry::Entry;
use crate::queue::Queue;
use lazy_plans::Steps;
use std::alloc::{AllocError, Global};
use std::collections::BinaryHeap;
use std::sync::ledger::Ledger;

/// Puts the entry in the place of the first one, from where it goes down as far as others go before it.
fn put_first(heap: &mut BinaryHeap<Entry>, entry: Entry)
    requires some { 0 < heap_len heap.old }
    ensures items { IsPermutation (entry ∷ drop 1 (heap_items heap.old)) (heap_items heap.new) }
    ensures order { IsHeap queue_order (heap_items heap.old) → IsHeap queue_order (heap_items heap.new) }
    ensures len { heap_len heap.new ≡ heap_len heap.old }
    ensures capacity { heap_capacity heap.new ≡ heap_capacity heap.old }
{
    let mut top = heap.peek_mut().unwrap();
    *top = entry;
}

impl Queue {
    /// No entry.
    pub fn new(alloc: Global) -> Queue
        ensures { queued_entries result ≡ [] }
    {
        Queue {
            heap: BinaryHeap::new(alloc),
        }
    }

    /// Puts one entry more in.
    pub fn push(&mut self, entry: Entry) -> Result<(), AllocError>
        ensures ok { OnOk result (IsPermutation (entry ∷ queued_entries self.old) (queued_entries self.new)) }
        ensures err { OnErr result (queued_entries self.new ≡ queued_entries self.old) }
    {
        self.heap.push(entry)?;
        Ok(())
    }

    /// The first entry, one of the least bound, and of those one that no other goes before. It stays.
    pub fn first(&self) -> Option<Entry>
        ensures none { IfNone result (queued_entries self.now ≡ []) }
        ensures some { IfSome result (λ e. 0 < length (queued_entries self.now)) }
        ensures at { IfSome result (λ e. e ≡ slice_index_or (queued_entries self.now) 0 e) }
        ensures least { IfSome result (λ e. All (λ x. e.bound.0 ≤ x.bound.0) (queued_entries self.now)) }
        ensures order { IfSome result (λ e. All (IsNoLater e) (queued_entries self.now)) }
    {
        match self.heap.peek() {
            None => None,
            Some(entry) => Some(*entry),
        }
    }

    /// Finds memory for so many entries more, which `replace` then needs no more.
    pub fn make_room(&mut self, more: usize) -> Result<(), AllocError>
        ensures same { queued_entries self.new ≡ queued_entries self.old }
        ensures ok { OnOk result (HasQueueRoom self.new more) }
    {
        self.heap.reserve(more)
    }

    /// One turn: takes the first entry out, puts the others in, and counts one step. It takes no memory.
    ///
    /// No other call takes an entry out, but for `join`, which hands all of them to another queue: so the steps that are
    /// counted are the turns of both queues.
    pub fn replace<L: Ledger>(&mut self, others: Vec<Entry>, steps: &mut Steps<L>)
        requires some { 0 < length (queued_entries self.old) }
        requires room { HasQueueRoom self.old (length others.items) }
        ensures replaces { (e : Entry) → e ≡ slice_index_or (queued_entries self.old) 0 e
            → IsPermutation (queued_entries self.old ++ others.items) (e ∷ queued_entries self.new) }
        ensures steps { steps.new ≡ steps.old + 1 }
    {
        steps.tick();
        let mut others = BinaryHeap::from(others);
        match others.pop() {
            None => {
                let _ = self.heap.pop();
            }
            Some(next) => {
                put_first(&mut self.heap, next);
                let _ = self.heap.append(&mut others);
            }
        }
    }

    /// Puts these entries in. It takes no memory.
    pub fn add(&mut self, others: Vec<Entry>)
        requires room { HasQueueRoom self.old (length others.items) }
        ensures { IsPermutation (queued_entries self.old ++ others.items) (queued_entries self.new) }
    {
        let mut others = BinaryHeap::from(others);
        let _ = self.heap.append(&mut others);
    }

    /// Puts all entries of the other queue in, which has none then. Out of memory, it leaves both.
    pub fn join(&mut self, other: &mut Queue) -> Result<(), AllocError>
        ensures ok { OnOk result (IsPermutation (queued_entries self.old ++ queued_entries other.old)
            (queued_entries self.new)) }
        ensures none { OnOk result (queued_entries other.new ≡ []) }
        ensures err { OnErr result (queued_entries self.new ≡ queued_entries self.old) }
        ensures same { OnErr result (queued_entries other.new ≡ queued_entries other.old) }
    {
        self.heap.append(&mut other.heap)
    }
}
