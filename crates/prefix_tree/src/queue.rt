//! A queue of prefixes.

mod calls;

ghost use Rattle.std.specs.BinaryHeap.{IsHeap, heap_items};
ghost use Rattle.std.proofs.Props.{props};
ghost use Rattle.prefix_tree.specs.Order.{queue_order};

use crate::entry::Entry;
use std::collections::BinaryHeap;

/// A queue of prefixes, a binary heap (J. W. J. Williams, 1964). The first is one of the least bound, of those
/// one of the greatest cost, and of those one in the earliest ring.
#[derive(Drop)]
pub struct Queue {
    heap: BinaryHeap<Entry>,
    ghost ordered: { IsHeap queue_order (heap_items heap) } by { Prim.hlevel props },
}
