//! Keys of a list's items.

/// Where the least key stands, and which it is.
#[derive(Clone, Copy, Debug)]
pub(crate) struct Least {
    pub(crate) index: usize,
    pub(crate) key: u128,
}

ghost use Rattle.std.specs.Prelude.{◌≡◌, ◌↔◌, ℕ, IsTrue, Option, Some};
ghost use Rattle.goal_ranks.specs.Lists.{LesserOf, present_key, slot_key, arcs_key};

use crate::parts::{Ranked, Waiting};

/// What may have a key.
pub(crate) trait Keyed {
    ghost key_of: { Self → Option ℕ };

    fn key(&self) -> Option<u128>
        ensures { result ≡ key_of self.now };

    /// What its states cost to the goal. Of those with one key the greatest is nearest to the initial state.
    fn cost(&self) -> u64;
}

impl<T: Copy> Keyed for Option<Waiting<T>> {
    ghost key_of = { slot_key };

    fn key(&self) -> Option<u128> {
        match self {
            Some(waiting) => Some(waiting.key),
            None => None,
        }
    }

    fn cost(&self) -> u64 {
        match self {
            Some(waiting) => waiting.cost,
            None => 0,
        }
    }
}

impl<T: Copy> Keyed for Ranked<T> {
    ghost key_of = { arcs_key };

    fn key(&self) -> Option<u128> {
        match self.arcs {
            Some(arcs) => Some(arcs.key),
            None => None,
        }
    }

    fn cost(&self) -> u64 {
        self.cost
    }
}

/// The key of the item of this index. None where it has none, or there is no such item.
pub(crate) fn key_at<K: Keyed>(items: &[K], index: usize) -> Option<u128>
    ensures { result ≡ present_key K.key_of items.now index }
{
    if index >= items.len() {
        return None;
    }
    items[index].key()
}

/// The cost of the item of this index, or 0 where there is no such item.
pub(crate) fn cost_at<K: Keyed>(items: &[K], index: usize) -> u64 {
    if index >= items.len() {
        return 0;
    }
    items[index].cost()
}

/// Whether this is the key.
pub(crate) fn is_key(present: Option<u128>, key: u128) -> bool
    ensures { IsTrue result ↔ (present ≡ Some key) }
{
    match present {
        Some(other) => other == key,
        None => false,
    }
}

/// What is next by key.
#[derive(Clone, Copy, Debug)]
pub(crate) enum First {
    Nothing,
    /// A set that waits.
    Slot(Least),
    /// Arcs that are still to be walked.
    Arcs(Least),
}

/// The lesser of two least keys, and of the same one the arcs'.
pub(crate) fn first_of(slot: Option<Least>, arcs: Option<Least>) -> First
    ensures { LesserOf slot arcs result }
{
    match (slot, arcs) {
        (None, None) => First::Nothing,
        (Some(slot), None) => First::Slot(slot),
        (None, Some(arcs)) => First::Arcs(arcs),
        (Some(slot), Some(arcs)) => {
            if slot.key < arcs.key {
                First::Slot(slot)
            } else {
                First::Arcs(arcs)
            }
        }
    }
}
