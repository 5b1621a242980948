//! Sets by number.

ghost use Rattle.std.specs.Prelude.{◌≡◌, ◌+◌, ◌<◌, ◌≤◌, ◌++◌, [], map, length, IfOk, OnOk, OnErr, IsSome, Some};
ghost use Rattle.bdd_space.specs.Slots.{set_at, root_of, with_root, Puts, Empties, AreSlotsMoved};

use bdd_table::{FALSE, Id};
use std::alloc::{AllocError, Global};

/// A place for one set.
#[derive(Clone, Copy)]
pub(crate) enum Slot {
    /// The set's Id.
    Holds(Id),
    /// No set, and the place that is used after this one.
    Free(usize),
}

impl Slot {
    /// The Id, or false where there is none.
    fn root(self) -> Id
        ensures { result ≡ root_of self }
    {
        match self {
            Slot::Holds(id) => id,
            Slot::Free(_) => FALSE,
        }
    }

    /// The place with another Id. A free place stays.
    fn with_root(self, root: Id) -> Slot
        ensures { result ≡ with_root self root }
    {
        match self {
            Slot::Holds(_) => Slot::Holds(root),
            Slot::Free(next) => Slot::Free(next),
        }
    }
}

/// Sets by number. A place that is given back is linked before those that were given back earlier, and is the next to
/// be used again, so that the list grows no longer than the sets that are held at once.
#[derive(Drop)]
pub(crate) struct Slots {
    slots: Vec<Slot>,
    free: usize,
}

impl Slots {
    /// No set.
    pub(crate) fn new(alloc: Global) -> Slots
        ensures { result.slots.items ≡ [] }
    {
        Slots {
            slots: Vec::new(alloc),
            free: usize::MAX,
        }
    }

    /// The Id of a set that is held.
    pub(crate) fn id(&self, a: usize) -> Id
        requires { IsSome (set_at self.now.slots.items a) }
        ensures { set_at self.now.slots.items a ≡ Some result }
    {
        match self.slots[a] {
            Slot::Holds(id) => id,
            Slot::Free(_) => FALSE,
        }
    }

    /// What follows the first free place, if one is free.
    fn next_free(&self) -> Option<usize>
        ensures free { IsSome result → set_at self.now.slots.items self.now.free ≡ None }
        ensures there { IsSome result → self.now.free < length self.now.slots.items }
    {
        match self.slots.get(self.free) {
            Some(Slot::Free(next)) => Some(*next),
            _ => None,
        }
    }

    /// A number for the set, which held none before. When out of memory, all is as before.
    pub(crate) fn put(&mut self, id: Id) -> Result<usize, AllocError>
        ensures ok { IfOk result (Puts self.old.slots.items id self.new.slots.items) }
        ensures err { OnErr result (self.new.slots.items ≡ self.old.slots.items) }
    {
        match self.next_free() {
            Some(next) => {
                let at = self.free;
                self.free = next;
                self.slots[at] = Slot::Holds(id);
                Ok(at)
            }
            None => {
                let at = self.slots.len();
                self.slots.push(Slot::Holds(id))?;
                Ok(at)
            }
        }
    }

    /// Gives a place back. It takes no memory.
    pub(crate) fn empty(&mut self, a: usize)
        requires { IsSome (set_at self.old.slots.items a) }
        ensures { Empties self.old.slots.items a self.new.slots.items }
    {
        self.slots[a] = Slot::Free(self.free);
        self.free = a;
    }

    /// Adds the Id of each place at the end, false for a free one.
    pub(crate) fn push_roots(&self, roots: &mut Vec<Id>) -> Result<(), AllocError>
        ensures { OnOk result (roots.new.items ≡ roots.old.items ++ map root_of self.now.slots.items) }
    {
        for slot in &self.slots {
            roots.push(slot.root())?;
        }
        Ok(())
    }

    /// Gives each set the Id that stands for it in the list, the first at `from`.
    pub(crate) fn take_roots(&mut self, roots: &[Id], from: usize)
        requires { from + length self.old.slots.items ≤ length roots.now }
        ensures { AreSlotsMoved self.old.slots.items roots.now from self.new.slots.items }
    {
        for a in 0..self.slots.len() {
            self.slots[a] = self.slots[a].with_root(roots[from + a]);
        }
    }
}
