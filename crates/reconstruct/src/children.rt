//! Children of an entry: the level ones, and those that fall.

use crate::entries::{Entry, Prefix, Suffix, give_back_entries};

/// The falling ones are taken first.
#[derive(Drop)]
pub(crate) struct Children<T> {
    pub(crate) level: Vec<Entry<T>>,
    pub(crate) falling: Vec<Entry<T>>,
}

ghost use Rattle.std.specs.Prelude.{◌≡◌, ◌≤◌, ◌<◌, ◌⊎◌, ◌++◌, ◌∷◌, [], IsTrue, IsFalse, IfOk, OnOk, OnErr};
ghost use Rattle.space_api.specs.View.{View, Valid};
ghost use Rattle.space_api.specs.Owned.{Trades};
ghost use Rattle.reconstruct.specs.Entries.{entry_cost, ring_in, SetIn, AreDistinct};
ghost use Rattle.reconstruct.specs.Grown.{IsPut};

use space_api::Space;
use std::alloc::Global;
use symk_task::Memory;

/// Whether the first place is below the second, by cost or by ring.
fn falls(cost: u64, ring: u64, from: u64, above: u64) -> bool
    ensures yes { IsTrue result → (cost < from) ⊎ (ring < above) }
    ensures no { IsFalse result → (from ≤ cost) × (above ≤ ring) }
{
    cost < from || ring < above
}

impl<T: Copy> Children<T> {
    pub(crate) fn new(alloc: Global) -> Children<T>
        ensures level { result.level.items ≡ [] }
        ensures falling { result.falling.items ≡ [] }
    {
        Children {
            level: Vec::new(alloc),
            falling: Vec::new(alloc),
        }
    }

    /// Puts an entry last: with the falling ones or with the others. Out of memory, it leaves all as it was.
    fn put(&mut self, falling: bool, child: Entry<T>) -> Result<(), Memory>
        ensures level { OnOk result (IsFalse falling → (self.new.level.items ≡ self.old.level.items ++ child ∷ [])
            × (self.new.falling.items ≡ self.old.falling.items)) }
        ensures falling { OnOk result (IsTrue falling → (self.new.level.items ≡ self.old.level.items)
            × (self.new.falling.items ≡ self.old.falling.items ++ child ∷ [])) }
        ensures same_level { OnErr result (self.new.level.items ≡ self.old.level.items) }
        ensures same_falling { OnErr result (self.new.falling.items ≡ self.old.falling.items) }
    {
        if falling {
            self.falling.push(child)?;
        } else {
            self.level.push(child)?;
        }
        Ok(())
    }

    /// Puts a prefix last, the child of an entry of this cost and ring. Out of memory, it leaves all as it was.
    pub(crate) fn put_before(
        &mut self,
        cost: u64,
        ring: u64,
        child: Prefix<T>,
    ) -> Result<(), Memory>
        ensures ok { OnOk result (IsPut cost ring (Entry.Before child) self.old.level.items self.old.falling.items
            self.new.level.items self.new.falling.items) }
        ensures level { OnErr result (self.new.level.items ≡ self.old.level.items) }
        ensures falling { OnErr result (self.new.falling.items ≡ self.old.falling.items) }
    {
        let falling = falls(child.cost, child.ring, cost, ring);
        self.put(falling, Entry::Before(child))
    }

    /// Puts a suffix last, the child of an entry of this cost and ring. Out of memory, it leaves all as it was.
    pub(crate) fn put_after(&mut self, cost: u64, ring: u64, child: Suffix) -> Result<(), Memory>
        ensures ok { OnOk result (IsPut cost ring (Entry.After child) self.old.level.items self.old.falling.items
            self.new.level.items self.new.falling.items) }
        ensures level { OnErr result (self.new.level.items ≡ self.old.level.items) }
        ensures falling { OnErr result (self.new.falling.items ≡ self.old.falling.items) }
    {
        let falling = falls(child.cost, child.ring, cost, ring);
        self.put(falling, Entry::After(child))
    }
}

/// Gives the sets of all children back.
pub(crate) fn give_back_children<S: Space>(space: &mut S, children: &Children<S::Set>)
    requires valid { (a : S.Set) → SetIn (children.now.level.items ++ children.now.falling.items) a
        → Valid (S.view space.old) a }
    requires distinct { AreDistinct (children.now.level.items ++ children.now.falling.items) }
    ensures { Trades (S.view space.old) (S.view space.new)
        (SetIn (children.now.level.items ++ children.now.falling.items)) (λ a. ⊥) }
{
    give_back_entries(space, &children.level);
    give_back_entries(space, &children.falling);
}
