//! Sets given back.

ghost use Rattle.std.specs.Prelude.{ℕ};
ghost use Rattle.space_api.specs.View.{View, Valid};
ghost use Rattle.space_api.specs.Owned.{Trades};
ghost use Rattle.goal_ranks.specs.Ranks.{IsGoalRanks, IsOwnSetOfRanks};
ghost use Rattle.goal_ranks.specs.Giving.{RankSet, SlotSet, InSlot, AllOf, OnceEach};

use crate::parts::{Ranked, Waiting};
use crate::search::GoalRanks;
use space_api::Space;

/// Gives the sets that have ranks back.
fn forget_ranks<S: Space>(space: &mut S, ranks: &[Ranked<S::Set>])
    requires valid { (i : ℕ) (a : S.Set) → RankSet ranks.now i a → Valid (S.view space.old) a }
    requires once { OnceEach (RankSet ranks.now) }
    ensures { Trades (S.view space.old) (S.view space.new) (AllOf (RankSet ranks.now)) (λ a. ⊥) }
{
    'ranks: for i in 0..ranks.len() {
        let ranked = ranks[i];
        space.forget(ranked.set);
    }
}

/// Gives the set of a slot back, if it has one.
fn forget_slot<S: Space>(space: &mut S, slot: Option<Waiting<S::Set>>)
    requires { (a : S.Set) → InSlot slot a → Valid (S.view space.old) a }
    ensures { Trades (S.view space.old) (S.view space.new) (InSlot slot) (λ a. ⊥) }
{
    match slot {
        Some(waiting) => space.forget(waiting.set),
        None => (),
    }
}

/// Gives the sets that wait back.
fn forget_slots<S: Space>(space: &mut S, slots: &[Option<Waiting<S::Set>>])
    requires valid { (i : ℕ) (a : S.Set) → SlotSet slots.now i a → Valid (S.view space.old) a }
    requires once { OnceEach (SlotSet slots.now) }
    ensures { Trades (S.view space.old) (S.view space.new) (AllOf (SlotSet slots.now)) (λ a. ⊥) }
{
    'slots: for i in 0..slots.len() {
        let slot = slots[i];
        forget_slot(space, slot);
    }
}

impl<T: Copy> GoalRanks<T> {
    /// Gives each set that it made back. `within` stays.
    pub fn give_back<S: Space<Set = T>>(self, space: &mut S)
        requires { IsGoalRanks (S.view space.old) self }
        ensures { Trades (S.view space.old) (S.view space.new) (IsOwnSetOfRanks self) (λ a. ⊥) }
    {
        forget_ranks(space, &self.ranks);
        forget_slots(space, &self.slots);
        space.forget(self.left);
    }
}
