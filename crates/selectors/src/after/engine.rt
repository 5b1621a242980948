//! `After` as an engine.

ghost use Rattle.std.specs.Prelude.{◌≡◌, ◌↔◌, ◌≤◌, ℕ, List, All, IfOk, length, vec_capacity};
ghost use Rattle.symk_task.specs.Plans.{IsListed};
ghost use Rattle.task_system.specs.System.{IsSystemPlanOf, cost_in_system};
ghost use Rattle.lazy_plans.specs.Law.{top};
ghost use Rattle.lazy_plans.specs.Rest.{Rest};
ghost use Rattle.lazy_plans.specs.SelectorsOwe.{AreKeysOf, Unlisted, is_unlisted, Following};
ghost use Rattle.lazy_plans.proofs.Draws.{fair_unlisted, told_unlisted};

use crate::after::draw;
use crate::keys::{Keys, key_of};
use lazy_plans::{LazyPlans, Steps, Stop};
use std::alloc::Global;
use std::sync::ledger::Ledger;
use symk_task::{List, Memory, Mode, Plan};

/// The plans of an engine that count as one with no plan of an earlier list: an engine of the same mode.
///
/// It asks for no memory of its own once it is made, so that no plan is held: one pends exactly where it counts
/// as one with no plan of the list and pends in the engine below.
#[derive(Drop)]
pub struct After<I> {
    inner: I,
    mode: Mode,
    keys: Keys,
    room: Vec<u32>,
}

/// The keys of the plans, and room for the longest.
fn keys_of(alloc: Global, mode: Mode, plans: &List<Plan>) -> Result<(Keys, Vec<u32>), Memory>
    ensures keys { IfOk result (λ r. AreKeysOf mode plans.now r.0) }
    ensures short { IfOk result (λ r. All (λ key. length key ≤ vec_capacity r.1) r.0) }
{
    let mut keys = Keys::new(alloc);
    let mut room = Vec::new(alloc);
    for plan in plans.as_slice() {
        let key = key_of(alloc, mode, plan)?;
        room.reserve(key.len())?;
        keys.note(key)?;
    }
    Ok((keys, room))
}

impl<I: LazyPlans + Drop> After<I> {
    /// The plans that are left after `plans`. At first those of `inner` pend that count as one with none of
    /// them: where all plans pend in it, the rest of the list.
    pub fn new(alloc: Global, inner: I, mode: Mode, plans: &List<Plan>) -> Result<After<I>, Memory>
        requires lawful { I.lawful inner }
        requires mode { mode ≡ I.mode inner }
        requires cheap { All (λ p. cost_in_system (I.system inner) p ≤ top (I.most inner)) plans.now }
        ensures lawful { IfOk result (λ a. ⟦<After<I> as LazyPlans>⟧.lawful a) }
        ensures system { IfOk result (λ a. ⟦<After<I> as LazyPlans>⟧.system a ≡ I.system inner) }
        ensures mode { IfOk result (λ a. ⟦<After<I> as LazyPlans>⟧.mode a ≡ mode) }
        ensures most { IfOk result (λ a. ⟦<After<I> as LazyPlans>⟧.most a ≡ I.most inner) }
        ensures last { IfOk result (λ a. ⟦<After<I> as LazyPlans>⟧.last a ≡ I.last inner) }
        ensures pends { IfOk result (λ a. (p : List ℕ) →
            ⟦<After<I> as LazyPlans>⟧.pends a p ↔ (¬ IsListed mode plans.now p × I.pends inner p)) }
        ensures rest { IfOk result (λ a. ((p : List ℕ) → IsSystemPlanOf (I.system inner) mode p → I.pends inner p) →
            Rest (I.system inner) mode plans.now (⟦<After<I> as LazyPlans>⟧.pends a)) }
    {
        let (keys, room) = keys_of(alloc, mode, plans)?;
        Ok(After {
            inner,
            mode,
            keys,
            room,
        })
    }
}

impl<I: LazyPlans> LazyPlans for After<I> {
    ghost system = { λ x. I.system x.inner };

    ghost mode = { λ x. x.mode };

    ghost most = { λ x. I.most x.inner };

    ghost pends = { λ x. Unlisted x.mode x.keys (I.pends x.inner) };

    ghost tells = { λ x. is_unlisted x.mode x.keys (I.tells x.inner) };

    ghost lawful = { λ x. Following (I.lawful x.inner) x.mode (I.mode x.inner) (I.system x.inner)
        (I.most x.inner) x.keys (vec_capacity x.room) };

    ghost last = { λ x. I.last x.inner };

    fn next_plan<L: Ledger>(
        &mut self,
        alloc: Global,
        steps: &mut Steps<L>,
    ) -> Result<Option<Plan>, Stop> {
        draw(
            alloc,
            self.mode,
            &mut self.inner,
            &self.keys,
            &mut self.room,
            steps,
        )
    }

    ghost fair = { λ x ok. fair_unlisted (I.system x.inner) x.mode (I.mode x.inner) (I.most x.inner) x.keys
        (I.pends x.inner) ok.same_mode ok.keyed (I.fair x.inner ok.lawful) };

    ghost told = { λ x ok p. told_unlisted x.mode x.keys (I.pends x.inner) (I.tells x.inner) p
        (I.told x.inner ok.lawful p) };
}
