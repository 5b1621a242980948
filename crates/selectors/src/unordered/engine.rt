//! `Unordered` as an engine.

ghost use Rattle.std.specs.Prelude.{◌≡◌, ◌↔◌, ℕ, List, Option, Some, None, IfOk};
ghost use Rattle.symk_task.specs.declared.parts.Mode.TheVariants.{TopK, Unordered as unordered};
ghost use Rattle.lazy_plans.specs.SelectorsOwe.{Owes, owes, Standing};
ghost use Rattle.lazy_plans.proofs.Draws.{fair_owes, told_owes};

use crate::keys::Keys;
use crate::unordered::draw;
use lazy_plans::{Ending, LazyPlans, Steps, Stop};
use std::alloc::Global;
use std::sync::ledger::Ledger;
use symk_task::{Memory, Plan};

/// The first plan of each class of rearrangements, of an engine of mode `TopK`: an engine of mode `Unordered`.
///
/// It keeps the sorted operators of each plan that it gave. A plan pends where it is no rearrangement of a plan
/// given, and pends in the engine below or was taken from it and is held, since memory was refused for its key.
#[derive(Drop)]
pub struct Unordered<I> {
    inner: I,
    seen: Keys,
    held: Option<Plan>,
    last: Option<Ending>,
}

impl<I: LazyPlans> Unordered<I> {
    /// At first the same plans pend as in `inner`, and no call has ended it.
    pub fn new(alloc: Global, inner: I) -> Result<Unordered<I>, Memory>
        requires lawful { I.lawful inner }
        requires mode { I.mode inner ≡ TopK }
        ensures lawful { IfOk result (λ u. ⟦<Unordered<I> as LazyPlans>⟧.lawful u) }
        ensures system { IfOk result (λ u. ⟦<Unordered<I> as LazyPlans>⟧.system u ≡ I.system inner) }
        ensures most { IfOk result (λ u. ⟦<Unordered<I> as LazyPlans>⟧.most u ≡ I.most inner) }
        ensures pends { IfOk result (λ u. (p : List ℕ) →
            ⟦<Unordered<I> as LazyPlans>⟧.pends u p ↔ I.pends inner p) }
        ensures last { IfOk result (λ u. ⟦<Unordered<I> as LazyPlans>⟧.last u ≡ None) }
    {
        Ok(Unordered {
            inner,
            seen: Keys::new(alloc),
            held: None,
            last: None,
        })
    }
}

impl<I: LazyPlans> LazyPlans for Unordered<I> {
    ghost system = { λ x. I.system x.inner };

    ghost mode = { λ _. unordered };

    ghost most = { λ x. I.most x.inner };

    ghost pends = { λ x. Owes (I.pends x.inner) x.seen x.held };

    ghost tells = { λ x. owes (I.tells x.inner) x.seen x.held };

    ghost lawful = { λ x. Standing (I.lawful x.inner) (I.mode x.inner) (I.system x.inner)
        (I.most x.inner) (I.pends x.inner) x.seen x.held x.last };

    ghost last = { λ x. x.last };

    fn next_plan<L: Ledger>(
        &mut self,
        alloc: Global,
        steps: &mut Steps<L>,
    ) -> Result<Option<Plan>, Stop> {
        if let Some(ending) = self.last {
            return ending.answer();
        }
        let given = draw(
            alloc,
            &mut self.inner,
            &mut self.seen,
            &mut self.held,
            steps,
        );
        self.last = Ending::of(&given);
        given
    }

    ghost fair = { λ x ok. fair_owes (I.system x.inner) (I.mode x.inner) (I.most x.inner) x.seen x.held
        (I.pends x.inner) ok.topk ok.keyed ok.holds.plan (I.fair x.inner ok.lawful) };

    ghost told = { λ x ok p. told_owes (I.pends x.inner) (I.tells x.inner) x.seen x.held p
        (I.told x.inner ok.lawful p) };
}
