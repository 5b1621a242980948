//! An engine of all plans of its mode, as one that keeps members.

ghost use Rattle.std.specs.Prelude.{◌≡◌, ◌↔◌, ℕ, List};
ghost use Rattle.selectors.specs.Members.{plan_of};

use crate::members::LazyMembers;
use lazy_plans::{LazyPlans, Steps, Stop};
use std::alloc::Global;
use std::sync::ledger::Ledger;
use symk_task::Plan;

/// An engine of any mode, which keeps a member of each class since it keeps each plan of its mode that counts as one
/// with none that it gave.
#[derive(Drop)]
pub struct Whole<I> {
    inner: I,
}

impl<I: LazyPlans> Whole<I> {
    /// What pends in `inner` pends.
    pub fn new(inner: I) -> Whole<I>
        requires lawful { I.lawful inner }
        ensures lawful { ⟦<Whole<I> as LazyMembers>⟧.lawful result }
        ensures system { ⟦<Whole<I> as LazyMembers>⟧.system result ≡ I.system inner }
        ensures most { ⟦<Whole<I> as LazyMembers>⟧.most result ≡ I.most inner }
        ensures pends { (p : List ℕ) → ⟦<Whole<I> as LazyMembers>⟧.pends result p ↔ I.pends inner p }
        ensures last { ⟦<Whole<I> as LazyMembers>⟧.last result ≡ I.last inner }
    {
        Whole { inner }
    }
}

impl<I: LazyPlans> LazyMembers for Whole<I> {
    ghost system = { λ x. I.system x.inner };

    ghost most = { λ x. I.most x.inner };

    ghost pends = { λ x. I.pends x.inner };

    ghost tells = { λ x. I.tells x.inner };

    ghost lawful = { λ x. I.lawful x.inner };

    ghost last = { λ x. I.last x.inner };

    fn next_member<L: Ledger>(
        &mut self,
        alloc: Global,
        steps: &mut Steps<L>,
    ) -> Result<Option<Plan>, Stop> {
        self.inner.next_plan(alloc, steps)
    }

    ghost fair = { λ x ok p h. plan_of (I.system x.inner) (I.mode x.inner) p ((I.fair x.inner ok).members p h) };

    ghost told = { λ x ok p. I.told x.inner ok p };
}
