//! `Classes` as an engine.

ghost use Rattle.std.specs.Prelude.{◌≡◌, ◌↔◌, ℕ, List, None};
ghost use Rattle.symk_task.specs.declared.parts.Mode.TheVariants.{Unordered as unordered};
ghost use Rattle.task_system.specs.System.{IsSystemPlan};
ghost use Rattle.selectors.specs.Members.{HasEachClass};
ghost use Rattle.selectors.specs.Left.{Left, is_left, Sorting, fair_left, told_left};

use crate::classes::draw;
use crate::keys::Keys;
use crate::members::LazyMembers;
use lazy_plans::{Ending, LazyPlans, Steps, Stop};
use std::alloc::Global;
use std::sync::ledger::Ledger;
use symk_task::Plan;

/// The first plan of each class of rearrangements, of an engine that keeps a member of each: an engine of mode
/// `Unordered`.
///
/// It keeps the sorted operators of each plan that it gave. Each plan of the system pends that is no rearrangement of
/// one given, whether or not the engine below would give it: of its class one pends there. Where memory is refused for
/// the key of a plan drawn, that plan is dropped, its class still pends, and every later call is refused too.
#[derive(Drop)]
pub struct Classes<I> {
    inner: I,
    seen: Keys,
    last: Option<Ending>,
}

impl<I: LazyMembers> Classes<I> {
    /// At first each plan of the system pends, and no call has ended it.
    pub fn new(alloc: Global, inner: I) -> Classes<I>
        requires lawful { I.lawful inner }
        requires members { HasEachClass (I.system inner) (I.pends inner) }
        ensures lawful { ⟦<Classes<I> as LazyPlans>⟧.lawful result }
        ensures system { ⟦<Classes<I> as LazyPlans>⟧.system result ≡ I.system inner }
        ensures mode { ⟦<Classes<I> as LazyPlans>⟧.mode result ≡ unordered }
        ensures most { ⟦<Classes<I> as LazyPlans>⟧.most result ≡ I.most inner }
        ensures pends { (p : List ℕ) → ⟦<Classes<I> as LazyPlans>⟧.pends result p ↔ IsSystemPlan (I.system inner) p }
        ensures last { ⟦<Classes<I> as LazyPlans>⟧.last result ≡ None }
    {
        Classes {
            inner,
            seen: Keys::new(alloc),
            last: None,
        }
    }
}

impl<I: LazyMembers> LazyPlans for Classes<I> {
    ghost system = { λ x. I.system x.inner };

    ghost mode = { λ _. unordered };

    ghost most = { λ x. I.most x.inner };

    ghost pends = { λ x. Left (I.system x.inner) x.seen };

    ghost tells = { λ x. is_left (I.system x.inner) x.seen };

    ghost lawful = { λ x. Sorting (I.lawful x.inner) (I.system x.inner) (I.most x.inner)
        (I.pends x.inner) x.seen x.last };

    ghost last = { λ x. x.last };

    fn next_plan<L: Ledger>(
        &mut self,
        alloc: Global,
        steps: &mut Steps<L>,
    ) -> Result<Option<Plan>, Stop> {
        if let Some(ending) = self.last {
            return ending.answer();
        }
        let given = draw(alloc, &mut self.inner, &mut self.seen, steps);
        self.last = Ending::of(&given);
        given
    }

    ghost fair = { λ x ok. fair_left (I.system x.inner) (I.most x.inner) x.seen ok.keyed };

    ghost told = { λ x _ p. told_left (I.system x.inner) x.seen p };
}
