//! Plans without end, of which some are told.

ghost use Rattle.std.specs.Prelude.{◌≡◌, ◌++◌, ◌∷◌, [], ◌<◌, ◌^◌, ℕ, List, drop, None, All, Contains, MatchBool, IfOk, IfSome, IfNone};
ghost use Rattle.symk_task.specs.declared.parts.Mode.TheVariants.{TopK};
ghost use Rattle.task_system.specs.System.{IsSystemPlan};
ghost use Rattle.selectors.specs.Members.{HasEachClass};
ghost use Rattle.scripted_plans.specs.Free.{free};
ghost use Rattle.scripted_plans.specs.Untold.{Untold, is_untold, Unmet, is_unmet, TookFirst, AnswersByScript, last_by, fair_untold, told_untold, fair_unmet, told_unmet};

use lazy_plans::{LazyPlans, Steps, Stop};
use selectors::{Keys, LazyMembers};
use std::alloc::Global;
use std::sync::ledger::Ledger;
use symk_task::{Memory, Plan};

/// An engine of all lists of operators, that gives the plans that it was told, in that order, and is refused memory
/// then.
///
/// As an engine of mode `TopK` it leaves out none. As one that keeps members it leaves out each rearrangement of a plan
/// given that it was not told.
#[derive(Drop)]
pub struct Endless {
    plans: Vec<Plan>,
    /// How many of them were given.
    next: usize,
    given: Keys,
    stopped: bool,
}

/// The same operators, where there is memory for them.
fn copy_of(alloc: Global, operators: &[u32]) -> Option<Vec<u32>>
    ensures same { IfSome result (λ v. v.items ≡ operators.now) }
    ensures fit { IfSome result (λ v. All (λ a. a < 2 ^ 32) v.items) }
{
    Vec::from_slice(alloc, operators).ok()
}

/// Whether the key could be noted and was new.
fn is_new(given: &mut Keys, key: Vec<u32>) -> bool
    ensures { MatchBool result ((given.new ≡ given.old ++ key.items ∷ []) × ¬ Contains given.old key.items)
        (given.new ≡ given.old) }
{
    match given.note(key) {
        Ok(fresh) => fresh,
        Err(_) => false,
    }
}

impl Endless {
    /// An engine that was told these plans, and has given none.
    pub fn of(alloc: Global, rows: &[&[u32]]) -> Result<Endless, Memory>
        ensures plans { IfOk result (λ e. (p : List ℕ) → IsSystemPlan free p → ⟦<Endless as LazyPlans>⟧.pends e p) }
        ensures members { IfOk result (λ e. HasEachClass free (⟦<Endless as LazyMembers>⟧.pends e)) }
    {
        let mut plans = Vec::new(alloc);
        for row in rows {
            plans.push(Plan::of(Vec::from_slice(alloc, *row)?))?;
        }
        Ok(Endless {
            plans,
            next: 0,
            given: Keys::new(alloc),
            stopped: false,
        })
    }

    /// The next plan that it was told. None where there is none or it was given before, or where memory is refused:
    /// then nothing changes.
    fn take(&mut self, alloc: Global) -> Option<Plan>
        ensures some { IfSome result (λ p. TookFirst (drop self.old.next self.old.plans.items)
            (drop self.new.next self.new.plans.items) self.old.given self.new.given p) }
        ensures none { IfNone result (self.new ≡ self.old) }
        ensures stopped { self.new.stopped ≡ self.old.stopped }
    {
        if self.next >= self.plans.len() {
            return None;
        }
        let operators = self.plans[self.next].as_slice();
        let key = copy_of(alloc, operators)?;
        let plan = copy_of(alloc, operators)?;
        if !is_new(&mut self.given, key) {
            return None;
        }
        self.next += 1;
        Some(Plan::of(plan))
    }

    /// What a call answers.
    fn answer<L: Ledger>(
        &mut self,
        alloc: Global,
        steps: &mut Steps<L>,
    ) -> Result<Option<Plan>, Stop>
        ensures { AnswersByScript (drop self.old.next self.old.plans.items) (drop self.new.next self.new.plans.items)
            self.old.given self.new.given self.old.stopped self.new.stopped result }
    {
        if self.stopped {
            return Err(Stop::Memory);
        }
        steps.tick();
        match self.take(alloc) {
            Some(plan) => Ok(Some(plan)),
            None => {
                self.stopped = true;
                Err(Stop::Memory)
            }
        }
    }
}

impl LazyPlans for Endless {
    ghost system = { λ _. free };

    ghost mode = { λ _. TopK };

    ghost most = { λ _. None };

    ghost pends = { λ x. Untold x.given };

    ghost tells = { λ x. is_untold x.given };

    ghost lawful = { λ _. Unit {0} };

    ghost last = { λ x. last_by x.stopped };

    fn next_plan<L: Ledger>(
        &mut self,
        alloc: Global,
        steps: &mut Steps<L>,
    ) -> Result<Option<Plan>, Stop> {
        self.answer(alloc, steps)
    }

    ghost fair = { λ x _. fair_untold x.given };

    ghost told = { λ x _ p. told_untold x.given p };
}

impl LazyMembers for Endless {
    ghost system = { λ _. free };

    ghost most = { λ _. None };

    ghost pends = { λ x. Unmet x.given (drop x.next x.plans.items) };

    ghost tells = { λ x. is_unmet x.given (drop x.next x.plans.items) };

    ghost lawful = { λ _. Unit {0} };

    ghost last = { λ x. last_by x.stopped };

    fn next_member<L: Ledger>(
        &mut self,
        alloc: Global,
        steps: &mut Steps<L>,
    ) -> Result<Option<Plan>, Stop> {
        self.answer(alloc, steps)
    }

    ghost fair = { λ x _. fair_unmet x.given (drop x.next x.plans.items) };

    ghost told = { λ x _ p. told_unmet x.given (drop x.next x.plans.items) p };
}
