//! The engine: loopless plans, the cheapest first.

use crate::front::Front;
use backward_search::Backward;
use lazy_plans::{LazyPlans, Shell, Steps, Stop};
use space_api::Space;
use symk_task::Plan;

/// Loopless plans, the cheapest first. It owns its space.
#[derive(Drop)]
pub struct LooplessPlans<S: Space> {
    pub(crate) space: S,
    pub(crate) backward: Backward<S::Set>,
    /// The prefixes, and what is left from where they end.
    pub(crate) front: Front,
    /// The greatest cost that is wanted, a plan that is held, and how it ended.
    pub(crate) shell: Shell,
}

ghost use Rattle.std.specs.Prelude.{◌≡◌, ◌≢◌, None, IfOk};
ghost use Rattle.symk_task.specs.declared.parts.Mode.TheVariants.{Loopless};
ghost use Rattle.lazy_plans.specs.Law.{Turned, last_of};
ghost use Rattle.lazy_plans.specs.Shell.{shell_most, shell_held, shell_ended};
ghost use Rattle.lazy_plans.proofs.Owed.{owed_fair, owed_told};
ghost use Rattle.loopless.specs.Front.{prefixes_of};
ghost use Rattle.loopless.specs.Engine.{loopless_system, loopless_most, loopless_ended, PendsLoopless, loopless_tells, IsLooplessEngine, KeepsAllLoopless, HasLooplessRoom, AnswersLoopless};

use crate::walk::walk;
use std::alloc::Global;
use std::sync::ledger::Ledger;

impl<S: Space> LooplessPlans<S> {
    /// Asks for the next plan, and tidies the space before it is handed out. Where that is refused the plan is
    /// held, and the engine stops.
    fn ask<L: Ledger>(&mut self, alloc: Global, steps: &mut Steps<L>) -> Result<Option<Plan>, Stop>
        requires engine { IsLooplessEngine S.view self.old }
        requires goes_on { loopless_ended self.old ≡ None }
        ensures { AnswersLoopless S.view self.old self.new result }
    {
        match walk(
            alloc,
            &mut self.space,
            &mut self.backward,
            self.shell.most(),
            &mut self.front,
            steps,
        ) {
            Err(stop) => self.shell.stop(stop),
            Ok(found) => self.shell.hand_out(found, self.space.tidy().is_ok()),
        }
    }
}

impl<S: Space> LazyPlans for LooplessPlans<S> {
    ghost system = { λ x. loopless_system S.view x };

    ghost mode = { λ x. Loopless };

    ghost most = { λ x. loopless_most x };

    ghost pends = { λ x. PendsLoopless S.view x };

    ghost tells = { λ x. loopless_tells S.view x };

    ghost lawful = { λ x. IsLooplessEngine S.view x };

    ghost last = { λ x. loopless_ended x };

    /// The next plan. One turn is one step. After each call, also one that is refused, every valid set is one
    /// of the search back, or the one that it is kept to. After a plan or None the space is tidy.
    fn next_plan<L: Ledger>(
        &mut self,
        alloc: Global,
        steps: &mut Steps<L>,
    ) -> Result<Option<Plan>, Stop>
        requires { IsLooplessEngine S.view self.old }
        ensures lawful { IsLooplessEngine S.view self.new }
        ensures system { loopless_system S.view self.new ≡ loopless_system S.view self.old }
        ensures mode { Loopless ≡ Loopless }
        ensures most { loopless_most self.new ≡ loopless_most self.old }
        ensures law { Turned (loopless_system S.view self.old) Loopless (loopless_most self.old)
            (PendsLoopless S.view self.old)
            (PendsLoopless S.view self.new) result }
        ensures last { loopless_ended self.new ≡ last_of result }
        ensures again { loopless_ended self.old ≢ None → loopless_ended self.new ≡ loopless_ended self.old }
        ensures keeps { KeepsAllLoopless S.view self.new }
        ensures tidy { IfOk result (λ o. HasLooplessRoom S.view self.new) }
    {
        match self.shell.ended() {
            None => self.ask(alloc, steps),
            Some(ending) => ending.answer(),
        }
    }

    ghost fair = { λ x l. owed_fair (S.view x.space).system Loopless (shell_most x.shell) (prefixes_of x.front)
        (shell_held x.shell) (shell_ended x.shell) l.right l.shell.holds };

    ghost told = { λ x l p. owed_told (S.view x.space).system Loopless (prefixes_of x.front) (shell_held x.shell) p };
}
