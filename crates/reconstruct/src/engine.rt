//! The engine: all plans of a task, the cheapest first.

use crate::next_plan::Agenda;
use bidirectional::{Both, Choose};
use lazy_plans::{LazyPlans, Shell, Steps, Stop};
use space_api::Space;

/// All plans of a task, the cheapest first, by a search from both ends. It owns its space.
#[derive(Drop)]
pub struct TopPlans<S: Space, P: Choose> {
    pub(crate) space: S,
    pub(crate) both: Both<S::Set, P>,
    /// The set to which the backward side is kept, or will be, where one was handed over.
    pub(crate) within: Option<S::Set>,
    pub(crate) agenda: Agenda<S::Set>,
    /// What hands out the plans that were found.
    pub(crate) shell: Shell,
}

ghost use Rattle.std.specs.Prelude.{◌≡◌, ◌≢◌, None, IfOk};
ghost use Rattle.space_api.specs.View.{View};
ghost use Rattle.symk_task.specs.declared.parts.Mode.TheVariants.{TopK};
ghost use Rattle.lazy_plans.specs.Law.{Turned, last_of};
ghost use Rattle.reconstruct.specs.Working.{FewTurns};
ghost use Rattle.reconstruct.specs.Engine.{cut_system, most_of, ended_by, Pends, tells, IsCutEngine, KeepsAll, HasCutRoom, AnswersByCuts};
ghost use Rattle.reconstruct.specs.Laws.{engine_fair, engine_told};

use crate::next_plan::give;
use std::alloc::Global;
use std::sync::ledger::Ledger;
use symk_task::Plan;

impl<S: Space, P: Choose> TopPlans<S, P> {
    /// Asks for the next plan, and tidies the space before it is handed out. Where that is refused the plan is held,
    /// and the engine stops.
    fn ask<L: Ledger>(&mut self, alloc: Global, steps: &mut Steps<L>) -> Result<Option<Plan>, Stop>
        requires engine { IsCutEngine S.view self.old }
        requires goes_on { ended_by self.old ≡ None }
        ensures answers { AnswersByCuts S.view self.old self.new result }
        ensures most { most_of self.new ≡ most_of self.old }
        ensures steps { FewTurns steps.old steps.new result }
    {
        match give(
            alloc,
            &mut self.space,
            &mut self.both,
            self.shell.most(),
            &mut self.agenda,
            steps,
        ) {
            Err(stop) => self.shell.stop(stop),
            Ok(found) => {
                let tidied = self.space.tidy().is_ok();
                self.shell.hand_out(found, tidied)
            }
        }
    }
}

impl<S: Space, P: Choose> LazyPlans for TopPlans<S, P> {
    ghost system = { λ x. cut_system S.view x };

    ghost mode = { λ x. TopK };

    ghost most = { λ x. most_of x };

    ghost pends = { λ x. Pends S.view x };

    ghost tells = { λ x. tells S.view x };

    ghost lawful = { λ x. IsCutEngine S.view x };

    ghost last = { λ x. ended_by x };

    /// The next plan. One turn is one step: a plan takes at most as many turns as it has operators, and two, and at
    /// least one; None takes none. After each call every valid set is one that the engine keeps, and after a plan or None the space
    /// is tidy.
    fn next_plan<L: Ledger>(
        &mut self,
        alloc: Global,
        steps: &mut Steps<L>,
    ) -> Result<Option<Plan>, Stop>
        requires { IsCutEngine S.view self.old }
        ensures lawful { IsCutEngine S.view self.new }
        ensures system { cut_system S.view self.new ≡ cut_system S.view self.old }
        ensures mode { TopK ≡ TopK }
        ensures most { most_of self.new ≡ most_of self.old }
        ensures law { Turned (cut_system S.view self.old) TopK (most_of self.old) (Pends S.view self.old)
            (Pends S.view self.new) result }
        ensures last { ended_by self.new ≡ last_of result }
        ensures again { ended_by self.old ≢ None → ended_by self.new ≡ ended_by self.old }
        ensures steps { FewTurns steps.old steps.new result }
        ensures keeps { KeepsAll S.view self.new }
        ensures tidy { IfOk result (λ o. HasCutRoom S.view self.new) }
    {
        match self.shell.ended() {
            None => self.ask(alloc, steps),
            Some(ending) => ending.answer(),
        }
    }

    ghost fair = { λ x l. engine_fair S.view x l };

    ghost told = { λ x l p. engine_told S.view x p };
}
