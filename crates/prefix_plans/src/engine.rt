//! The engine: all plans, the cheapest first.

use crate::front::Front;
use cost_to_go::CostToGo;
use lazy_plans::{LazyPlans, Shell, Steps, Stop};
use space_api::Space;
use symk_task::Plan;

/// All plans, the cheapest first. It owns its space.
#[derive(Drop)]
pub struct PrefixPlans<S: Space> {
    pub(crate) space: S,
    /// The search from both ends.
    pub(crate) search: CostToGo<S::Set>,
    /// The states that its ranks are kept to.
    pub(crate) within: S::Set,
    /// Prefixes, and those that wait.
    pub(crate) front: Front,
    /// The greatest cost that is wanted, a plan that is held, and how it ended.
    pub(crate) shell: Shell,
}

ghost use Rattle.std.specs.Prelude.{◌≡◌, ◌≢◌, None, IfOk};
ghost use Rattle.symk_task.specs.declared.parts.Mode.TheVariants.{TopK};
ghost use Rattle.lazy_plans.specs.Law.{Turned, last_of};
ghost use Rattle.lazy_plans.specs.Shell.{shell_most, shell_held, shell_ended};
ghost use Rattle.prefix_plans.specs.Standing.{waiting_prefixes};
ghost use Rattle.prefix_plans.specs.Engine.{prefix_system, prefix_most, prefix_ended, PendsPrefix, prefix_tells, IsPrefixEngine, KeepsAllPrefix, HasPrefixRoom, AnswersByPrefix};
ghost use Rattle.lazy_plans.proofs.Owed.{owed_fair, owed_told};

use crate::walk::walk;
use std::alloc::Global;
use std::sync::ledger::Ledger;

impl<S: Space> PrefixPlans<S> {
    /// Asks for the next plan, and tidies the space before it is handed out. Where that is refused the plan is
    /// held, and the engine stops.
    fn ask<L: Ledger>(&mut self, alloc: Global, steps: &mut Steps<L>) -> Result<Option<Plan>, Stop>
        requires engine { IsPrefixEngine S.view self.old }
        requires goes_on { prefix_ended self.old ≡ None }
        ensures { AnswersByPrefix S.view self.old self.new result }
    {
        match walk(
            alloc,
            &mut self.space,
            &mut self.search,
            self.within,
            self.shell.most(),
            &mut self.front,
            steps,
        ) {
            Err(stop) => self.shell.stop(stop),
            Ok(found) => self.shell.hand_out(found, self.space.tidy().is_ok()),
        }
    }
}

impl<S: Space> LazyPlans for PrefixPlans<S> {
    ghost system = { λ x. prefix_system S.view x };

    ghost mode = { λ x. TopK };

    ghost most = { λ x. prefix_most x };

    ghost pends = { λ x. PendsPrefix S.view x };

    ghost tells = { λ x. prefix_tells S.view x };

    ghost lawful = { λ x. IsPrefixEngine S.view x };

    ghost last = { λ x. prefix_ended x };

    /// The next plan. One turn is one step. After each call, also one that is refused, every valid set is one
    /// of the search, or the one that it is kept to. After a plan or None the space is tidy.
    fn next_plan<L: Ledger>(
        &mut self,
        alloc: Global,
        steps: &mut Steps<L>,
    ) -> Result<Option<Plan>, Stop>
        requires { IsPrefixEngine S.view self.old }
        ensures lawful { IsPrefixEngine S.view self.new }
        ensures system { prefix_system S.view self.new ≡ prefix_system S.view self.old }
        ensures mode { TopK ≡ TopK }
        ensures most { prefix_most self.new ≡ prefix_most self.old }
        ensures law { Turned (prefix_system S.view self.old) TopK (prefix_most self.old) (PendsPrefix S.view self.old)
            (PendsPrefix S.view self.new) result }
        ensures last { prefix_ended self.new ≡ last_of result }
        ensures again { prefix_ended self.old ≢ None → prefix_ended self.new ≡ prefix_ended self.old }
        ensures keeps { KeepsAllPrefix S.view self.new }
        ensures tidy { IfOk result (λ o. HasPrefixRoom S.view self.new) }
    {
        match self.shell.ended() {
            None => self.ask(alloc, steps),
            Some(ending) => ending.answer(),
        }
    }

    ghost fair = { λ x l. owed_fair (S.view x.space).system TopK (shell_most x.shell) (waiting_prefixes x.front)
        (shell_held x.shell) (shell_ended x.shell) l.right l.shell.holds };

    ghost told = { λ x l p. owed_told (S.view x.space).system TopK (waiting_prefixes x.front) (shell_held x.shell) p };
}
