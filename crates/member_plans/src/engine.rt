//! The engine: one plan of each class of rearrangements at least, the cheapest first.

use crate::front::Front;
use cost_to_go::CostToGo;
use lazy_plans::{Shell, Steps, Stop};
use space_api::Space;

/// Of each class of rearrangements one plan at least, the cheapest first. It owns its space, of the task that it borrows.
#[derive(Drop)]
pub struct MemberPlans<'a, S: Space> {
    pub(crate) space: S,
    /// The search from both ends.
    pub(crate) search: CostToGo<S::Set>,
    /// The states that its ranks are kept to.
    pub(crate) within: S::Set,
    /// Prefixes, those that wait, and those that were opened.
    pub(crate) front: Front<'a>,
    /// What hands out the plans that were given. It holds none, since the space is tidied before a plan is given.
    pub(crate) shell: Shell,
}

ghost use Rattle.std.specs.Prelude.{◌≡◌, ◌≢◌, None, IfOk};
ghost use Rattle.lazy_plans.specs.Law.{last_of};
ghost use Rattle.selectors.specs.Members.{TurnedMembers};
ghost use Rattle.member_laws.proofs.Telling.{pends_told};
ghost use Rattle.member_plans.specs.Front.{opened};
ghost use Rattle.member_plans.specs.Engine.{member_system, member_most, member_ended, PendsMember, member_tells, IsMemberEngine, KeepsAllMember, HasMemberRoom, AnswersByMember};

use selectors::LazyMembers;
use std::alloc::Global;
use std::sync::ledger::Ledger;
use symk_task::Plan;

impl<'a, S: Space> MemberPlans<'a, S> {
    /// Asks for the next plan. The space is tidied before it is opened, so that it pends still where that is refused; then
    /// the engine stops.
    fn ask<L: Ledger>(&mut self, alloc: Global, steps: &mut Steps<L>) -> Result<Option<Plan>, Stop>
        requires engine { IsMemberEngine S.view self.old }
        requires goes_on { member_ended self.old ≡ None }
        ensures answers { AnswersByMember S.view self.old self.new result }
        ensures most { member_most self.new ≡ member_most self.old }
    {
        let most = self.shell.most();
        match self.front.walk(
            alloc,
            &mut self.space,
            &mut self.search,
            self.within,
            most,
            steps,
        ) {
            Err(stop) => self.shell.stop(stop),
            Ok(due) => match self.space.tidy() {
                Err(_) => self.shell.stop(Stop::Memory),
                Ok(()) => match due {
                    None => self.shell.hand_out(None, true),
                    Some(entry) => match self
                        .front
                        .give(alloc, &self.space, &self.search, most, entry, steps)
                    {
                        Err(_) => self.shell.stop(Stop::Memory),
                        Ok(plan) => self.shell.hand_out(Some(plan), true),
                    },
                },
            },
        }
    }
}

impl<'a, S: Space> LazyMembers for MemberPlans<'a, S> {
    ghost system = { λ x. member_system S.view x };

    ghost most = { λ x. member_most x };

    ghost pends = { λ x. PendsMember S.view x };

    ghost tells = { λ x. member_tells S.view x };

    ghost lawful = { λ x. IsMemberEngine S.view x };

    ghost last = { λ x. member_ended x };

    /// The next plan that pends. One turn is one step. After each call, also one that is refused, every valid set is one
    /// of the search, or the one that it is kept to. After a plan or None the space is tidy.
    fn next_member<L: Ledger>(
        &mut self,
        alloc: Global,
        steps: &mut Steps<L>,
    ) -> Result<Option<Plan>, Stop>
        requires { IsMemberEngine S.view self.old }
        ensures lawful { IsMemberEngine S.view self.new }
        ensures system { member_system S.view self.new ≡ member_system S.view self.old }
        ensures most { member_most self.new ≡ member_most self.old }
        ensures law { TurnedMembers (member_system S.view self.old) (member_most self.old) (PendsMember S.view self.old)
            (PendsMember S.view self.new) result }
        ensures last { member_ended self.new ≡ last_of result }
        ensures again { member_ended self.old ≢ None → member_ended self.new ≡ member_ended self.old }
        ensures keeps { KeepsAllMember S.view self.new }
        ensures tidy { IfOk result (λ o. HasMemberRoom S.view self.new) }
    {
        match self.shell.ended() {
            None => self.ask(alloc, steps),
            Some(ending) => ending.answer(),
        }
    }

    ghost fair = { λ x ok p h. h.0 };

    ghost told = { λ x ok p. pends_told (S.view x.space).system (opened x.front) p };
}
