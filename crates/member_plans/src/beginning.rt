//! Engines at their first step.

ghost use Rattle.std.specs.Prelude.{◌≡◌, [], ◌∷◌, IfOk, None, Some};
ghost use Rattle.task_system.specs.Computed.{system_of as system_by};
ghost use Rattle.space_api.specs.View.{View, Valid};
ghost use Rattle.prefix_plans.specs.Owned.{HasNoSet, IsOnlyValid, CoversUseful};
ghost use Rattle.prefix_plans.specs.EndStanding.{IsEndReady, IsCostToGoAlone};
ghost use Rattle.prefix_tree.specs.Entries.{prefixes};
ghost use Rattle.member_plans.specs.Moves.{Serves};
ghost use Rattle.member_plans.specs.Front.{opened_places, waiting_members};
ghost use Rattle.member_plans.specs.Opened.{keys_of};
ghost use Rattle.member_plans.specs.Engine.{member_system, member_most, member_ended, IsMemberEngine, HasAllPlans};

use crate::engine::MemberPlans;
use crate::front::Front;
use crate::given::Given;
use crate::moves::Moves;
use crate::opened::Opened;
use cost_to_go::CostToGo;
use lazy_plans::Shell;
use prefix_plans::Ranks;
use prefix_tree::{Queue, empty_prefix};
use space_api::Space;
use std::alloc::Global;
use symk_task::{Memory, Task};

/// The empty prefix alone, which waits.
fn first_front<'a, S: Space>(
    alloc: Global,
    space: &S,
    search: &CostToGo<S::Set>,
    task: &'a Task,
) -> Result<Front<'a>, Memory>
    requires alone { IsCostToGoAlone (S.view space.now) search.now }
    ensures ready { IfOk result (λ x. IsEndReady (S.view space.now) search.now x.graph x.tree.items
        (waiting_members x)) }
    ensures first { IfOk result (λ x. prefixes x.tree.items (waiting_members x) ≡ [] ∷ []) }
    ensures serves { IfOk result (λ x. Serves x.moves (system_by task.now)) }
    ensures none { IfOk result (λ x. opened_places x ≡ []) }
    ensures keys { IfOk result (λ x. keys_of x.opened ≡ []) }
{
    let (graph, tree, queue) = empty_prefix(alloc, space)?;
    Ok(Front {
        graph,
        moves: Moves::new(alloc, task)?,
        tree,
        queue,
        other: Queue::new(alloc),
        is_late: false,
        given: Given::new(alloc),
        opened: Opened::new(alloc),
        ranks: Ranks::new(alloc),
    })
}

impl<'a, S: Space + Drop> MemberPlans<'a, S> {
    /// Plans of the space's system, which is that of the task, that cost at most `most`, where it is given. Each one pends.
    /// The search is kept to `within`.
    ///
    /// The caller knows that `within` has each useful state and alone is valid.
    fn begin(
        alloc: Global,
        task: &'a Task,
        space: S,
        most: Option<u64>,
        within: S::Set,
    ) -> Result<MemberPlans<'a, S>, Memory>
        requires task { (S.view space).system ≡ system_by task.now }
        requires within { Valid (S.view space) within }
        requires alone { IsOnlyValid (S.view space) within }
        requires wide { CoversUseful (S.view space) within }
        ensures lawful { IfOk result (λ x. IsMemberEngine S.view x) }
        ensures system { IfOk result (λ x. member_system S.view x ≡ (S.view space).system) }
        ensures all { IfOk result (λ x. HasAllPlans S.view (S.view space).system x) }
        ensures most { IfOk result (λ x. member_most x ≡ most) }
        ensures last { IfOk result (λ x. member_ended x ≡ None) }
    {
        let mut space = space;
        let search = CostToGo::new(alloc, &mut space, within)?;
        let front = first_front(alloc, &space, &search, task)?;
        Ok(MemberPlans {
            space,
            search,
            within,
            front,
            shell: Shell::new(most),
        })
    }

    /// Plans of the space's system, which is that of the task, of each class one at least. Each plan pends.
    ///
    /// The search is kept to `within`, which the caller knows to have each useful state and to be the one valid set.
    pub fn new_within(
        alloc: Global,
        task: &'a Task,
        space: S,
        within: S::Set,
    ) -> Result<MemberPlans<'a, S>, Memory>
        requires task { (S.view space).system ≡ system_by task.now }
        requires within { Valid (S.view space) within }
        requires alone { IsOnlyValid (S.view space) within }
        requires wide { CoversUseful (S.view space) within }
        ensures lawful { IfOk result (λ x. IsMemberEngine S.view x) }
        ensures system { IfOk result (λ x. member_system S.view x ≡ (S.view space).system) }
        ensures all { IfOk result (λ x. HasAllPlans S.view (S.view space).system x) }
        ensures most { IfOk result (λ x. member_most x ≡ None) }
        ensures last { IfOk result (λ x. member_ended x ≡ None) }
    {
        MemberPlans::begin(alloc, task, space, None, within)
    }

    /// The same, with the greatest cost that is wanted.
    pub fn within_most(
        alloc: Global,
        task: &'a Task,
        space: S,
        most: u64,
        within: S::Set,
    ) -> Result<MemberPlans<'a, S>, Memory>
        requires task { (S.view space).system ≡ system_by task.now }
        requires within { Valid (S.view space) within }
        requires alone { IsOnlyValid (S.view space) within }
        requires wide { CoversUseful (S.view space) within }
        ensures lawful { IfOk result (λ x. IsMemberEngine S.view x) }
        ensures system { IfOk result (λ x. member_system S.view x ≡ (S.view space).system) }
        ensures all { IfOk result (λ x. HasAllPlans S.view (S.view space).system x) }
        ensures most { IfOk result (λ x. member_most x ≡ Some most) }
        ensures last { IfOk result (λ x. member_ended x ≡ None) }
    {
        MemberPlans::begin(alloc, task, space, Some(most), within)
    }

    /// The same inside all states, with the greatest cost that is wanted, if there is one.
    fn begin_anywhere(
        alloc: Global,
        task: &'a Task,
        space: S,
        most: Option<u64>,
    ) -> Result<MemberPlans<'a, S>, Memory>
        requires task { (S.view space).system ≡ system_by task.now }
        requires none { HasNoSet (S.view space) }
        ensures lawful { IfOk result (λ x. IsMemberEngine S.view x) }
        ensures system { IfOk result (λ x. member_system S.view x ≡ (S.view space).system) }
        ensures all { IfOk result (λ x. HasAllPlans S.view (S.view space).system x) }
        ensures most { IfOk result (λ x. member_most x ≡ most) }
        ensures last { IfOk result (λ x. member_ended x ≡ None) }
    {
        let mut space = space;
        let within = space.all()?;
        MemberPlans::begin(alloc, task, space, most, within)
    }

    /// Plans of the space's system, which is that of the task, of each class one at least. Each plan pends.
    ///
    /// The caller knows that no set of the space is valid yet.
    pub fn new(alloc: Global, task: &'a Task, space: S) -> Result<MemberPlans<'a, S>, Memory>
        requires task { (S.view space).system ≡ system_by task.now }
        requires none { HasNoSet (S.view space) }
        ensures lawful { IfOk result (λ x. IsMemberEngine S.view x) }
        ensures system { IfOk result (λ x. member_system S.view x ≡ (S.view space).system) }
        ensures all { IfOk result (λ x. HasAllPlans S.view (S.view space).system x) }
        ensures most { IfOk result (λ x. member_most x ≡ None) }
        ensures last { IfOk result (λ x. member_ended x ≡ None) }
    {
        MemberPlans::begin_anywhere(alloc, task, space, None)
    }

    /// The same, with the greatest cost that is wanted.
    pub fn within(
        alloc: Global,
        task: &'a Task,
        space: S,
        most: u64,
    ) -> Result<MemberPlans<'a, S>, Memory>
        requires task { (S.view space).system ≡ system_by task.now }
        requires none { HasNoSet (S.view space) }
        ensures lawful { IfOk result (λ x. IsMemberEngine S.view x) }
        ensures system { IfOk result (λ x. member_system S.view x ≡ (S.view space).system) }
        ensures all { IfOk result (λ x. HasAllPlans S.view (S.view space).system x) }
        ensures most { IfOk result (λ x. member_most x ≡ Some most) }
        ensures last { IfOk result (λ x. member_ended x ≡ None) }
    {
        MemberPlans::begin_anywhere(alloc, task, space, Some(most))
    }
}
