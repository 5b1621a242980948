//! Engines at their first step.

ghost use Rattle.std.specs.Prelude.{◌≡◌, IfOk, None, Some};
ghost use Rattle.space_api.specs.View.{View, Valid};
ghost use Rattle.prefix_plans.specs.Owned.{HasNoSet, IsOnlyValid, CoversUseful};
ghost use Rattle.prefix_plans.specs.Engine.{prefix_system, prefix_most, prefix_ended, IsPrefixEngine, OwesAllPrefix};

use crate::engine::PrefixPlans;
use crate::front::Front;
use crate::ranks::Ranks;
use cost_to_go::CostToGo;
use lazy_plans::Shell;
use prefix_tree::empty_prefix;
use space_api::Space;
use std::alloc::Global;
use symk_task::Memory;

impl<S: Space + Drop> PrefixPlans<S> {
    /// All plans of the space's system that cost at most `most`, where it is given. No plan is taken yet: each one pends.
    /// The search is kept to `within`.
    ///
    /// The caller knows that `within` has each useful state and alone is valid.
    fn begin(
        alloc: Global,
        space: S,
        most: Option<u64>,
        within: S::Set,
    ) -> Result<PrefixPlans<S>, Memory>
        requires within { Valid (S.view space) within }
        requires alone { IsOnlyValid (S.view space) within }
        requires wide { CoversUseful (S.view space) within }
        ensures lawful { IfOk result (λ x. IsPrefixEngine S.view x) }
        ensures system { IfOk result (λ x. prefix_system S.view x ≡ (S.view space).system) }
        ensures all { IfOk result (λ x. OwesAllPrefix S.view (S.view space).system x) }
        ensures most { IfOk result (λ x. prefix_most x ≡ most) }
        ensures last { IfOk result (λ x. prefix_ended x ≡ None) }
    {
        let mut space = space;
        let search = CostToGo::new(alloc, &mut space, within)?;
        let (graph, tree, queue) = empty_prefix(alloc, &space)?;
        let shell = Shell::new(most);
        Ok(PrefixPlans {
            space,
            search,
            within,
            front: Front {
                graph,
                ranks: Ranks::new(alloc),
                tree,
                queue,
            },
            shell,
        })
    }

    /// All plans of the space's system. No plan is taken yet: each one pends.
    ///
    /// The search is kept to `within`, which the caller knows to have each useful state and to be the one valid set.
    pub fn new_within(alloc: Global, space: S, within: S::Set) -> Result<PrefixPlans<S>, Memory>
        requires within { Valid (S.view space) within }
        requires alone { IsOnlyValid (S.view space) within }
        requires wide { CoversUseful (S.view space) within }
        ensures lawful { IfOk result (λ x. IsPrefixEngine S.view x) }
        ensures system { IfOk result (λ x. prefix_system S.view x ≡ (S.view space).system) }
        ensures all { IfOk result (λ x. OwesAllPrefix S.view (S.view space).system x) }
        ensures most { IfOk result (λ x. prefix_most x ≡ None) }
        ensures last { IfOk result (λ x. prefix_ended x ≡ None) }
    {
        PrefixPlans::begin(alloc, space, None, within)
    }

    /// The same, with the greatest cost that is wanted.
    pub fn within_most(
        alloc: Global,
        space: S,
        most: u64,
        within: S::Set,
    ) -> Result<PrefixPlans<S>, Memory>
        requires within { Valid (S.view space) within }
        requires alone { IsOnlyValid (S.view space) within }
        requires wide { CoversUseful (S.view space) within }
        ensures lawful { IfOk result (λ x. IsPrefixEngine S.view x) }
        ensures system { IfOk result (λ x. prefix_system S.view x ≡ (S.view space).system) }
        ensures all { IfOk result (λ x. OwesAllPrefix S.view (S.view space).system x) }
        ensures most { IfOk result (λ x. prefix_most x ≡ Some most) }
        ensures last { IfOk result (λ x. prefix_ended x ≡ None) }
    {
        PrefixPlans::begin(alloc, space, Some(most), within)
    }

    /// The same inside all states, with the greatest cost that is wanted, if there is one.
    fn begin_anywhere(alloc: Global, space: S, most: Option<u64>) -> Result<PrefixPlans<S>, Memory>
        requires { HasNoSet (S.view space) }
        ensures lawful { IfOk result (λ x. IsPrefixEngine S.view x) }
        ensures system { IfOk result (λ x. prefix_system S.view x ≡ (S.view space).system) }
        ensures all { IfOk result (λ x. OwesAllPrefix S.view (S.view space).system x) }
        ensures most { IfOk result (λ x. prefix_most x ≡ most) }
        ensures last { IfOk result (λ x. prefix_ended x ≡ None) }
    {
        let mut space = space;
        let within = space.all()?;
        PrefixPlans::begin(alloc, space, most, within)
    }

    /// All plans of the space's system. No plan is taken yet: each one pends.
    ///
    /// The caller knows that no set of the space is valid yet.
    pub fn new(alloc: Global, space: S) -> Result<PrefixPlans<S>, Memory>
        requires { HasNoSet (S.view space) }
        ensures lawful { IfOk result (λ x. IsPrefixEngine S.view x) }
        ensures system { IfOk result (λ x. prefix_system S.view x ≡ (S.view space).system) }
        ensures all { IfOk result (λ x. OwesAllPrefix S.view (S.view space).system x) }
        ensures most { IfOk result (λ x. prefix_most x ≡ None) }
        ensures last { IfOk result (λ x. prefix_ended x ≡ None) }
    {
        PrefixPlans::begin_anywhere(alloc, space, None)
    }

    /// The same, with the greatest cost that is wanted.
    pub fn within(alloc: Global, space: S, most: u64) -> Result<PrefixPlans<S>, Memory>
        requires { HasNoSet (S.view space) }
        ensures lawful { IfOk result (λ x. IsPrefixEngine S.view x) }
        ensures system { IfOk result (λ x. prefix_system S.view x ≡ (S.view space).system) }
        ensures all { IfOk result (λ x. OwesAllPrefix S.view (S.view space).system x) }
        ensures most { IfOk result (λ x. prefix_most x ≡ Some most) }
        ensures last { IfOk result (λ x. prefix_ended x ≡ None) }
    {
        PrefixPlans::begin_anywhere(alloc, space, Some(most))
    }
}
