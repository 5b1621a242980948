//! Engines at their first step.

ghost use Rattle.std.specs.Prelude.{◌≡◌, IfOk, IfSome, List, None, Some};
ghost use Rattle.space_api.specs.View.{View, Valid};
ghost use Rattle.task_system.specs.System.{State, System};
ghost use Rattle.loopless.specs.Rests.{AreKeptRests};
ghost use Rattle.loopless.specs.Engine.{loopless_system, loopless_most, loopless_ended, IsLooplessEngine, HasNone, HasAlone, HasEachUseful, OwesAll};

use crate::engine::LooplessPlans;
use crate::few_states::find_rests;
use crate::front::Front;
use crate::racing::keep_to_reached;
use crate::rests::Rests;
use backward_search::{Backward, Kind};
use lazy_plans::Shell;
use prefix_tree::empty_prefix;
use space_api::Space;
use std::alloc::Global;
use symk_task::Memory;

/// What was found, or nothing.
fn found_or_none(alloc: Global, found: Option<Rests>) -> Rests
    ensures { (y : System) (states : List State) → IfSome found (AreKeptRests y states) → AreKeptRests y states result }
{
    match found {
        Some(rests) => rests,
        None => Rests::new(alloc),
    }
}

impl<S: Space + Drop> LooplessPlans<S> {
    /// All loopless plans of the space's system that cost at most `most`, where it is given. No plan is taken
    /// yet: each one pends. The search back is kept to `within`, and to the states that are reached where these
    /// are soon found.
    ///
    /// The caller knows that `within` has each useful state and alone is valid.
    fn begin(
        alloc: Global,
        space: S,
        most: Option<u64>,
        within: S::Set,
    ) -> Result<LooplessPlans<S>, Memory>
        requires within { Valid (S.view space) within }
        requires alone { HasAlone (S.view space) within }
        requires wide { HasEachUseful (S.view space) within }
        ensures lawful { IfOk result (λ x. IsLooplessEngine S.view x) }
        ensures system { IfOk result (λ x. loopless_system S.view x ≡ (S.view space).system) }
        ensures all { IfOk result (λ x. OwesAll S.view (S.view space).system x) }
        ensures most { IfOk result (λ x. loopless_most x ≡ most) }
        ensures last { IfOk result (λ x. loopless_ended x ≡ None) }
    {
        let mut space = space;
        let (mut graph, tree, queue) = empty_prefix(alloc, &space)?;
        let found = find_rests(alloc, &space, &mut graph)?;
        let is_known = found.is_some();
        let rests = found_or_none(alloc, found);
        let backward = Backward::new(alloc, &mut space, within, Kind::Least)?;
        let backward = keep_to_reached(alloc, &mut space, backward, within, most, is_known)?;
        let shell = Shell::new(most);
        Ok(LooplessPlans {
            space,
            backward,
            front: Front {
                graph,
                rests,
                tree,
                queue,
            },
            shell,
        })
    }

    /// All loopless plans of the space's system. No plan is taken yet: each one pends.
    ///
    /// The search back is kept to `within`, which the caller knows to have each useful state and to be the one
    /// valid set.
    pub fn new_within(alloc: Global, space: S, within: S::Set) -> Result<LooplessPlans<S>, Memory>
        requires within { Valid (S.view space) within }
        requires alone { HasAlone (S.view space) within }
        requires wide { HasEachUseful (S.view space) within }
        ensures lawful { IfOk result (λ x. IsLooplessEngine S.view x) }
        ensures system { IfOk result (λ x. loopless_system S.view x ≡ (S.view space).system) }
        ensures all { IfOk result (λ x. OwesAll S.view (S.view space).system x) }
        ensures most { IfOk result (λ x. loopless_most x ≡ None) }
        ensures last { IfOk result (λ x. loopless_ended x ≡ None) }
    {
        LooplessPlans::begin(alloc, space, None, within)
    }

    /// The same, with the greatest cost that is wanted.
    pub fn within_most(
        alloc: Global,
        space: S,
        most: u64,
        within: S::Set,
    ) -> Result<LooplessPlans<S>, Memory>
        requires within { Valid (S.view space) within }
        requires alone { HasAlone (S.view space) within }
        requires wide { HasEachUseful (S.view space) within }
        ensures lawful { IfOk result (λ x. IsLooplessEngine S.view x) }
        ensures system { IfOk result (λ x. loopless_system S.view x ≡ (S.view space).system) }
        ensures all { IfOk result (λ x. OwesAll S.view (S.view space).system x) }
        ensures most { IfOk result (λ x. loopless_most x ≡ Some most) }
        ensures last { IfOk result (λ x. loopless_ended x ≡ None) }
    {
        LooplessPlans::begin(alloc, space, Some(most), within)
    }

    /// The same inside all states, with the greatest cost that is wanted, if there is one.
    fn begin_anywhere(
        alloc: Global,
        space: S,
        most: Option<u64>,
    ) -> Result<LooplessPlans<S>, Memory>
        requires { HasNone (S.view space) }
        ensures lawful { IfOk result (λ x. IsLooplessEngine S.view x) }
        ensures system { IfOk result (λ x. loopless_system S.view x ≡ (S.view space).system) }
        ensures all { IfOk result (λ x. OwesAll S.view (S.view space).system x) }
        ensures most { IfOk result (λ x. loopless_most x ≡ most) }
        ensures last { IfOk result (λ x. loopless_ended x ≡ None) }
    {
        let mut space = space;
        let within = space.all()?;
        LooplessPlans::begin(alloc, space, most, within)
    }

    /// All loopless plans of the space's system. No plan is taken yet: each one pends.
    ///
    /// The caller knows that no set of the space is valid yet.
    pub fn new(alloc: Global, space: S) -> Result<LooplessPlans<S>, Memory>
        requires { HasNone (S.view space) }
        ensures lawful { IfOk result (λ x. IsLooplessEngine S.view x) }
        ensures system { IfOk result (λ x. loopless_system S.view x ≡ (S.view space).system) }
        ensures all { IfOk result (λ x. OwesAll S.view (S.view space).system x) }
        ensures most { IfOk result (λ x. loopless_most x ≡ None) }
        ensures last { IfOk result (λ x. loopless_ended x ≡ None) }
    {
        LooplessPlans::begin_anywhere(alloc, space, None)
    }

    /// The same, with the greatest cost that is wanted.
    pub fn within(alloc: Global, space: S, most: u64) -> Result<LooplessPlans<S>, Memory>
        requires { HasNone (S.view space) }
        ensures lawful { IfOk result (λ x. IsLooplessEngine S.view x) }
        ensures system { IfOk result (λ x. loopless_system S.view x ≡ (S.view space).system) }
        ensures all { IfOk result (λ x. OwesAll S.view (S.view space).system x) }
        ensures most { IfOk result (λ x. loopless_most x ≡ Some most) }
        ensures last { IfOk result (λ x. loopless_ended x ≡ None) }
    {
        LooplessPlans::begin_anywhere(alloc, space, Some(most))
    }
}
