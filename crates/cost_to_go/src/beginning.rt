//! A search from both ends at its first step.

ghost use Rattle.std.specs.Prelude.{◌≡◌, ◌≢◌, ℕ, IfOk, OnErr};
ghost use Rattle.task_system.specs.System.{State};
ghost use Rattle.run_graph.specs.Reached.{ReachedAt};
ghost use Rattle.space_api.specs.View.{View, Valid, Has};
ghost use Rattle.space_api.specs.Frames.{Stays};
ghost use Rattle.space_api.specs.Owned.{Trades};
ghost use Rattle.cost_to_go.specs.Standing.{IsCostToGo, IsOwnToGo, HasUseful, to_go_within, to_go_ranks};

use crate::search::CostToGo;
use crate::spells::Spells;
use goal_ranks::{GoalRanks, LeastCosts, Rings, Side};
use space_api::{Space, SpaceFault};
use std::alloc::Global;

/// Both searches at their first step, the one ahead inside this set of every state.
fn begin<S: Space>(
    alloc: Global,
    space: &mut S,
    within: S::Set,
    everywhere: S::Set,
) -> Result<CostToGo<S::Set>, SpaceFault>
    requires within { Valid (S.view space.old) within }
    requires wide { HasUseful (S.view space.old) within }
    requires everywhere { Valid (S.view space.old) everywhere }
    requires all { (c : ℕ) (s : State) → ReachedAt (S.view space.old).system c s → Has (S.view space.old) everywhere s }
    requires two { within ≢ everywhere }
    ensures stands { IfOk result (IsCostToGo (S.view space.new)) }
    ensures within { IfOk result (λ f. to_go_within f ≡ within) }
    ensures fresh { IfOk result (λ f. to_go_ranks f ≡ 0) }
    ensures trades { IfOk result (λ f. Trades (S.view space.old) (S.view space.new) (λ a. a ≡ everywhere)
        (IsOwnToGo f)) }
    ensures err { OnErr result (Stays (S.view space.old) (S.view space.new)) }
{
    let ahead = LeastCosts::new(alloc, space, Side::Ahead, everywhere)?;
    match GoalRanks::new(alloc, space, within) {
        Ok(ranks) => {
            let rings = Rings::new(alloc);
            let next = ranks.next();
            Ok(CostToGo {
                ranks,
                ahead,
                rings,
                everywhere,
                next,
                both: true,
                spells: Spells::new(),
            })
        }
        Err(fault) => {
            ahead.give_back(space);
            Err(fault)
        }
    }
}

impl<T: Copy> CostToGo<T> {
    /// No state has a rank, and the goal states wait.
    ///
    /// `within` has the states that may have a rank: the caller knows that each useful state is one of them. It stays the
    /// caller's, and valid.
    pub fn new<S: Space<Set = T>>(
        alloc: Global,
        space: &mut S,
        within: T,
    ) -> Result<CostToGo<T>, SpaceFault>
        requires within { Valid (S.view space.old) within }
        requires wide { HasUseful (S.view space.old) within }
        ensures stands { IfOk result (IsCostToGo (S.view space.new)) }
        ensures within { IfOk result (λ f. to_go_within f ≡ within) }
        ensures fresh { IfOk result (λ f. to_go_ranks f ≡ 0) }
        ensures trades { IfOk result (λ f. Trades (S.view space.old) (S.view space.new) (λ a. ⊥) (IsOwnToGo f)) }
        ensures err { OnErr result (Stays (S.view space.old) (S.view space.new)) }
    {
        let everywhere = space.all()?;
        match begin(alloc, space, within, everywhere) {
            Ok(found) => Ok(found),
            Err(fault) => {
                space.forget(everywhere);
                Err(fault)
            }
        }
    }
}
