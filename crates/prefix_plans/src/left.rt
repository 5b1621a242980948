//! What is left from a state to the goal.

ghost use Rattle.std.specs.Prelude.{◌≡◌, ◌-◌, ◌<◌, ◌≤◌, ℕ};
ghost use Rattle.space_api.specs.View.{View};
ghost use Rattle.run_graph.specs.Reached.{ReachedAt};
ghost use Rattle.cost_to_go.specs.Standing.{IsCostToGo, next_key_of, to_go_beyond};
ghost use Rattle.cost_to_go.specs.Telling.{CostsAtLeast};
ghost use Rattle.prefix_plans.specs.Left.{least_unranked, IsRanked, IsEndLeft};

use crate::ranks::Ranks;
use cost_to_go::CostToGo;
use prefix_tree::StateGraph;
use space_api::Space;
use symk_task::State;

/// What tells how much is left: a search from both ends over its space, and the states by number. All is lent.
#[derive(Drop)]
pub struct Heuristic<'a, S: Space> {
    pub space: &'a S,
    pub search: &'a CostToGo<S::Set>,
    pub graph: &'a StateGraph,
}

/// What is left at least.
#[derive(Clone, Copy, Debug, PartialEq, Eq)]
pub(crate) struct Left {
    pub(crate) cost: u128,
    /// The state is ranked: this is the least cost of a list of operators to the goal.
    pub(crate) ranked: bool,
    /// The number of its rank; where it has none, how many ranks were looked at.
    pub(crate) ring: usize,
}

/// What is left at least after a cost, where no plan costs less than the bound, and no more than 64 bits hold.
pub(crate) fn left_after(bound: u128, cost: u128) -> u64
    ensures { result ≤ bound - cost }
{
    bound.saturating_sub(cost).min(u64::MAX as u128) as u64
}

/// What is left at least from a state without a rank to which operators lead at this cost; None where no list leads from
/// it to the goal.
fn left_unranked<T: Copy>(search: &CostToGo<T>, cost: u128) -> Option<u128>
    ensures { result ≡ least_unranked (next_key_of search.now) (to_go_beyond search.now) cost }
{
    match search.next() {
        Some(next) => Some(next.saturating_sub(cost).min(1 << 64)),
        None => { if search.beyond() { Some(1 << 64) } else { None } }
    }
}

/// What is left at least from the state of this number, to which operators lead at this cost, as far as the search knows;
/// None where it knows that no list leads to the goal.
///
/// The caller knows that no less than `low` is left, and that no rank below `first` has the state; so no other ranks
/// are looked at.
pub(crate) fn left_from<S: Space>(
    heuristic: &Heuristic<S>,
    ranks: &mut Ranks,
    state: &State,
    number: usize,
    cost: u128,
    first: usize,
    low: u64,
) -> Option<Left>
    requires search { IsCostToGo (S.view heuristic.now.space.now) heuristic.now.search.now }
    requires reached { ReachedAt (S.view heuristic.now.space.now).system cost state.now }
    requires first { (c i : ℕ) → i < first → ¬ IsRanked (S.view heuristic.now.space.now)
        heuristic.now.search.now c i state.now }
    requires low { CostsAtLeast (S.view heuristic.now.space.now).system state.now low }
    ensures { IsEndLeft (S.view heuristic.now.space.now) heuristic.now.search.now cost state.now result }
{
    let (space, search) = (heuristic.space, heuristic.search);
    if let Some(rank) = ranks.rank_from(space, search, state, number, first, low) {
        return Some(Left {
            cost: rank.cost as u128,
            ranked: true,
            ring: rank.number,
        });
    }
    match left_unranked(search, cost) {
        None => None,
        Some(left) => Some(Left {
            cost: left.max(low as u128),
            ranked: false,
            ring: search.ranks(),
        }),
    }
}
