//! Ranks that were found, by the numbers of states.

use cost_to_go::Rank;

/// Ranks that were found, by the numbers of their states, since many prefixes come to one state. A rank is only told once
/// the search says again that it is the state's, so what is told is right whatever is kept.
#[derive(Drop)]
pub struct Ranks {
    /// The last states may have no place here.
    kept: Vec<Option<Rank>>,
}

ghost use Rattle.std.specs.Prelude.{◌≤◌, ℕ, MatchOption};
ghost use Rattle.space_api.specs.View.{View};
ghost use Rattle.space_api.specs.States.{IsReached};
ghost use Rattle.cost_to_go.specs.Standing.{IsCostToGo};
ghost use Rattle.prefix_plans.specs.Left.{IsRanked};

use cost_to_go::CostToGo;
use space_api::Space;
use std::alloc::Global;
use symk_task::State;

impl Ranks {
    /// No rank was found.
    pub fn new(alloc: Global) -> Ranks {
        Ranks {
            kept: Vec::new(alloc),
        }
    }

    /// The rank that is kept at this number.
    fn kept_at(&self, number: usize) -> Option<Rank> {
        match self.kept.get(number) {
            Some(rank) => *rank,
            None => None,
        }
    }

    /// Keeps the rank at this number. To be out of memory only means that it is looked for again.
    fn keep(&mut self, number: usize, rank: Rank) {
        'places: for _ in self.kept.len()..=number {
            if self.kept.push(None).is_err() {
                return;
            }
        }
        if let Some(place) = self.kept.get_mut(number) {
            *place = Some(rank);
        }
    }

    /// The rank of the state of this number, which operators reach. None where no rank from `first` on whose cost is `low` or
    /// more has it.
    pub(crate) fn rank_from<S: Space>(
        &mut self,
        space: &S,
        search: &CostToGo<S::Set>,
        state: &State,
        number: usize,
        first: usize,
        low: u64,
    ) -> Option<Rank>
        requires search { IsCostToGo (S.view space.now) search.now }
        requires state { IsReached (S.view space.now).system state.now }
        ensures { MatchOption result ((i c : ℕ) → first ≤ i → low ≤ c → ¬ IsRanked (S.view space.now) search.now c i
            state.now) (λ rank. IsRanked (S.view space.now) search.now rank.cost rank.number state.now) }
    {
        if let Some(rank) = self.kept_at(number) {
            if let Some(rank) = search.rank_from(space, state, rank) {
                return Some(rank);
            }
        }
        let from = Rank {
            cost: low,
            number: first,
        };
        let found = search.rank_from(space, state, from);
        if let Some(rank) = found {
            self.keep(number, rank);
        }
        found
    }
}
