//! What is known of what is left.

ghost use Rattle.std.specs.Prelude.{◌≡◌, ◌<◌, ◌≤◌, ℕ, MatchOption, length};
ghost use Rattle.task_system.specs.System.{State};
ghost use Rattle.space_api.specs.View.{View};
ghost use Rattle.run_graph.specs.Reached.{ToGoalAt};
ghost use Rattle.space_api.specs.States.{IsReached};
ghost use Rattle.cost_to_go.specs.Standing.{IsCostToGo, HasRankToGo, HasWayToGo, to_go_ranks, to_go_beyond, next_key_of};
ghost use Rattle.cost_to_go.specs.Telling.{CostsAtLeast, TellsOutside};

use crate::search::CostToGo;
use goal_ranks::Rank;
use space_api::Space;
use symk_task::State;

impl<T: Copy> CostToGo<T> {
    /// The least key of what waits: no plan costs less that comes through a state without a rank, as far as 64 bits hold
    /// what is left from there. None exactly where nothing waits: then what is left there costs more than 64 bits hold,
    /// and unless `beyond` is true no list leads on to the goal.
    pub fn next(&self) -> Option<u128>
        ensures value { result ≡ next_key_of self.now }
        ensures outside { (v : View T) → IsCostToGo v self.now → TellsOutside v self.now result }
    {
        self.next
    }

    /// How many ranks there are. There are no more than states. A state has one at most. Its cost is that of a list of
    /// operators to the goal, and no list from a reached state costs less; and unless it is a goal state and costs nothing,
    /// an operator leads from it to a state of a rank before, at the cost between them.
    pub fn ranks(&self) -> usize
        ensures many { result ≡ to_go_ranks self.now }
        ensures few { (v : View T) → IsCostToGo v self.now → result ≤ length v.system.states }
        ensures under { (v : View T) → (i x : ℕ) (s : State) → HasRankToGo v self.now i x s → i < result }
        ensures leads { (v : View T) → IsCostToGo v self.now → (i x : ℕ) (s : State) → HasRankToGo v self.now i x s
            → ToGoalAt v.system x s }
        ensures least { (v : View T) → IsCostToGo v self.now → (i x : ℕ) (s : State) → HasRankToGo v self.now i x s
            → IsReached v.system s → CostsAtLeast v.system s x }
        ensures once { (v : View T) → IsCostToGo v self.now → (i j x d : ℕ) (s : State) → HasRankToGo v self.now i x s
            → HasRankToGo v self.now j d s → (i ≡ j) × (x ≡ d) }
        ensures way { (v : View T) → IsCostToGo v self.now → (i x : ℕ) (s : State) → HasRankToGo v self.now i x s
            → HasWayToGo v self.now i x s }
    {
        self.ranks.ranks()
    }

    /// Whether what costs more than 64 bits hold was left out.
    pub fn beyond(&self) -> bool
        ensures { result ≡ to_go_beyond self.now }
    {
        self.ranks.beyond()
    }

    /// The rank of the state, which operators reach, of those of the number of `from` or later that cost as much or more, as
    /// `GoalRanks::rank_from` tells it. None exactly where none of these has it.
    pub fn rank_from<S: Space<Set = T>>(&self, space: &S, state: &State, from: Rank) -> Option<Rank>
        requires stands { IsCostToGo (S.view space.now) self.now }
        requires state { IsReached (S.view space.now).system state.now }
        ensures { MatchOption result ((i x : ℕ) → from.number ≤ i → from.cost ≤ x
            → ¬ HasRankToGo (S.view space.now) self.now i x state.now)
            (λ rank. HasRankToGo (S.view space.now) self.now rank.number rank.cost state.now) }
    {
        self.ranks.rank_from(space, state, from)
    }
}
