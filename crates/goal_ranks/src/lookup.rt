//! What is known of ranks.

/// A rank: what its states cost to the goal at least, and its number.
#[derive(Clone, Copy, Debug, PartialEq, Eq)]
pub struct Rank {
    pub cost: u64,
    pub number: usize,
}

ghost use Rattle.std.specs.Prelude.{◌≡◌, ◌+◌, ◌<◌, ◌≤◌, ◌^◌, ℕ, ◌↔◌, IsTrue, IsFalse, IfSome, IfNone, MatchOption, length};
ghost use Rattle.task_system.specs.System.{State};
ghost use Rattle.space_api.specs.View.{View, Valid, Has};
ghost use Rattle.space_api.specs.States.{IsReached};
ghost use Rattle.run_graph.specs.Reached.{ReachedAt, AtCost, ReachedInside};
ghost use Rattle.run_graph.specs.declared.Side.TheVariants.{Back};
ghost use Rattle.run_graph.specs.Inside.{InsideAt};
ghost use Rattle.run_graph.specs.Ranks.{NoneBelow};
ghost use Rattle.goal_ranks.specs.Lists.{IsNextKey, IsFirstWaiting};
ghost use Rattle.goal_ranks.specs.Ranks.{IsGoalRanks, HasRank, WaitsIn, rank_within, ranks_of, rank_beyond, unranked_of, items_of, slots_of};
ghost use Rattle.goal_ranks.specs.Known.{HasWayDown, IsOutside, IsNewest};

use crate::lists::First;
use crate::parts::{Ranked, Waiting};
use crate::search::GoalRanks;
use space_api::{Space, has_state};
use symk_task::State;

/// Whether the ranked set has the state, and costs so much at least.
fn may_have<S: Space>(space: &S, ranked: Ranked<S::Set>, state: &State, low: u64) -> bool
    requires set { Valid (S.view space.now) ranked.set }
    requires state { IsReached (S.view space.now).system state.now }
    ensures { IsTrue result ↔ ((low ≤ ranked.cost) × Has (S.view space.now) ranked.set state.now) }
{
    if ranked.cost < low {
        return false;
    }
    has_state(space, ranked.set, state)
}

impl<T: Copy> GoalRanks<T> {
    /// The rank of the state, which operators reach, of those of the number of `from` or later that cost as much or more.
    /// None exactly where none of these has it. It takes no memory, and looks at one set where the state has no rank at all.
    pub fn rank_from<S: Space<Set = T>>(&self, space: &S, state: &State, from: Rank) -> Option<Rank>
        requires ranks { IsGoalRanks (S.view space.now) self.now }
        requires state { IsReached (S.view space.now).system state.now }
        ensures { MatchOption result ((i x : ℕ) → from.number ≤ i → from.cost ≤ x
            → ¬ HasRank (S.view space.now) self.now i x state.now)
            (λ rank. HasRank (S.view space.now) self.now rank.number rank.cost state.now) }
    {
        if has_state(space, self.left, state) {
            return None;
        }
        'ranks: for number in from.number..self.ranks.len() {
            let ranked = self.ranks[number];
            if may_have(space, ranked, state, from.cost) {
                return Some(Rank {
                    cost: ranked.cost,
                    number,
                });
            }
        }
        None
    }

    /// The rank of the state, which operators reach. None exactly where it has none. It takes no memory.
    pub fn rank_of<S: Space<Set = T>>(&self, space: &S, state: &State) -> Option<Rank>
        requires ranks { IsGoalRanks (S.view space.now) self.now }
        requires state { IsReached (S.view space.now).system state.now }
        ensures { MatchOption result ((i x : ℕ) → ¬ HasRank (S.view space.now) self.now i x state.now)
            (λ rank. HasRank (S.view space.now) self.now rank.number rank.cost state.now) }
    {
        let first = Rank { cost: 0, number: 0 };
        self.rank_from(space, state, first)
    }

    /// Of the sets that wait in slots the one of the least key. None where no slot has one. The set stays its owner's, until
    /// a turn.
    pub fn first_waiting(&self) -> Option<Waiting<T>>
        ensures valid { (v : View T) → IsGoalRanks v self.now → IfSome result (λ waiting. Valid v waiting.set) }
        ensures value { IsFirstWaiting (slots_of self.now) result }
    {
        let least = self.slot_keys.least()?;
        if least.index >= self.slots.len() {
            return None;
        }
        self.slots[least.index]
    }

    /// The states that may have a rank and have none. The set stays its owner's, until a turn.
    pub fn left(&self) -> T
        ensures { result ≡ unranked_of self.now }
    {
        self.left
    }

    /// The cost of the newest rank. None exactly where no state has one.
    pub fn newest(&self) -> Option<u64>
        ensures { IsNewest (items_of self.now) result }
    {
        match self.ranks.last() {
            Some(ranked) => Some(ranked.cost),
            None => None,
        }
    }

    /// How many ranks there are. There are no more than states. A state has one at most, at its least cost to the goal
    /// inside `within`; and unless it is a goal state and costs nothing, an operator leads from it to a state of a rank
    /// before, at the cost between them.
    pub fn ranks(&self) -> usize
        ensures many { result ≡ ranks_of self.now }
        ensures few { (v : View T) → IsGoalRanks v self.now → result ≤ length v.system.states }
        ensures least { (v : View T) → IsGoalRanks v self.now → (i x : ℕ) (s : State) → HasRank v self.now i x s
            → AtCost Back v.system x s × ((d : ℕ) → InsideAt Back v.system (Has v (rank_within self.now)) d s → x ≤ d) }
        ensures once { (v : View T) → IsGoalRanks v self.now → (i j x d : ℕ) (s : State) → HasRank v self.now i x s
            → HasRank v self.now j d s → (i ≡ j) × (x ≡ d) }
        ensures way { (v : View T) → IsGoalRanks v self.now → (i x : ℕ) (s : State) → HasRank v self.now i x s
            → HasWayDown v self.now i x s }
    {
        self.ranks.len()
    }

    /// The least key of what waits: no plan costs less that comes through a state without a rank and goes on from there
    /// inside `within`, at a cost that 64 bits hold. None exactly where nothing waits: then there is no such plan.
    pub fn next(&self) -> Option<u128>
        ensures key { IsNextKey (slots_of self.now) (items_of self.now) result }
        ensures least { (v : View T) → MatchOption result ((k x : ℕ) (s : State) → ¬ WaitsIn v self.now k x s)
            (NoneBelow (WaitsIn v self.now)) }
        ensures bound { (v : View T) → IsGoalRanks v self.now → IfSome result (λ n. (s : State)
            → IsOutside v self.now s → (a d : ℕ) → ReachedAt v.system a s
            → InsideAt Back v.system (Has v (rank_within self.now)) d s → d < 2 ^ 64 → n ≤ a + d) }
        ensures closed { (v : View T) → IsGoalRanks v self.now → IfNone result ((s : State)
            → IsOutside v self.now s → (d : ℕ) → InsideAt Back v.system (Has v (rank_within self.now)) d s
            → 2 ^ 64 ≤ d) }
    {
        match self.first() {
            First::Nothing => None,
            First::Slot(least) => Some(least.key),
            First::Arcs(least) => Some(least.key),
        }
    }

    /// Whether arcs were left out that cost more than 64 bits hold. Where none were and nothing waits, each state has a
    /// rank from which a run inside `within` leads to the goal.
    pub fn beyond(&self) -> bool
        ensures value { result ≡ rank_beyond self.now }
        ensures all { (v : View T) → IsGoalRanks v self.now → IsFalse result
            → ((k x : ℕ) (s : State) → ¬ WaitsIn v self.now k x s) → (s : State)
            → ReachedInside Back v.system (Has v (rank_within self.now)) s → (i : ℕ) × (x : ℕ)
            × HasRank v self.now i x s }
    {
        self.beyond
    }
}
