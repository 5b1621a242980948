//! A search from both ends, and how it is given back.

use crate::spells::Spells;
use goal_ranks::{GoalRanks, LeastCosts, Rings};

/// What is left from states to the goal, as far as ranks back from there and a search ahead tell it.
#[derive(Drop)]
pub struct CostToGo<T: Copy> {
    pub(crate) ranks: GoalRanks<T>,
    pub(crate) ahead: LeastCosts<T>,
    /// The rings of the search ahead, as far as the ranks looked at them.
    pub(crate) rings: Rings<T>,
    /// Every state: the search ahead goes inside it.
    pub(crate) everywhere: T,
    /// The least key of what waits for a rank.
    pub(crate) next: Option<u128>,
    /// Both sides go on, by turns.
    pub(crate) both: bool,
    /// Whose turn it is, while both go on.
    pub(crate) spells: Spells,
}

ghost use Rattle.space_api.specs.Owned.{Trades};
ghost use Rattle.cost_to_go.specs.Standing.{IsCostToGo, IsOwnToGo};

use space_api::Space;

impl<T: Copy> CostToGo<T> {
    /// Gives each set that it made back. `within` stays.
    pub fn give_back<S: Space<Set = T>>(self, space: &mut S)
        requires { IsCostToGo (S.view space.old) self }
        ensures { Trades (S.view space.old) (S.view space.new) (IsOwnToGo self) (λ a. ⊥) }
    {
        self.ranks.give_back(space);
        self.ahead.give_back(space);
        self.rings.give_back(space);
        space.forget(self.everywhere);
    }
}
