//! Which side goes on. It is steered by how much work each was, and told in no clause: it steers speed alone.

ghost use Rattle.std.specs.Prelude.{◌<◌, ◌^◌, IsTrue};
ghost use Rattle.space_api.specs.View.{View, Valid};
ghost use Rattle.space_api.specs.Frames.{Stays};
ghost use Rattle.goal_ranks.specs.Least.{next_of};
ghost use Rattle.cost_to_go.specs.Standing.{IsCostToGo, ahead_in};

use crate::search::CostToGo;
use crate::spells::Reach;
use goal_ranks::{Step, Turn, bound_ahead};
use space_api::{Space, SpaceFault, meets};

/// How much work a step was: by what the space counts before and after it, and one for each cost of operators that the step
/// looked at. A step ahead looks at each of them, also where it settles nothing.
pub(crate) fn work_of(before: u64, now: u64, looked_at: usize) -> u64 {
    now.wrapping_sub(before).saturating_add(looked_at as u64)
}

impl<T: Copy> CostToGo<T> {
    /// Whether the search ahead is the one to go on: it has a cost that is open.
    pub(crate) fn is_turn_of_ahead(&self) -> bool
        ensures { IsTrue result → next_of (ahead_in self.now) < 2 ^ 64 }
    {
        if self.ahead.next_cost().is_none() {
            return false;
        }
        self.both && self.spells.is_ahead()
    }

    /// How far both sides are.
    pub(crate) fn reach(&self) -> Reach {
        Reach {
            ahead: self.ahead.next_cost().unwrap_or(u64::MAX),
            back: self.ranks.newest().unwrap_or(0),
        }
    }

    /// Whether a state of the set has a rank.
    fn is_ranked_in<S: Space<Set = T>>(&self, space: &mut S, set: T) -> Result<bool, SpaceFault>
        requires stands { IsCostToGo (S.view space.old) self.now }
        requires set { Valid (S.view space.old) set }
        ensures { Stays (S.view space.old) (S.view space.new) }
    {
        let known = space.minus(set, self.ranks.left())?;
        let apart = space.is_empty(known);
        space.forget(known);
        Ok(!apart)
    }

    /// Whether a state of the set waits first for a rank.
    fn is_first_in<S: Space<Set = T>>(&self, space: &mut S, set: T) -> Result<bool, SpaceFault>
        requires stands { IsCostToGo (S.view space.old) self.now }
        requires set { Valid (S.view space.old) set }
        ensures { Stays (S.view space.old) (S.view space.new) }
    {
        match self.ranks.first_waiting() {
            Some(first) => meets(space, set, first.set),
            None => Ok(false),
        }
    }

    /// Whether the layer that the search ahead settled last has met the ranks: one of its states has a rank, or waits first
    /// for one.
    fn is_layer_met<S: Space<Set = T>>(&self, space: &mut S, cost: u64) -> Result<bool, SpaceFault>
        requires { IsCostToGo (S.view space.old) self.now }
        ensures { Stays (S.view space.old) (S.view space.new) }
    {
        let Some(whole) = self.ahead.layers().layer(cost) else {
            return Ok(false);
        };
        if self.is_first_in(space, whole)? {
            return Ok(true);
        }
        self.is_ranked_in(space, whole)
    }

    /// Whether both sides go on after this step of the search ahead.
    pub(crate) fn goes_on_after<S: Space<Set = T>>(
        &self,
        space: &mut S,
        step: Step,
    ) -> Result<bool, SpaceFault>
        requires { IsCostToGo (S.view space.old) self.now }
        ensures { Stays (S.view space.old) (S.view space.new) }
    {
        match step {
            Step::Settled { cost } => Ok(!self.is_layer_met(space, cost)?),
            Step::Closed => Ok(false),
        }
    }

    /// Whether the search ahead has settled no state of the newest rank, which waited under this key.
    fn is_rank_apart(&self, key: Option<u128>) -> bool {
        match (key, self.ranks.newest()) {
            (Some(key), Some(cost)) => key >= cost as u128 + bound_ahead(&self.ahead),
            (_, _) => true,
        }
    }

    /// Whether both sides go on, if both did, after this turn of what waited under the key.
    pub(crate) fn goes_on_with(&self, turn: Turn, key: Option<u128>) -> bool {
        match turn {
            Turn::Ranked => self.both && self.is_rank_apart(key),
            Turn::Waited => self.both,
            Turn::Closed => false,
        }
    }
}
