//! The moves of the pairs of a cost and a state that were expanded last, and whether a plan ends there.
//!
//! The suffixes of one cost come to few states, each of them often, and what leads on from a state hangs on what is
//! left of the cost and on nothing else of the suffix. So the moves of a pair are kept at a place that the pair tells,
//! in the stead of those of another pair.

use crate::moves::{Move, Successors};
use std::alloc::Global;
use std::mem;
use symk_task::State;

/// The moves from a state where so much of the cost is left, and whether a plan ends there.
#[derive(Drop)]
pub(crate) struct Expansion {
    pub(crate) cost: u64,
    pub(crate) state: State,
    pub(crate) moves: Vec<Move>,
    pub(crate) ends: bool,
}

/// How many places there are at first.
const FEWEST: usize = 64;

/// How many places there are at most, so that what they have stays within tens of megabytes where a state has hundreds
/// of values.
const MOST: usize = 16_384;

/// The moves of pairs of a cost and a state. There are no places until the first pair is kept; then they become twice
/// as many, up to 16,384, each time that half as many pairs were kept.
#[derive(Drop)]
pub(crate) struct Expansions {
    pub(crate) places: Vec<Option<Expansion>>,
    /// How many pairs were kept since the places were made.
    kept: usize,
    alloc: Global,
}

ghost use Rattle.std.specs.Prelude.{◌≡◌, ◌<◌, ◌∷◌, [], IsTrue, Bool, List, IfOk, IfSome, None, All};
ghost use Rattle.reconstruct.specs.Expansions.{RemembersNone, Remembers, Forgets, RemembersToo, RemembersFrom};
ghost use Rattle.reconstruct.specs.declared.moves.Move.{Move};

use symk_task::Memory;

/// The number of the pair's place among so many (multiplications with odd numbers, whose high bits are well mixed).
fn place_of(cost: u64, state: &State, count: usize) -> usize
    requires { 0 < count }
    ensures { result < count }
{
    let mut mixed = cost.wrapping_mul(0x9E37_79B9_7F4A_7C15);
    for value in state.as_slice() {
        mixed = (mixed ^ (mixed >> 29))
            .wrapping_add(*value as u64)
            .wrapping_mul(0xC2B2_AE3D_27D4_EB4F);
    }
    (mixed >> 32) as usize % count
}

/// So many empty places.
fn empty_places(alloc: Global, count: usize) -> Result<Vec<Option<Expansion>>, Memory>
    ensures { IfOk result (λ places. All (λ o. o ≡ None) places.items) }
{
    let mut places = Vec::with_capacity(alloc, count)?;
    for _ in 0..count {
        places.push(None)?;
    }
    Ok(places)
}

/// How many places come after so many, which are fewer than the most.
fn more_than(count: usize) -> usize {
    if count == 0 {
        FEWEST
    } else {
        count.saturating_mul(2)
    }
}

impl Expansion {
    /// Whether it is that of the pair.
    fn is_of(&self, cost: u64, state: &State) -> bool
        ensures { IsTrue result → (self.now.cost ≡ cost) × (self.now.state ≡ state.now) }
    {
        self.cost == cost && self.state == *state
    }
}

impl Expansions {
    /// No pair's moves.
    pub fn new(alloc: Global) -> Expansions
        ensures { RemembersNone result }
    {
        Expansions {
            places: Vec::new(alloc),
            kept: 0,
            alloc,
        }
    }

    /// Forgets all moves, and gives the places back.
    pub fn clear(&mut self)
        ensures { RemembersNone self.new }
    {
        *self = Expansions::new(self.alloc);
    }

    /// The expansion of the pair, if it is kept.
    fn expansion_of(&self, cost: u64, state: &State) -> Option<&Expansion>
        ensures { IfSome result (λ e. Remembers self.now cost state.now e.now.moves.items e.now.ends) }
    {
        let count = self.places.len();
        if count == 0 {
            return None;
        }
        match &self.places[place_of(cost, state, count)] {
            None => None,
            Some(expansion) => {
                if expansion.is_of(cost, state) {
                    Some(expansion)
                } else {
                    None
                }
            }
        }
    }

    /// The moves of the pair, if they are kept.
    pub(crate) fn moves_of(&self, cost: u64, state: &State) -> Option<&[Move]>
        ensures { IfSome result (λ moves. (ends : Bool) × Remembers self.now cost state.now moves.now ends) }
    {
        match self.expansion_of(cost, state) {
            None => None,
            Some(expansion) => Some(expansion.moves.as_slice()),
        }
    }

    /// Whether a plan ends at the pair, if that is kept.
    pub(crate) fn ends_of(&self, cost: u64, state: &State) -> Option<bool>
        ensures { IfSome result (λ ends. (moves : List Move) × Remembers self.now cost state.now moves ends) }
    {
        match self.expansion_of(cost, state) {
            None => None,
            Some(expansion) => Some(expansion.ends),
        }
    }

    /// Keeps the expansion at its pair's place, if there are places.
    fn put(&mut self, expansion: Expansion)
        ensures { RemembersToo self.old self.new expansion.cost expansion.state expansion.moves.items expansion.ends }
    {
        let count = self.places.len();
        if count == 0 {
            return;
        }
        let place = place_of(expansion.cost, &expansion.state, count);
        self.places[place] = Some(expansion);
        self.kept = self.kept.saturating_add(1);
    }

    /// Keeps what these places had.
    fn put_back(&mut self, places: Vec<Option<Expansion>>)
        ensures { RemembersFrom self.old self.new places.items }
    {
        let mut left = places;
        'places: while let Some(place) = left.pop() {
            self.put_expansion(place);
        }
    }

    /// Keeps the expansion at its pair's place, if there is one.
    fn put_expansion(&mut self, place: Option<Expansion>)
        ensures { RemembersFrom self.old self.new (place ∷ []) }
    {
        if let Some(expansion) = place {
            self.put(expansion);
        }
    }

    /// Makes more places, if half as many pairs were kept and there is memory for them.
    fn make_places(&mut self)
        ensures { Forgets self.old self.new }
    {
        let count = self.places.len();
        if count >= MOST || self.kept < count / 2 {
            return;
        }
        if let Ok(places) = empty_places(self.alloc, more_than(count)) {
            let before = mem::replace(&mut self.places, places);
            self.kept = 0;
            self.put_back(before);
        }
    }

    /// Keeps what follows of the pair. Without memory for it nothing more is kept.
    pub(crate) fn keep(&mut self, cost: u64, state: &State, all: Successors)
        ensures { RemembersToo self.old self.new cost state.now all.moves.items all.ends }
    {
        self.make_places();
        if let Ok(copied) = state.copy(self.alloc) {
            self.put(Expansion {
                cost,
                state: copied,
                moves: all.moves,
                ends: all.ends,
            });
        }
    }
}
