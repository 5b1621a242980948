//! What ranks and what waits.

/// A set of states that waits for a rank.
#[derive(Clone, Copy)]
pub struct Waiting<T: Copy> {
    pub set: T,
    /// What each of its states costs to the goal, by a way over ranked ones.
    pub cost: u64,
    /// It comes up under this key.
    pub key: u128,
}

/// The arcs that lead back from a ranked set and weren't walked yet: those by operators of the cost at this place among
/// the different ones, and of all later ones.
#[derive(Clone, Copy, Debug)]
pub struct Arcs {
    pub place: usize,
    /// They come up under this key.
    pub key: u128,
}

/// A set of states with a rank.
#[derive(Clone, Copy)]
pub struct Ranked<T: Copy> {
    pub set: T,
    /// The least cost to the goal of each of its states.
    pub cost: u64,
    /// None where all were walked, or cost more than 64 bits hold.
    pub arcs: Option<Arcs>,
}
