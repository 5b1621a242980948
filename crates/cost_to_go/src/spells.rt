//! Spells: how long a side goes on, and which side is next. They steer speed alone, and no clause tells of them.

/// How dear a spell was: its work, and by how much the cost rose that the side had come to.
#[derive(Clone, Copy, Debug)]
struct Price {
    work: u64,
    rise: u64,
}

/// How far each side is: the cost that it has come to.
#[derive(Clone, Copy, Debug)]
pub(crate) struct Reach {
    pub(crate) ahead: u64,
    pub(crate) back: u64,
}

/// Whose spell it is, and what the spells before were.
///
/// A side goes on for a while, since what waits for a rank is told anew where the search ahead has gone on. Then the side
/// goes on whose last spell was less work for each unit of cost. The other one has a spell in between, once the work of all
/// its spells is a small part of the work of this one's: its price may have fallen.
#[derive(Clone, Copy, Debug)]
pub(crate) struct Spells {
    is_ahead: bool,
    /// The work of this spell so far.
    work: u64,
    /// How far both sides were when it began.
    from: Reach,
    ahead_price: Price,
    back_price: Price,
    /// The work of all earlier spells of each side.
    ahead_work: u64,
    back_work: u64,
}

/// The work of a spell at least, and which part of the work so far it is besides.
const LEAST: u64 = 1000;

const PART: u64 = 16;

/// The side that is dearer has a spell once the other one was so many times its work.
const MOST: u64 = 8;

/// What the rise from one cost to another of so much work costs.
fn price_of(work: u64, from: u64, to: u64) -> Price {
    Price {
        work,
        rise: to.saturating_sub(from).max(1),
    }
}

/// Whether the first is less work for each unit of cost.
fn is_cheaper(a: Price, b: Price) -> bool {
    (a.work as u128).saturating_mul(b.rise as u128)
        < (b.work as u128).saturating_mul(a.rise as u128)
}

impl Spells {
    /// The search ahead begins.
    pub(crate) fn new() -> Spells {
        Spells {
            is_ahead: true,
            work: 0,
            from: Reach { ahead: 0, back: 0 },
            ahead_price: Price { work: 0, rise: 1 },
            back_price: Price { work: 0, rise: 1 },
            ahead_work: 0,
            back_work: 0,
        }
    }

    /// Whether the search ahead is the side that goes on.
    pub(crate) fn is_ahead(&self) -> bool {
        self.is_ahead
    }

    /// Whether this spell was long enough.
    fn is_over(&self) -> bool {
        let all = self.ahead_work.saturating_add(self.back_work);
        self.work >= LEAST.saturating_add(all / PART)
    }

    /// The same with the spell closed: it came to here.
    fn closed(self, at: Reach) -> Spells {
        if self.is_ahead {
            Spells {
                ahead_price: price_of(self.work, self.from.ahead, at.ahead),
                ahead_work: self.ahead_work.saturating_add(self.work),
                ..self
            }
        } else {
            Spells {
                back_price: price_of(self.work, self.from.back, at.back),
                back_work: self.back_work.saturating_add(self.work),
                ..self
            }
        }
    }

    /// Whether the next spell is the search ahead's.
    fn is_ahead_next(&self) -> bool {
        if self.back_work < self.ahead_work / MOST {
            return false;
        }
        if self.ahead_work < self.back_work / MOST {
            return true;
        }
        is_cheaper(self.ahead_price, self.back_price)
    }

    /// The spells after a step of the side that goes on, which was so much work and came to here. The spell goes on where
    /// the step left something half done: what it led to may have met the other side already.
    pub(crate) fn after(self, work: u64, at: Reach, half_done: bool) -> Spells {
        let spells = Spells {
            work: self.work.saturating_add(work),
            ..self
        };
        if half_done || !spells.is_over() {
            return spells;
        }
        let closed = spells.closed(at);
        Spells {
            is_ahead: closed.is_ahead_next(),
            work: 0,
            from: at,
            ..closed
        }
    }
}
