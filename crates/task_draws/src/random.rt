//! Numbers that look drawn by chance.

ghost use Rattle.std.specs.Prelude.{◌≡◌, ◌<◌, ◌%◌, ◌==◌};
ghost use Rattle.task_draws.specs.Random.{mixed, random_after};

/// The stream of numbers of a seed.
///
/// It is the generator of Steele, Lea and Flood, "Fast Splittable Pseudorandom Number Generators" (2014): the state
/// goes on by an odd number, and each number drawn is the state, mixed. Equal seeds give equal numbers.
#[derive(Clone, Copy, Debug, PartialEq, Eq)]
pub struct Random {
    pub state: u64,
}

/// The bits of a state, mixed.
#[tactic(auto, unfolding(crate::specs::Random::mixed))]
fn mixed(state: u64) -> u64
    ensures { result ≡ mixed state }
{
    let first = (state ^ (state >> 30)).wrapping_mul(0xbf58_476d_1ce4_e5b9);
    let second = (first ^ (first >> 27)).wrapping_mul(0x94d0_49bb_1331_11eb);
    second ^ (second >> 31)
}

impl Random {
    /// The stream of the seed.
    pub fn of(seed: u64) -> Random
        ensures { result.state ≡ seed }
    {
        Random { state: seed }
    }

    /// The next number of the stream.
    #[tactic(auto, unfolding(crate::specs::Random::random_after))]
    pub fn next(&mut self) -> u64
        ensures state { self.new.state ≡ random_after self.old.state }
        ensures number { result ≡ mixed self.new.state }
    {
        self.state = self.state.wrapping_add(0x9e37_79b9_7f4a_7c15);
        mixed(self.state)
    }

    /// A number below `count`: the next of the stream, by what is left of it when it is divided by `count`.
    pub fn below(&mut self, count: u32) -> u32
        requires { 0 < count }
        ensures state { self.new.state ≡ random_after self.old.state }
        ensures number { result ≡ mixed (random_after self.old.state) % count }
        ensures most { result < count }
    {
        (self.next() % u64::from(count)) as u32
    }

    /// Whether one of `count` numbers is drawn.
    pub fn one_in(&mut self, count: u32) -> bool
        requires { 0 < count }
        ensures state { self.new.state ≡ random_after self.old.state }
        ensures drawn { result ≡ (mixed (random_after self.old.state) % count == 0) }
    {
        self.below(count) == 0
    }
}
