//! Which side goes on.

ghost use Rattle.std.specs.Prelude.{◌≡◌, ℕ, ◌<◌, ◌≤◌, ◌⊎◌, ◌↔◌, IsTrue, if◌then◌else◌};
ghost use Rattle.bidirectional.specs.Choices.{PrefersLighter, Prefers, noted};

/// Chooses the side that goes on.
pub trait Choose {
    /// Whether it prefers the forward side, where that is known below a first cost and the other below a second.
    ghost prefers: { Self → ℕ → ℕ → Type 0 };

    /// Whether the forward side goes on, from what the forward layers (`f`) and the backward layers (`b`) are known
    /// below: whether it is preferred. To be asked changes no preference.
    fn forward_next(&mut self, f: u128, b: u128) -> bool
        ensures answers { IsTrue result ↔ prefers self.old f b }
        ensures same { (x y : ℕ) → prefers self.new x y ↔ prefers self.old x y };

    /// Is told of each step of a side once it is done: whether it was the forward side's, and how much work it was by
    /// the space's count, with the test before it whether the sides meet. Of itself it notes nothing.
    fn note_step(&mut self, _forward: bool, _work: u64) {}
}

/// Always the forward side.
#[derive(Clone, Copy, Debug, PartialEq, Eq)]
pub struct AlwaysForward;

/// Always the backward side.
#[derive(Clone, Copy, Debug, PartialEq, Eq)]
pub struct AlwaysBackward;

/// The side that is known below the lower cost; the forward one where both are known below the same.
#[derive(Clone, Copy, Debug, PartialEq, Eq)]
pub struct Lower;

/// The side whose last step was less work; where both were as much, as `Lower`.
#[derive(Clone, Copy, Debug, PartialEq, Eq)]
pub struct Lighter {
    /// How much work the last step of the forward side was, 0 before its first.
    pub ahead: u64,
    /// How much work the last step of the backward side was, 0 before its first.
    pub back: u64,
}

impl Lighter {
    /// No step is noted.
    pub fn new() -> Lighter
        ensures { (result.ahead ≡ 0) × (result.back ≡ 0) }
    {
        Lighter { ahead: 0, back: 0 }
    }
}

/// Any of these choices, as one type: what is made for a type of choice is then made once for all of them.
#[derive(Clone, Copy, Debug, PartialEq, Eq)]
pub enum Choice {
    /// As `AlwaysForward`.
    Forward,
    /// As `AlwaysBackward`.
    Backward,
    /// As `Lower`.
    Lower,
    /// As `Lighter`, with what was noted so far.
    Lighter(Lighter),
}

impl Choose for AlwaysForward {
    ghost prefers = { λ x f b. Unit {0} };

    fn forward_next(&mut self, _f: u128, _b: u128) -> bool {
        true
    }
}

impl Choose for AlwaysBackward {
    ghost prefers = { λ x f b. ⊥ };

    fn forward_next(&mut self, _f: u128, _b: u128) -> bool {
        false
    }
}

impl Choose for Lower {
    ghost prefers = { λ x f b. f ≤ b };

    fn forward_next(&mut self, f: u128, b: u128) -> bool {
        f <= b
    }
}

impl Choose for Lighter {
    ghost prefers = { PrefersLighter };

    fn forward_next(&mut self, f: u128, b: u128) -> bool
        ensures answers { IsTrue result ↔ PrefersLighter self.old f b }
        ensures same { (x y : ℕ) → PrefersLighter self.new x y ↔ PrefersLighter self.old x y }
        ensures unchanged { self.new ≡ self.old }
    {
        if self.ahead == self.back {
            f <= b
        } else {
            self.ahead < self.back
        }
    }

    fn note_step(&mut self, forward: bool, work: u64)
        ensures ahead { self.new.ahead ≡ (if forward then work else self.old.ahead) }
        ensures back { self.new.back ≡ (if forward then self.old.back else work) }
    {
        if forward {
            self.ahead = work;
        } else {
            self.back = work;
        }
    }
}

impl Choose for Choice {
    ghost prefers = { Prefers };

    fn forward_next(&mut self, f: u128, b: u128) -> bool
        ensures answers { IsTrue result ↔ Prefers self.old f b }
        ensures same { (x y : ℕ) → Prefers self.new x y ↔ Prefers self.old x y }
        ensures unchanged { self.new ≡ self.old }
    {
        match self {
            Choice::Forward => AlwaysForward.forward_next(f, b),
            Choice::Backward => AlwaysBackward.forward_next(f, b),
            Choice::Lower => Lower.forward_next(f, b),
            Choice::Lighter(lighter) => lighter.forward_next(f, b),
        }
    }

    fn note_step(&mut self, forward: bool, work: u64)
        ensures { self.new ≡ noted self.old forward work }
    {
        if let Choice::Lighter(lighter) = self {
            lighter.note_step(forward, work);
        }
    }
}
