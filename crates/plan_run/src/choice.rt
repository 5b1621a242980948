//! Which side of a search goes on, by the direction that is asked for.

ghost use Rattle.std.specs.Prelude.{◌≡◌, ℕ, ◌↔◌, IsTrue};
ghost use Rattle.plan_run.specs.Choosing.{PrefersPatient};

use crate::options::Direction;
use bidirectional::{Choice, Choose, Lighter};

/// How many steps one side takes in a row before the other has one, where the side isn't asked for.
const PATIENCE: u32 = 1000;

/// How much work the steps are together, by the space's count, before it matters which side's are light: some
/// hundredths of a second.
const TRIFLE: u64 = 1 << 18;

/// A choice by which no side waits for ever: one type for all directions, so that there is one engine.
///
/// A light side, or one that is known below a low cost, could go on cost by cost for ever where the other would soon
/// be shut. Where no direction is asked for, the backward side goes on while all steps together are a trifle: what is
/// left of a plan is then found by single states, in less time than what comes before a cut, by sets.
#[derive(Clone, Copy, Debug)]
pub(crate) struct Patient {
    choice: Choice,
    // How much work the steps so far were, up to the range.
    spent: u64,
    // The side of the last step, and how many it has taken in a row.
    forward: bool,
    steps: u32,
}

impl Patient {
    /// The choice of a direction. The program's own is the side whose last step was less work, once that matters.
    pub fn of(direction: Direction) -> Patient {
        let choice = match direction {
            Direction::Auto => Choice::Lighter(Lighter::new()),
            Direction::Forward => Choice::Forward,
            Direction::Backward => Choice::Backward,
            Direction::Bidirectional => Choice::Lower,
        };
        Patient {
            choice,
            spent: 0,
            forward: false,
            steps: 0,
        }
    }
}

impl Choose for Patient {
    ghost prefers = { PrefersPatient };

    fn forward_next(&mut self, f: u128, b: u128) -> bool
        ensures answers { IsTrue result ↔ PrefersPatient self.old f b }
        ensures same { (x y : ℕ) → PrefersPatient self.new x y ↔ PrefersPatient self.old x y }
        ensures unchanged { self.new ≡ self.old }
    {
        let forward = self.choice.forward_next(f, b);
        match self.choice {
            // A side that is asked for goes on alone.
            Choice::Forward | Choice::Backward => forward,
            Choice::Lower | Choice::Lighter(_) if self.steps >= PATIENCE => !self.forward,
            Choice::Lighter(_) if self.spent < TRIFLE => false,
            Choice::Lower | Choice::Lighter(_) => forward,
        }
    }

    fn note_step(&mut self, forward: bool, work: u64) {
        self.spent = self.spent.saturating_add(work);
        self.choice.note_step(forward, work);
        if self.forward != forward {
            self.forward = forward;
            self.steps = 0;
        }
        self.steps = self.steps.saturating_add(1);
    }
}
