//! The choices of the side that goes on, by name.

use bidirectional::{Choice, Lighter};

/// The side from the initial state alone.
pub(crate) const FORWARD: Choice = Choice::Forward;

/// The side from the goal alone.
pub(crate) const BACKWARD: Choice = Choice::Backward;

/// The side that is known below the lower cost.
pub(crate) const LOWER: Choice = Choice::Lower;

/// The side whose last step was less work; no step was made yet.
pub(crate) const LIGHTER: Choice = Choice::Lighter(Lighter { ahead: 0, back: 0 });

/// Each of them.
pub(crate) const CHOICES: [Choice; 4] = [FORWARD, BACKWARD, LOWER, LIGHTER];
