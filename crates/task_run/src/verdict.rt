//! What a run of a plan comes to.

/// The first number that is no operator's, else the first operator that does not apply, else what the last state says
/// of the goal. Steps count from 1.
#[derive(Clone, Copy, Debug, PartialEq, Eq)]
pub enum Verdict {
    /// The number at this step is no operator's.
    NoSuchOperator { step: u64 },
    /// The operator at this step does not apply after those before it.
    StopsAt { step: u64 },
    /// All operators apply one after the other, and then the goal does not hold.
    MissesGoal,
    /// A plan, with the sum of its operators' costs.
    Reaches { cost: u128 },
}
