//! Why an engine stops, and how it ended.

ghost use Rattle.std.specs.Prelude.{◌≡◌, Some};
ghost use Rattle.lazy_plans.specs.declared.stop.Stop.TheVariants.{Memory};
ghost use Rattle.lazy_plans.specs.Law.{last_of};

use std::alloc::AllocError;
use symk_task::Plan;

/// Why an engine gives no more plans though some may be left.
#[derive(Clone, Copy, Debug, PartialEq, Eq, thiserror::Error)]
pub enum Stop {
    /// Out of memory.
    #[error("out of memory")]
    Memory,
    /// Each plan that is left costs more than 18446744073709551615.
    #[error("each plan that is left costs more than 64 bits hold")]
    CostRange,
}

impl From<AllocError> for Stop {
    ghost from_gives = { λ _ e. e ≡ Memory };

    fn from(_: AllocError) -> Self {
        Stop::Memory
    }
}

/// How an engine ended.
#[derive(Clone, Copy, Debug, PartialEq, Eq)]
pub enum Ending {
    /// No plan is left that is wanted.
    Exhausted,
    /// It stopped though some may be left.
    StoppedBy(Stop),
}

impl Ending {
    /// The answer of the engine that ended so, which every later call repeats.
    pub fn answer(self) -> Result<Option<Plan>, Stop>
        ensures { last_of result ≡ Some self }
    {
        match self {
            Ending::Exhausted => Ok(None),
            Ending::StoppedBy(stop) => Err(stop),
        }
    }

    /// How an engine ended that gave this answer; None where it goes on.
    pub fn of(given: &Result<Option<Plan>, Stop>) -> Option<Ending>
        ensures { result ≡ last_of given.now }
    {
        match given {
            Ok(Some(_)) => None,
            Ok(None) => Some(Ending::Exhausted),
            Err(stop) => Some(Ending::StoppedBy(*stop)),
        }
    }
}
