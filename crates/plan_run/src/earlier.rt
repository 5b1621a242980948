//! An earlier list, which another goes on from.

ghost use Rattle.std.specs.Prelude.{◌≡◌, []};

use std::alloc::Global;
use symk_task::{List, Plan};

/// The plans of an earlier list.
#[derive(Drop)]
pub struct Earlier {
    /// They, by cost.
    pub plans: List<Plan>,
    /// What the last of them costs, and 0 where there is none.
    pub dearest: u64,
}

impl Earlier {
    /// No plans.
    pub fn none(alloc: Global) -> Earlier
        ensures { result ≡ record { plans = []; dearest = 0 } }
    {
        Earlier {
            plans: List::of(Vec::new(alloc)),
            dearest: 0,
        }
    }
}
