//! Lists over a space that is refused memory.

use crate::engines::{Engine, Request, Sets, listed};
use crate::listing::Ending;
use lazy_plans::Stop;
use std::alloc::Global;
use symk_task::{Memory, Task};

/// The list of so many plans over a space of which so many calls are passed on.
fn after(engine: Engine, count: u32, calls: u64) -> Request {
    Request {
        engine,
        sets: Sets::States { calls },
        most: None,
        handed: false,
        count,
    }
}

/// Whether the engine, where the space is refused memory after 0, 1, 2 and more calls, isn't made, or gives the
/// first ones of these plans and then stops, for good; and whether the first list without a stop has all of
/// them and ends so.
pub(crate) fn stops_well(
    alloc: Global,
    task: &Task,
    engine: Engine,
    rows: &[&[u32]],
    count: u32,
    ending: Ending,
) -> Result<bool, Memory> {
    for calls in 0..1000 {
        if let Ok(listing) = listed(alloc, task, after(engine, count, calls)) {
            if !listing.begins(rows) || !listing.lasts {
                return Ok(false);
            }
            if listing.ending != Ending::Stopped(Stop::Memory) {
                return Ok(listing.ending == ending && listing.plans.len() == rows.len());
            }
        }
    }
    Ok(false)
}
