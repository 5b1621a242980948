//! The first plan of each class of rearrangements.

ghost use Rattle.std.specs.Prelude.{◌≡◌, None};
ghost use Rattle.symk_task.specs.declared.parts.Mode.TheVariants.{TopK, Unordered as unordered};
ghost use Rattle.lazy_plans.specs.Law.{last_of, Turned};
ghost use Rattle.lazy_plans.specs.SelectorsOwe.{AreKeys, Owes, HoldsPlan};

mod engine;

use crate::keys::{Keys, note_class};
pub use engine::Unordered;
use lazy_plans::{LazyPlans, Steps, Stop};
use std::alloc::Global;
use std::sync::ledger::Ledger;
use symk_task::Plan;

/// The next plan that is no rearrangement of one seen. Where memory is refused the plan drawn is held.
fn draw<I: LazyPlans, L: Ledger>(
    alloc: Global,
    inner: &mut I,
    seen: &mut Keys,
    held: &mut Option<Plan>,
    steps: &mut Steps<L>,
) -> Result<Option<Plan>, Stop>
    requires lawful { I.lawful inner.old }
    requires mode { I.mode inner.old ≡ TopK }
    requires seen { AreKeys (I.system inner.old) unordered (I.most inner.old) seen.old }
    requires held { held.old ≡ None }
    ensures lawful { I.lawful inner.new }
    ensures system { I.system inner.new ≡ I.system inner.old }
    ensures mode { I.mode inner.new ≡ TopK }
    ensures most { I.most inner.new ≡ I.most inner.old }
    ensures seen { AreKeys (I.system inner.old) unordered (I.most inner.old) seen.new }
    ensures held { HoldsPlan (I.system inner.old) held.new (last_of result) }
    ensures law { Turned (I.system inner.old) unordered (I.most inner.old)
        (Owes (I.pends inner.old) seen.old None) (Owes (I.pends inner.new) seen.new held.new) result }
{
    'plans: loop {
        match inner.next_plan(alloc, steps) {
            Ok(Some(plan)) => match note_class(alloc, seen, &plan) {
                Ok(true) => return Ok(Some(plan)),
                Ok(false) => {}
                Err(_) => {
                    *held = Some(plan);
                    return Err(Stop::Memory);
                }
            },
            Ok(None) => return Ok(None),
            Err(stop) => return Err(stop),
        }
    }
}
