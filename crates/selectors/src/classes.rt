//! One plan of each class of rearrangements.

ghost use Rattle.std.specs.Prelude.{◌≡◌, None};
ghost use Rattle.symk_task.specs.declared.parts.Mode.TheVariants.{Unordered as unordered};
ghost use Rattle.lazy_plans.specs.Law.{last_of, Turned};
ghost use Rattle.lazy_plans.specs.SelectorsOwe.{AreKeys};
ghost use Rattle.selectors.specs.Left.{Left, CoversClasses};

mod engine;

use crate::keys::{Keys, note_class};
use crate::members::LazyMembers;
pub use engine::Classes;
use lazy_plans::{Steps, Stop};
use std::alloc::Global;
use std::sync::ledger::Ledger;
use symk_task::Plan;

/// The next plan that is no rearrangement of one seen. A plan for whose key memory is refused is dropped: its class is
/// not seen.
fn draw<I: LazyMembers, L: Ledger>(
    alloc: Global,
    inner: &mut I,
    seen: &mut Keys,
    steps: &mut Steps<L>,
) -> Result<Option<Plan>, Stop>
    requires lawful { I.lawful inner.old }
    requires seen { AreKeys (I.system inner.old) unordered (I.most inner.old) seen.old }
    requires covers { CoversClasses (I.system inner.old) seen.old (I.pends inner.old) }
    ensures lawful { I.lawful inner.new }
    ensures system { I.system inner.new ≡ I.system inner.old }
    ensures most { I.most inner.new ≡ I.most inner.old }
    ensures seen { AreKeys (I.system inner.old) unordered (I.most inner.old) seen.new }
    ensures covers { last_of result ≡ None → CoversClasses (I.system inner.old) seen.new (I.pends inner.new) }
    ensures law { Turned (I.system inner.old) unordered (I.most inner.old)
        (Left (I.system inner.old) seen.old) (Left (I.system inner.old) seen.new) result }
{
    'plans: loop {
        match inner.next_member(alloc, steps) {
            Ok(Some(plan)) => match note_class(alloc, seen, &plan) {
                Ok(true) => return Ok(Some(plan)),
                Ok(false) => {}
                Err(_) => return Err(Stop::Memory),
            },
            Ok(None) => return Ok(None),
            Err(stop) => return Err(stop),
        }
    }
}
