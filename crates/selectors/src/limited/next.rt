//! The next of the first plans.

ghost use Rattle.std.specs.Prelude.{◌≡◌, ℕ, ◌<◌};
ghost use Rattle.std.specs.Iterator.{at_most};
ghost use Rattle.lazy_plans.specs.Asked.{Asked};
ghost use Rattle.selectors.specs.Limits.{LimitedGives, items_left};

use crate::limited::Limited;
use lazy_plans::{LazyPlans, Steps, Stop};
use std::alloc::Global;
use std::marker::Brand;
use std::sync::ledger::{Blank, Ledger};
use symk_task::Plan;

/// The next plan, with a count of its own for the turns.
fn ask<I: LazyPlans, L: Ledger>(
    alloc: Global,
    inner: &mut I,
    blank: Blank,
) -> Result<Option<Plan>, Stop>
    requires lawful { I.lawful inner.old }
    requires name { blank.name ≡ L.name }
    requires parts { blank.parts ≡ L.parts }
    requires some { 0 < blank.parts }
    ensures { Asked I.system I.mode I.most I.pends I.lawful I.last inner.old inner.new result }
{
    let mut steps = Steps::<L>::new(blank);
    inner.next_plan(alloc, &mut steps)
}

impl<I: LazyPlans + Drop> Iterator for Limited<I> {
    type Item = Result<Plan, Stop>;

    ghost can_next = { λ x. I.lawful x.inner };

    ghost next_gives = { λ x item z. LimitedGives I.system I.mode I.most I.pends I.lawful I.last x item z };

    ghost remaining = { λ x. at_most (items_left x) };

    fn next(&mut self) -> Option<Result<Plan, Stop>> {
        if self.ended || self.listed == self.k {
            return None;
        }
        match ask::<I, Brand>(self.alloc, &mut self.inner, Blank::new(1)) {
            Ok(Some(plan)) => {
                self.listed += 1;
                Some(Ok(plan))
            }
            Ok(None) => {
                self.ended = true;
                None
            }
            Err(stop) => {
                self.ended = true;
                Some(Err(stop))
            }
        }
    }
}
