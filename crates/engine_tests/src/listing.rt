//! The first plans of an engine.

use lazy_plans::{LazyPlans, Steps, Stop};
use symk_task::Plan;

/// How a list ended.
#[derive(Clone, Copy, Debug, PartialEq, Eq)]
pub(crate) enum Ending {
    /// As many as were asked for are listed.
    Reached,
    /// No plan is left.
    Exhausted,
    /// The engine stopped.
    Stopped(Stop),
}

/// Plans, in the order in which they came, and how their list ended.
#[derive(Drop)]
pub(crate) struct Listing {
    pub plans: Vec<Plan>,
    pub ending: Ending,
    /// Whether two more calls answered the same; true where as many as were asked for are listed, and no more
    /// was asked.
    pub lasts: bool,
}

impl Listing {
    /// Whether the plans are the first ones of these, in their order.
    pub fn begins(&self, rows: &[&[u32]]) -> bool {
        if self.plans.len() > rows.len() {
            return false;
        }
        for i in 0..self.plans.len() {
            if self.plans[i].as_slice() != rows[i] {
                return false;
            }
        }
        true
    }
}

ghost use Rattle.std.specs.Prelude.{◌≡◌, ◌<◌, ◌≤◌, IfOk, vec_len};
ghost use Rattle.lazy_plans.specs.Asked.{Asked};
ghost use Rattle.engine_tests.specs.declared.listing.Ending.TheVariants.{Reached};

use std::alloc::Global;
use std::marker::Brand;
use std::sync::ledger::{Blank, Ledger};
use symk_task::Memory;

/// The next plan, with a count of its own for the turns.
fn ask<I: LazyPlans, L: Ledger>(
    alloc: Global,
    engine: &mut I,
    blank: Blank,
) -> Result<Option<Plan>, Stop>
    requires lawful { I.lawful engine.old }
    requires name { blank.name ≡ L.name }
    requires parts { blank.parts ≡ L.parts }
    requires some { 0 < blank.parts }
    ensures { Asked I.system I.mode I.most I.pends I.lawful I.last engine.old engine.new result }
{
    let mut steps = Steps::<L>::new(blank);
    engine.next_plan(alloc, &mut steps)
}

/// Whether one more call ends a list so.
fn ends_so<I: LazyPlans>(alloc: Global, engine: &mut I, ending: Ending) -> bool
    requires { I.lawful engine.old }
    ensures { I.lawful engine.new }
{
    match ask::<I, Brand>(alloc, engine, Blank::new(1)) {
        Ok(Some(_)) => false,
        Ok(None) => ending == Ending::Exhausted,
        Err(stop) => ending == Ending::Stopped(stop),
    }
}

/// The list of these plans, which ended so; two calls more tell whether that lasts.
fn ended<I: LazyPlans>(alloc: Global, engine: &mut I, plans: Vec<Plan>, ending: Ending) -> Listing
    requires { I.lawful engine.old }
    ensures lawful { I.lawful engine.new }
    ensures plans { result.plans ≡ plans }
    ensures ending { result.ending ≡ ending }
{
    let once = ends_so(alloc, engine, ending);
    let twice = ends_so(alloc, engine, ending);
    Listing {
        plans,
        ending,
        lasts: once && twice,
    }
}

/// The next plans of the engine, at most so many, and two calls more where their list ends before.
pub(crate) fn first_plans<I: LazyPlans>(
    alloc: Global,
    engine: &mut I,
    count: u32,
) -> Result<Listing, Memory>
    requires { I.lawful engine.old }
    ensures lawful { I.lawful engine.new }
    ensures few { IfOk result (λ listing. vec_len listing.plans ≤ count) }
    ensures whole { IfOk result (λ listing. listing.ending ≡ Reached → vec_len listing.plans ≡ count) }
{
    let mut plans = Vec::new(alloc);
    'calls: for call in 0..count {
        match ask::<I, Brand>(alloc, engine, Blank::new(1)) {
            Ok(Some(plan)) => plans.push(plan)?,
            Ok(None) => return Ok(ended(alloc, engine, plans, Ending::Exhausted)),
            Err(stop) => return Ok(ended(alloc, engine, plans, Ending::Stopped(stop))),
        }
    }
    Ok(Listing {
        plans,
        ending: Ending::Reached,
        lasts: true,
    })
}
