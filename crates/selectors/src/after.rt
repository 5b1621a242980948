//! The plans that an earlier list lacks.

ghost use Rattle.std.specs.Prelude.{◌≡◌, ◌≢◌, ◌≤◌, ◌↔◌, ℕ, List, None, All, IsTrue, length, vec_capacity};
ghost use Rattle.std.specs.List.Sorted.{IsPermutation, IsNonDecreasing};
ghost use Rattle.symk_task.specs.Plans.{IsListed};
ghost use Rattle.lazy_plans.specs.Law.{last_of, Turned};
ghost use Rattle.lazy_plans.specs.SelectorsOwe.{IsClassKey, AreKeys, Unlisted};

mod engine;

use crate::keys::Keys;
pub use engine::After;
use lazy_plans::{LazyPlans, Steps, Stop};
use std::alloc::Global;
use std::sync::ledger::Ledger;
use symk_task::{Mode, Plan};

/// The operators in rising order, put into room that is large enough, so that no memory is asked for.
fn sort_into(room: &mut Vec<u32>, operators: &[u32])
    requires { length operators.now ≤ vec_capacity room.old }
    ensures permutation { IsPermutation operators.now room.new.items }
    ensures rising { IsNonDecreasing room.new.items }
    ensures capacity { vec_capacity room.old ≤ vec_capacity room.new }
{
    room.clear();
    let _fits = room.extend_from_slice(operators);
    room.sort_unstable();
}

/// Whether the plan counts as one with a plan that has one of the keys. No memory is taken: the room holds the
/// longest key, and a plan that is longer counts as one with none.
fn is_listed(mode: Mode, keys: &Keys, room: &mut Vec<u32>, plan: &Plan) -> bool
    requires keyed { All (λ key. (p : List ℕ) × IsClassKey mode p key) keys.now }
    requires short { All (λ key. length key ≤ vec_capacity room.old) keys.now }
    ensures listed { IsTrue result ↔ IsListed mode keys.now plan.now }
    ensures capacity { vec_capacity room.old ≤ vec_capacity room.new }
{
    let operators = plan.as_slice();
    if room.capacity() < operators.len() {
        return false;
    }
    match mode {
        Mode::TopK | Mode::Loopless => keys.has(operators),
        Mode::Unordered => {
            sort_into(room, operators);
            keys.has(room)
        }
    }
}

/// The next plan that counts as one with none of those that have the keys.
fn draw<I: LazyPlans, L: Ledger>(
    alloc: Global,
    mode: Mode,
    inner: &mut I,
    keys: &Keys,
    room: &mut Vec<u32>,
    steps: &mut Steps<L>,
) -> Result<Option<Plan>, Stop>
    requires lawful { I.lawful inner.old }
    requires mode { mode ≡ I.mode inner.old }
    requires keyed { AreKeys (I.system inner.old) mode (I.most inner.old) keys.now }
    requires short { All (λ key. length key ≤ vec_capacity room.old) keys.now }
    ensures lawful { I.lawful inner.new }
    ensures system { I.system inner.new ≡ I.system inner.old }
    ensures mode { I.mode inner.new ≡ mode }
    ensures most { I.most inner.new ≡ I.most inner.old }
    ensures capacity { vec_capacity room.old ≤ vec_capacity room.new }
    ensures law { Turned (I.system inner.old) mode (I.most inner.old)
        (Unlisted mode keys.now (I.pends inner.old)) (Unlisted mode keys.now (I.pends inner.new)) result }
    ensures last { I.last inner.new ≡ last_of result }
    ensures again { I.last inner.old ≢ None → I.last inner.new ≡ I.last inner.old }
{
    'plans: loop {
        match inner.next_plan(alloc, steps) {
            Ok(Some(plan)) => {
                if !is_listed(mode, keys, room, &plan) {
                    return Ok(Some(plan));
                }
            }
            Ok(None) => return Ok(None),
            Err(stop) => return Err(stop),
        }
    }
}
