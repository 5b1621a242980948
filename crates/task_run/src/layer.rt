//! The closing of one layer.

ghost use Rattle.std.specs.Prelude.{◌≡◌, ◌<◌, ℕ, ◌+◌, length, IfOk, OnOk, MatchOption, IfSome, slice_get};
ghost use Rattle.symk_task.specs.Fits.{Fits};
ghost use Rattle.task_run.specs.Layer.{Raises, Grows, IsStuck};
ghost use Rattle.task_run.specs.Work.{AllPlaced, AllBut, KeptRules, Passed, IsFresh};

use crate::rule_status::{RuleStatus, status_of};
use crate::work::Work;
use std::alloc::Global;
use symk_task::{Memory, TaskParts};

/// The next rule that raises its variable; the others that are looked at wait for a condition.
fn next_raising(
    parts: &TaskParts,
    layer: u32,
    values: &[u32],
    work: &mut Work,
) -> Result<Option<u32>, Memory>
    requires fits { Fits parts.now }
    requires values { length values.now ≡ length parts.now.variables }
    requires kept { KeptRules parts.now work.old.stack.items work.old.waiting.items }
    requires placed { AllPlaced parts.now layer values.now work.old.stack.items work.old.waiting.items }
    requires passed { Passed parts.now layer values.now work.old.places.items }
    ensures kept { OnOk result (KeptRules parts.now work.new.stack.items work.new.waiting.items) }
    ensures passed { OnOk result (Passed parts.now layer values.now work.new.places.items) }
    ensures none { IfOk result (λ x. MatchOption x (IsStuck parts.now layer values.now)
        (λ x. AllBut x parts.now layer values.now work.new.stack.items work.new.waiting.items)) }
    ensures raises { IfOk result (λ x. IfSome x (λ x. (x < length parts.now.rules)
        × IfSome (slice_get parts.now.rules x) (Raises parts.now layer values.now))) }
{
    let rules = parts.rules.as_slice();
    'looking: while let Some(number) = work.stack.pop() {
        let rule = number as usize;
        match status_of(parts, layer, &rules[rule], values, work.places[rule]) {
            RuleStatus::Ready => return Ok(Some(number)),
            RuleStatus::WaitsFor { place, var } => work.wait(number, place, var)?,
            RuleStatus::Done => {}
        }
    }
    Ok(None)
}

/// Raises what the rules of the layer raise.
pub(crate) fn close_layer(
    alloc: Global,
    parts: &TaskParts,
    layer: u32,
    values: &mut Vec<u32>,
    work: &mut Work,
) -> Result<(), Memory>
    requires fits { Fits parts.now }
    requires values { length values.old.items ≡ length parts.now.variables }
    requires kept { KeptRules parts.now work.old.stack.items work.old.waiting.items }
    requires placed { AllPlaced parts.now layer values.old.items work.old.stack.items work.old.waiting.items }
    requires fresh { IsFresh parts.now layer work.old.places.items }
    ensures grows { OnOk result (Grows parts.now layer values.old.items values.new.items) }
    ensures each { OnOk result (length values.new.items ≡ length values.old.items) }
    ensures stuck { OnOk result (IsStuck parts.now layer values.new.items) }
    ensures kept { OnOk result (KeptRules parts.now work.new.stack.items work.new.waiting.items) }
    ensures fresh { OnOk result (IsFresh parts.now (layer + 1) work.new.places.items) }
{
    'raised: loop {
        match next_raising(parts, layer, values, work)? {
            None => return Ok(()),
            Some(number) => {
                let rule = &parts.rules.as_slice()[number as usize];
                values[rule.var as usize] = rule.new;
                work.wake(alloc, rule.var)?;
            }
        }
    }
}
