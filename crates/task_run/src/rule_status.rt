//! How far a rule is: done with, ready, or waiting for a variable.

ghost use Rattle.std.specs.Prelude.{◌≡◌, ◌<◌, ◌↔◌, ℕ, IsTrue, length, MatchOption};
ghost use Rattle.symk_task.specs.Fits.{FitsRule};
ghost use Rattle.task_run.specs.Values.{AreBelow};
ghost use Rattle.task_run.specs.Layer.{IsOpenRule};
ghost use Rattle.task_run.specs.RuleStatus.{HaveBetween, FirstUnmet, FindsRuleStatus};

use symk_task::{Fact, Rule, TaskParts};

/// Whether the rule is done with, raises its variable, or waits for the variable of the condition at the place.
#[derive(Clone, Copy, Debug, PartialEq, Eq)]
pub(crate) enum RuleStatus {
    Done,
    Ready,
    WaitsFor { place: usize, var: u32 },
}

/// The place of the first fact from a place on that does not have its value.
fn unmet(facts: &[Fact], from: usize, values: &[u32]) -> Option<usize>
    requires { AreBelow (length values.now) facts.now }
    ensures { MatchOption result (HaveBetween values.now facts.now from (length facts.now))
        (FirstUnmet values.now facts.now from) }
{
    for i in from..facts.len() {
        if values[facts[i].var as usize] != facts[i].val {
            return Some(i);
        }
    }
    None
}

/// Whether the rule is one of the layer that counts, and its variable has its default value.
fn is_open(parts: &TaskParts, layer: u32, rule: &Rule, values: &[u32]) -> bool
    requires rule { FitsRule parts.now rule.now }
    requires initial { length parts.now.initial ≡ length parts.now.variables }
    requires values { length values.now ≡ length parts.now.variables }
    ensures { IsTrue result ↔ IsOpenRule parts.now layer values.now rule.now }
{
    let var = rule.var as usize;
    let default = parts.initial.as_slice()[var];
    rule.new != default
        && values[var] == default
        && parts.variables.as_slice()[var].layer == Some(layer)
}

/// The status of the rule, by its conditions from the place on.
pub(crate) fn status_of(
    parts: &TaskParts,
    layer: u32,
    rule: &Rule,
    values: &[u32],
    from: usize,
) -> RuleStatus
    requires rule { FitsRule parts.now rule.now }
    requires initial { length parts.now.initial ≡ length parts.now.variables }
    requires values { length values.now ≡ length parts.now.variables }
    ensures { FindsRuleStatus parts.now layer values.now rule.now from result }
{
    if !is_open(parts, layer, rule, values) {
        return RuleStatus::Done;
    }
    let conds = rule.conds.as_slice();
    match unmet(conds, from, values) {
        None => RuleStatus::Ready,
        Some(place) => RuleStatus::WaitsFor {
            place,
            var: conds[place].var,
        },
    }
}
