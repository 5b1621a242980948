//! The rules of a task that count.

ghost use Rattle.std.specs.Prelude.{◌≡◌, length, All, IfOk, MatchOption, slice_index, Contains};
ghost use Rattle.symk_task.specs.Fits.{Fits, FitsRule};
ghost use Rattle.task_run.specs.declared.counting.Counting.{Counting};
ghost use Rattle.task_run.specs.Layer.{IsOwnRule};
ghost use Rattle.task_run.specs.Counted.{IsCounting};

use std::alloc::Global;
use symk_task::{Memory, Rule, TaskParts};

/// A rule that counts, by its number, and the layer of its variable.
#[derive(Clone, Copy, Debug, PartialEq, Eq)]
pub struct Counting {
    pub layer: u32,
    pub rule: u32,
}

/// The layer of the rule's variable, where the rule counts.
fn counting_layer(parts: &TaskParts, rule: &Rule) -> Option<u32>
    requires initial { length parts.now.initial ≡ length parts.now.variables }
    requires rule { FitsRule parts.now rule.now }
    ensures { MatchOption result (rule.now.new ≡ slice_index parts.now.initial rule.now.var)
        (λ layer. IsOwnRule parts.now layer rule.now) }
{
    let var = rule.var as usize;
    if rule.new == parts.initial.as_slice()[var] {
        None
    } else {
        parts.variables.as_slice()[var].layer
    }
}

/// The rules that count, in the order of the file.
pub(crate) fn counting_rules(alloc: Global, parts: &TaskParts) -> Result<Vec<Counting>, Memory>
    requires { Fits parts.now }
    ensures counting { IfOk result (λ rules. All (IsCounting parts.now) rules.items) }
    ensures each { IfOk result (λ rules. (x : Counting) → IsCounting parts.now x → Contains rules.items x) }
{
    let rules = parts.rules.as_slice();
    let mut counting = Vec::new(alloc);
    for i in 0..rules.len() {
        if let Some(layer) = counting_layer(parts, &rules[i]) {
            counting.push(Counting {
                layer,
                rule: i as u32,
            })?;
        }
    }
    Ok(counting)
}
