//! What a derived variable depends on.

ghost use Rattle.std.specs.Prelude.{◌≡◌, ◌<◌, ◌↔◌, All, IsTrue, IsFalse, IfOk, length};
ghost use Rattle.symk_task.specs.Fits.{Fits};
ghost use Rattle.task_run.specs.Values.{AreBelow};
ghost use Rattle.stubborn_sets.specs.Depending.{has_mark, GrowsMarks, Spreads, IsRuleBelow, StaysIn, IsShutByRules, WritesOff};

use std::alloc::Global;
use symk_task::{Effect, Fact, Memory, Rule, TaskParts};

/// Marks the thing of this number, and tells whether it is new.
pub(crate) fn mark(marks: &mut [bool], at: usize) -> bool
    requires { at < length marks.old }
    ensures spreads { Spreads marks.old marks.new result }
    ensures has { IsTrue (has_mark marks.new at) }
{
    if marks[at] {
        return false;
    }
    marks[at] = true;
    true
}

/// Marks the variables of the facts, and tells whether one is new.
fn mark_all(facts: &[Fact], marks: &mut [bool]) -> bool
    requires { AreBelow (length marks.old) facts.now }
    ensures spreads { Spreads marks.old marks.new result }
    ensures has { All (λ fact. IsTrue (has_mark marks.new fact.var)) facts.now }
{
    let mut more = false;
    for fact in facts {
        if mark(marks, fact.var as usize) {
            more = true;
        }
    }
    more
}

/// Marks what the rule reads, if it is for a marked variable, and tells whether one is new.
fn follow(rule: &Rule, marks: &mut [bool]) -> bool
    requires { IsRuleBelow (length marks.old) rule.now }
    ensures spreads { Spreads marks.old marks.new result }
    ensures stays { IsFalse result → StaysIn marks.new rule.now }
{
    if marks[rule.var as usize] {
        mark_all(rule.conds.as_slice(), marks)
    } else {
        false
    }
}

/// Marks what the rules for marked variables read, and tells whether one is new.
fn spread(rules: &[Rule], marks: &mut [bool]) -> bool
    requires { All (IsRuleBelow (length marks.old)) rules.now }
    ensures spreads { Spreads marks.old marks.new result }
    ensures shut { IsFalse result → IsShutByRules rules.now marks.new }
{
    let mut more = false;
    for rule in rules {
        if follow(rule, marks) {
            more = true;
        }
    }
    more
}

/// Marks all that the rules lead to from marked variables.
fn spread_on(rules: &[Rule], marks: &mut [bool])
    requires { All (IsRuleBelow (length marks.old)) rules.now }
    ensures grows { GrowsMarks marks.old marks.new }
    ensures shut { IsShutByRules rules.now marks.new }
{
    'spreading: loop {
        if !spread(rules, marks) {
            return;
        }
    }
}

/// Marks of the variable and of all that the rules lead to from it.
pub(crate) fn dependencies(alloc: Global, parts: &TaskParts, var: u32) -> Result<Vec<bool>, Memory>
    requires fits { Fits parts.now }
    requires within { var < length parts.now.variables }
    ensures itself { IfOk result (λ marks. IsTrue (has_mark marks.items var)) }
    ensures shut { IfOk result (λ marks. IsShutByRules parts.now.rules marks.items) }
{
    let mut marks = vec![in alloc; false; parts.variables.len()]?;
    marks[var as usize] = true;
    spread_on(parts.rules.as_slice(), &mut marks);
    Ok(marks)
}

/// Whether the variable is marked.
pub(crate) fn is_marked(marks: &[bool], var: u32) -> bool
    ensures { result ≡ has_mark marks.now var }
{
    match marks.get(var as usize) {
        Some(mark) => *mark,
        None => false,
    }
}

/// Whether no effect is on a marked variable.
pub(crate) fn writes_off(effects: &[Effect], marks: &[bool]) -> bool
    ensures { IsTrue result ↔ WritesOff marks.now effects.now }
{
    effects.iter().all(|effect| !is_marked(marks, effect.var))
}
