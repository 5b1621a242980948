//! What must come before a derived fact.

ghost use Rattle.std.specs.Prelude.{◌≡◌, ◌<◌, ◌↔◌, IsTrue, IfOk, OnOk, length};
ghost use Rattle.symk_task.specs.Fits.{Fits};
ghost use Rattle.symk_task.specs.Variables.{other_value};
ghost use Rattle.task_run.specs.Values.{AreBelow};
ghost use Rattle.stubborn_sets.specs.Depending.{GrowsMarks};
ghost use Rattle.stubborn_sets.specs.Barring.{HasMakers, IsRaising, CannotComeFirst, IsStopped, AreStopped, AreBarredRules, IsBarred, StaysFalse};
ghost use Rattle.stubborn_sets.specs.Growing.{AddsNumbers, IsBarring};
ghost use Rattle.stubborn_sets.specs.Kept.{KnowsMakers};

use crate::choosing::{Lack, scarcest};
use crate::growing::Growing;
use crate::makers::Makers;
use crate::reading::is_base;
use std::alloc::Global;
use symk_task::{Fact, Memory, Rule, TaskParts};

/// The value to which rules raise a derived variable.
fn other_value(parts: &TaskParts, var: u32) -> u32
    ensures { result ≡ other_value parts.now var }
{
    let default = parts
        .initial
        .as_slice()
        .get(var as usize)
        .copied()
        .unwrap_or(0);
    1u32.saturating_sub(default)
}

/// Whether the fact says of a derived variable that rules raise it.
pub(crate) fn is_raising(parts: &TaskParts, fact: Fact) -> bool
    ensures { IsTrue result ↔ IsRaising parts.now fact }
{
    !is_base(parts, fact.var) && fact.val == other_value(parts, fact.var)
}

/// Adds the operators that can make the fact true.
fn add_makers(
    makers: &Makers,
    parts: &TaskParts,
    fact: Fact,
    set: &mut Growing,
) -> Result<(), Memory>
    requires known { KnowsMakers parts.now makers.now }
    requires each { length set.old.marks.items ≡ length parts.now.operators }
    requires within { fact.var < length parts.now.variables }
    ensures adds { OnOk result (AddsNumbers set.old set.new) }
    ensures has { OnOk result (HasMakers parts.now fact set.new.marks.items) }
{
    set.add_all(makers.of(parts, fact))
}

/// Bars a fact that doesn't hold: its variable, where it says that rules raise it; else by the operators that can make it
/// true, which are added to the set. Nothing has to be added where it has no makers outside.
fn bar(
    makers: &Makers,
    parts: &TaskParts,
    lack: Lack,
    barred: &mut Growing,
    set: &mut Growing,
) -> Result<(), Memory>
    requires known { KnowsMakers parts.now makers.now }
    requires each { length set.old.marks.items ≡ length parts.now.operators }
    requires variables { length barred.old.marks.items ≡ length parts.now.variables }
    requires within { lack.fact.var < length parts.now.variables }
    requires none { lack.makers ≡ 0 → CannotComeFirst parts.now barred.old.marks.items set.old.marks.items lack.fact }
    ensures bars { OnOk result (AddsNumbers barred.old barred.new) }
    ensures adds { OnOk result (AddsNumbers set.old set.new) }
    ensures waits { OnOk result (CannotComeFirst parts.now barred.new.marks.items set.new.marks.items lack.fact) }
{
    if lack.makers == 0 {
        return Ok(());
    }
    if is_raising(parts, lack.fact) {
        return barred.add(lack.fact.var);
    }
    add_makers(makers, parts, lack.fact, set)
}

/// Bars one condition of the rule that doesn't hold, if the rule raises its variable, and tells whether there is one.
fn bar_rule(
    makers: &Makers,
    parts: &TaskParts,
    values: &[u32],
    rule: &Rule,
    barred: &mut Growing,
    set: &mut Growing,
) -> Result<bool, Memory>
    requires known { KnowsMakers parts.now makers.now }
    requires each { length set.old.marks.items ≡ length parts.now.operators }
    requires variables { length barred.old.marks.items ≡ length parts.now.variables }
    requires valued { length values.now ≡ length parts.now.variables }
    requires within { AreBelow (length values.now) rule.now.conds }
    ensures spreads { OnOk result (AddsNumbers barred.old barred.new) }
    ensures adds { OnOk result (AddsNumbers set.old set.new) }
    ensures bars { IfOk result (λ done. IsTrue done →
        IsStopped parts.now values.now barred.new.marks.items set.new.marks.items rule.now) }
{
    if rule.new != other_value(parts, rule.var) {
        return Ok(true);
    }
    match scarcest(
        makers,
        parts,
        values,
        &set.marks,
        &barred.marks,
        rule.conds.as_slice(),
    ) {
        Some(lack) => {
            bar(makers, parts, lack, barred, set)?;
            Ok(true)
        }
        None => Ok(false),
    }
}

/// Does so for each rule for the variable, unless all conditions of one hold.
fn bar_rules(
    makers: &Makers,
    parts: &TaskParts,
    values: &[u32],
    var: u32,
    barred: &mut Growing,
    set: &mut Growing,
) -> Result<bool, Memory>
    requires fits { Fits parts.now }
    requires known { KnowsMakers parts.now makers.now }
    requires each { length set.old.marks.items ≡ length parts.now.operators }
    requires variables { length barred.old.marks.items ≡ length parts.now.variables }
    requires valued { length values.now ≡ length parts.now.variables }
    ensures spreads { OnOk result (AddsNumbers barred.old barred.new) }
    ensures adds { OnOk result (AddsNumbers set.old set.new) }
    ensures bars { IfOk result (λ all. IsTrue all →
        AreStopped parts.now values.now barred.new.marks.items set.new.marks.items var) }
{
    let rules = parts.rules.as_slice();
    for number in makers.rules_for(parts, var) {
        let rule = &rules[*number as usize];
        if !bar_rule(makers, parts, values, rule, barred, set)? {
            return Ok(false);
        }
    }
    Ok(true)
}

/// Bars conditions of the rules for barred variables, each once, until no variable waits, and tells whether it came so
/// far: not where all conditions of such a rule hold.
fn bar_on(
    makers: &Makers,
    parts: &TaskParts,
    values: &[u32],
    barred: &mut Growing,
    set: &mut Growing,
) -> Result<bool, Memory>
    requires fits { Fits parts.now }
    requires known { KnowsMakers parts.now makers.now }
    requires each { length set.old.marks.items ≡ length parts.now.operators }
    requires valued { length values.now ≡ length parts.now.variables }
    requires barring { IsBarring parts.now values.now barred.old set.old }
    ensures grows { IfOk result (λ all. IsTrue all → GrowsMarks barred.old.marks.items barred.new.marks.items) }
    ensures adds { OnOk result (AddsNumbers set.old set.new) }
    ensures bars { IfOk result (λ all. IsTrue all →
        AreBarredRules parts.now values.now barred.new.marks.items set.new.marks.items parts.now.rules) }
{
    'barring: while let Some(var) = barred.waiting.pop() {
        if !bar_rules(makers, parts, values, var, barred, set)? {
            return Ok(false);
        }
    }
    Ok(true)
}

/// Bars the fact, which says of a derived variable that rules raise it, and tells whether that could be done.
fn bar_raised(
    alloc: Global,
    makers: &Makers,
    parts: &TaskParts,
    values: &[u32],
    fact: Fact,
    set: &mut Growing,
) -> Result<bool, Memory>
    requires fits { Fits parts.now }
    requires known { KnowsMakers parts.now makers.now }
    requires each { length set.old.marks.items ≡ length parts.now.operators }
    requires valued { length values.now ≡ length parts.now.variables }
    requires within { fact.var < length parts.now.variables }
    requires raising { IsRaising parts.now fact }
    ensures adds { OnOk result (AddsNumbers set.old set.new) }
    ensures barred { IfOk result (λ all. IsTrue all → IsBarred parts.now values.now set.new.marks.items fact) }
{
    let mut barred = Growing::new(alloc, parts.variables.len())?;
    barred.add(fact.var)?;
    bar_on(makers, parts, values, &mut barred, set)
}

/// Does so, or adds the operators that can make the fact true.
fn serve_raised(
    alloc: Global,
    makers: &Makers,
    parts: &TaskParts,
    values: &[u32],
    fact: Fact,
    set: &mut Growing,
) -> Result<(), Memory>
    requires fits { Fits parts.now }
    requires known { KnowsMakers parts.now makers.now }
    requires each { length set.old.marks.items ≡ length parts.now.operators }
    requires valued { length values.now ≡ length parts.now.variables }
    requires within { fact.var < length parts.now.variables }
    requires raising { IsRaising parts.now fact }
    ensures adds { OnOk result (AddsNumbers set.old set.new) }
    ensures stays { OnOk result (StaysFalse parts.now values.now set.new.marks.items fact) }
{
    if bar_raised(alloc, makers, parts, values, fact, set)? {
        return Ok(());
    }
    add_makers(makers, parts, fact, set)
}

/// Adds to the set operators one of which is applied before the fact holds, where it doesn't hold by the values.
///
/// Where rules are to raise a derived variable, these are, of each rule that does so, the makers of one condition that
/// doesn't hold; so again where the condition says that another derived variable is raised. Of other facts they are the
/// makers.
pub(crate) fn serve(
    alloc: Global,
    makers: &Makers,
    parts: &TaskParts,
    values: &[u32],
    fact: Fact,
    set: &mut Growing,
) -> Result<(), Memory>
    requires fits { Fits parts.now }
    requires known { KnowsMakers parts.now makers.now }
    requires each { length set.old.marks.items ≡ length parts.now.operators }
    requires valued { length values.now ≡ length parts.now.variables }
    requires within { fact.var < length parts.now.variables }
    ensures adds { OnOk result (AddsNumbers set.old set.new) }
    ensures stays { OnOk result (StaysFalse parts.now values.now set.new.marks.items fact) }
{
    if is_raising(parts, fact) {
        serve_raised(alloc, makers, parts, values, fact, set)
    } else {
        add_makers(makers, parts, fact, set)
    }
}

/// Does so for the precondition that is missing. Nothing has to be added where it has no makers outside the set.
pub(crate) fn serve_lack(
    alloc: Global,
    makers: &Makers,
    parts: &TaskParts,
    values: &[u32],
    lack: Lack,
    set: &mut Growing,
) -> Result<(), Memory>
    requires fits { Fits parts.now }
    requires known { KnowsMakers parts.now makers.now }
    requires each { length set.old.marks.items ≡ length parts.now.operators }
    requires valued { length values.now ≡ length parts.now.variables }
    requires within { lack.fact.var < length parts.now.variables }
    requires none { lack.makers ≡ 0 → HasMakers parts.now lack.fact set.old.marks.items }
    ensures adds { OnOk result (AddsNumbers set.old set.new) }
    ensures stays { OnOk result (StaysFalse parts.now values.now set.new.marks.items lack.fact) }
{
    if lack.makers == 0 {
        return Ok(());
    }
    serve(alloc, makers, parts, values, lack.fact, set)
}
