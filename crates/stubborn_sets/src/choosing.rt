//! Which precondition an operator is served by.

ghost use Rattle.std.specs.Prelude.{◌≡◌, ◌<◌, ◌⊎◌, All, IsTrue, IfSome, MatchOption, None, Some, length};
ghost use Rattle.task_run.specs.Values.{HasValue, AllowsBy, AppliesBy, AreBelow, IsOn};
ghost use Rattle.stubborn_sets.specs.Making.{IsUnmet, IsRefusedFact, IsRefusedOf, IsMissingFact};
ghost use Rattle.stubborn_sets.specs.Depending.{has_mark};
ghost use Rattle.stubborn_sets.specs.Barring.{HasMakers, CannotComeFirst};
ghost use Rattle.stubborn_sets.specs.Kept.{KnowsMakers};

use crate::barring::is_raising;
use crate::depending::is_marked;
use crate::makers::Makers;
use symk_task::{Effect, Fact, Operator, TaskParts};

/// A fact that doesn't hold, and how many operators outside the set can make it true: none where nothing has to be added.
#[derive(Clone, Copy)]
pub(crate) struct Lack {
    pub(crate) fact: Fact,
    pub(crate) makers: usize,
}

/// How many facts don't have their values, and how many makers the one has that has the fewest.
#[derive(Clone, Copy)]
struct Unmet {
    facts: usize,
    makers: usize,
}

impl Unmet {
    /// None.
    fn none() -> Unmet {
        Unmet {
            facts: 0,
            makers: usize::MAX,
        }
    }

    /// One more, with so many makers.
    fn with(self, makers: usize) -> Unmet {
        Unmet {
            facts: self.facts.saturating_add(1),
            makers: self.makers.min(makers),
        }
    }

    /// How far makers outside the set are counted to tell which fact has the fewest: one with more than another has in all
    /// isn't it; and of a single fact it is told only whether there are any. No clause tells of it: it steers speed alone.
    fn far_enough(self) -> usize {
        if self.facts < 2 {
            return 1;
        }
        self.makers.saturating_add(1)
    }
}

/// Adds those of the facts that don't have their values.
fn unmet_among(
    makers: &Makers,
    parts: &TaskParts,
    values: &[u32],
    facts: &[Fact],
    before: Unmet,
) -> Unmet
    requires known { KnowsMakers parts.now makers.now }
    requires valued { length values.now ≡ length parts.now.variables }
    requires within { AreBelow (length values.now) facts.now }
{
    let mut unmet = before;
    for fact in facts {
        if values[fact.var as usize] != fact.val {
            unmet = unmet.with(makers.of(parts, *fact).len());
        }
    }
    unmet
}

/// Adds those of the facts that the effects ask for.
fn unmet_asked(
    makers: &Makers,
    parts: &TaskParts,
    values: &[u32],
    effects: &[Effect],
    before: Unmet,
) -> Unmet
    requires known { KnowsMakers parts.now makers.now }
    requires valued { length values.now ≡ length parts.now.variables }
    requires within { All (IsOn (length values.now)) effects.now }
{
    let mut unmet = before;
    for effect in effects {
        if let Some(fact) = refused(values, effect) {
            unmet = unmet.with(makers.of(parts, fact).len());
        }
    }
    unmet
}

/// How many of the operators are not marked. The count ends where it comes to `most`.
fn unmarked(ops: &[u32], marks: &[bool], most: usize) -> usize
    requires { All (λ op. op < length marks.now) ops.now }
    ensures { result ≡ 0 → All (λ op. IsTrue (has_mark marks.now op)) ops.now }
{
    let mut count = 0;
    for op in ops {
        if !marks[*op as usize] {
            count += 1;
            if count >= most {
                return count;
            }
        }
    }
    count
}

/// How many operators outside the set it would bring in to bar the fact, at most: none where it says that a barred
/// variable is raised. The count ends where it comes to `most`.
fn weight(
    makers: &Makers,
    parts: &TaskParts,
    marks: &[bool],
    barred: &[bool],
    fact: Fact,
    most: usize,
) -> usize
    requires known { KnowsMakers parts.now makers.now }
    requires each { length marks.now ≡ length parts.now.operators }
    requires within { fact.var < length parts.now.variables }
    ensures { result ≡ 0 → CannotComeFirst parts.now barred.now marks.now fact }
{
    if is_marked(barred, fact.var) && is_raising(parts, fact) {
        return 0;
    }
    unmarked(makers.of(parts, fact), marks, most)
}

/// The fact, which doesn't hold, or the one that was found before if it has no more makers outside the set. They are
/// counted up to `most`.
fn scarcer(
    makers: &Makers,
    parts: &TaskParts,
    marks: &[bool],
    barred: &[bool],
    fact: Fact,
    before: Option<Lack>,
    most: usize,
) -> Lack
    requires known { KnowsMakers parts.now makers.now }
    requires each { length marks.now ≡ length parts.now.operators }
    requires within { fact.var < length parts.now.variables }
    requires before { IfSome before (λ lack. lack.makers ≡ 0
        → CannotComeFirst parts.now barred.now marks.now lack.fact) }
    ensures which { (result.fact ≡ fact) ⊎ (before ≡ Some result) }
    ensures waits { result.makers ≡ 0 → CannotComeFirst parts.now barred.now marks.now result.fact }
{
    match before {
        None => Lack {
            fact,
            makers: weight(makers, parts, marks, barred, fact, most),
        },
        Some(lack) if lack.makers == 0 => lack,
        Some(lack) => {
            let makers = weight(makers, parts, marks, barred, fact, lack.makers);
            if makers < lack.makers {
                Lack { fact, makers }
            } else {
                lack
            }
        }
    }
}

/// Of the facts that don't have their values one with the fewest makers outside the set, or that says that a barred
/// variable is raised. They are counted up to `most`.
fn scarcest_among(
    makers: &Makers,
    parts: &TaskParts,
    values: &[u32],
    marks: &[bool],
    barred: &[bool],
    facts: &[Fact],
    most: usize,
) -> Option<Lack>
    requires known { KnowsMakers parts.now makers.now }
    requires each { length marks.now ≡ length parts.now.operators }
    requires valued { length values.now ≡ length parts.now.variables }
    requires within { AreBelow (length values.now) facts.now }
    ensures which { MatchOption result (All (HasValue values.now) facts.now)
        (λ lack. IsUnmet values.now facts.now lack.fact) }
    ensures waits { IfSome result (λ lack. lack.makers ≡ 0 → CannotComeFirst parts.now barred.now marks.now lack.fact) }
{
    let mut best = None;
    for fact in facts {
        if values[fact.var as usize] == fact.val {
            continue;
        }
        best = Some(scarcer(makers, parts, marks, barred, *fact, best, most));
    }
    best
}

/// Of the facts that don't have their values one with the fewest makers outside the set, or that says that a barred
/// variable is raised.
pub(crate) fn scarcest(
    makers: &Makers,
    parts: &TaskParts,
    values: &[u32],
    marks: &[bool],
    barred: &[bool],
    facts: &[Fact],
) -> Option<Lack>
    requires known { KnowsMakers parts.now makers.now }
    requires each { length marks.now ≡ length parts.now.operators }
    requires valued { length values.now ≡ length parts.now.variables }
    requires within { AreBelow (length values.now) facts.now }
    ensures which { MatchOption result (All (HasValue values.now) facts.now)
        (λ lack. IsUnmet values.now facts.now lack.fact) }
    ensures waits { IfSome result (λ lack. lack.makers ≡ 0 → CannotComeFirst parts.now barred.now marks.now lack.fact) }
{
    let most = unmet_among(makers, parts, values, facts, Unmet::none()).far_enough();
    scarcest_among(makers, parts, values, marks, barred, facts, most)
}

/// The fact that the effect asks for, where it asks for one and that doesn't have its value.
fn refused(values: &[u32], effect: &Effect) -> Option<Fact>
    requires { effect.now.var < length values.now }
    ensures { MatchOption result (AllowsBy values.now effect.now) (IsRefusedFact values.now effect.now) }
{
    let val = effect.pre?;
    if values[effect.var as usize] == val {
        return None;
    }
    Some(Fact {
        var: effect.var,
        val,
    })
}

/// So of the facts that the effects ask for, and one that was found before.
fn scarcest_asked(
    makers: &Makers,
    parts: &TaskParts,
    values: &[u32],
    marks: &[bool],
    effects: &[Effect],
    before: Option<Lack>,
    most: usize,
) -> Option<Lack>
    requires known { KnowsMakers parts.now makers.now }
    requires each { length marks.now ≡ length parts.now.operators }
    requires valued { length values.now ≡ length parts.now.variables }
    requires within { All (IsOn (length values.now)) effects.now }
    requires before { IfSome before (λ lack. lack.makers ≡ 0 → HasMakers parts.now lack.fact marks.now) }
    ensures which { MatchOption result ((before ≡ None) × All (AllowsBy values.now) effects.now)
        (λ lack. (before ≡ Some lack) ⊎ IsRefusedOf values.now effects.now lack.fact) }
    ensures waits { IfSome result (λ lack. lack.makers ≡ 0 → HasMakers parts.now lack.fact marks.now) }
{
    let mut best = before;
    for effect in effects {
        match refused(values, effect) {
            None => {}
            Some(fact) => best = Some(scarcer(makers, parts, marks, &[], fact, best, most)),
        }
    }
    best
}

/// Of the preconditions of the operator that don't have their values one with the fewest makers outside the set.
pub(crate) fn missing(
    makers: &Makers,
    parts: &TaskParts,
    values: &[u32],
    marks: &[bool],
    operator: &Operator,
) -> Option<Lack>
    requires known { KnowsMakers parts.now makers.now }
    requires each { length marks.now ≡ length parts.now.operators }
    requires valued { length values.now ≡ length parts.now.variables }
    requires prevail { AreBelow (length values.now) operator.now.prevail }
    requires effects { All (IsOn (length values.now)) operator.now.effects }
    ensures which { MatchOption result (AppliesBy values.now operator.now)
        (λ lack. IsMissingFact values.now operator.now lack.fact) }
    ensures waits { IfSome result (λ lack. lack.makers ≡ 0 → HasMakers parts.now lack.fact marks.now) }
{
    let prevail = operator.prevail.as_slice();
    let effects = operator.effects.as_slice();
    let unmet = unmet_among(makers, parts, values, prevail, Unmet::none());
    let most = unmet_asked(makers, parts, values, effects, unmet).far_enough();
    let lack = scarcest_among(makers, parts, values, marks, &[], prevail, most);
    scarcest_asked(makers, parts, values, marks, effects, lack, most)
}
