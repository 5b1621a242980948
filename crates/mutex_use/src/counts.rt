//! Where facts of a group hold: one of them, and two different ones.

/// Two sets of states: where one of some facts holds, and where two different ones do.
#[derive(Clone, Copy)]
pub(crate) struct Counts<T> {
    pub once: T,
    pub twice: T,
}

ghost use Rattle.std.specs.Prelude.{◌≡◌, ◌≢◌, IfOk, OnErr};
ghost use Rattle.std.specs.List.{AllPairs};
ghost use Rattle.symk_task.specs.Variables.{IsBase};
ghost use Rattle.space_api.specs.View.{View, Valid, Has, FactIn, IsEmpty};
ghost use Rattle.space_api.specs.Frames.{Kept, NoMore, Gives, Stays};
ghost use Rattle.space_api.specs.Owned.{Trades};
ghost use Rattle.mutex_use.specs.Groups.{AreBaseFacts};
ghost use Rattle.mutex_use.specs.Counts.{IsEachOnce, BreaksIn, IsOfCounts, IsNewPair, CountsFacts, CountedAgain, CountsMore};

use space_api::{Space, SpaceFault};
use std::alloc::Global;
use std::collections::BTreeSet;
use symk_task::{Fact, Memory};

/// The facts, each once, in the order of their first places.
fn distinct(alloc: Global, facts: &[Fact]) -> Result<Vec<Fact>, Memory>
    ensures { IfOk result (λ each. IsEachOnce facts.now each.items) }
{
    let mut seen = BTreeSet::new(alloc);
    let mut each = Vec::new(alloc);
    'facts: for i in 0..facts.len() {
        let fact = facts[i];
        if seen.insert((fact.var, fact.val))? {
            each.push(fact)?;
        }
    }
    Ok(each)
}

/// No state is counted yet.
fn no_counts<S: Space>(space: &mut S) -> Result<Counts<S::Set>, SpaceFault>
    ensures pair { IfOk result (IsNewPair (S.view space.old) (S.view space.new)) }
    ensures once { IfOk result (λ counts. IsEmpty (S.view space.new) counts.once) }
    ensures twice { IfOk result (λ counts. IsEmpty (S.view space.new) counts.twice) }
    ensures err { OnErr result (Stays (S.view space.old) (S.view space.new)) }
    ensures task { (S.view space.new).task ≡ (S.view space.old).task }
{
    let once = space.empty()?;
    match space.empty() {
        Ok(twice) => Ok(Counts { once, twice }),
        Err(fault) => {
            space.forget(once);
            Err(fault)
        }
    }
}

/// The states that were counted twice, or once and are in `here` again, as a new set.
fn counted_again<S: Space>(
    space: &mut S,
    counts: Counts<S::Set>,
    here: S::Set,
) -> Result<S::Set, SpaceFault>
    requires once { Valid (S.view space.old) counts.once }
    requires twice { Valid (S.view space.old) counts.twice }
    requires here { Valid (S.view space.old) here }
    ensures kept { Kept (S.view space.old) (S.view space.new) }
    ensures ok { IfOk result (Gives (S.view space.old) (S.view space.new)
        (CountedAgain (S.view space.old) counts here)) }
    ensures err { OnErr result (NoMore (S.view space.old) (S.view space.new)) }
    ensures task { (S.view space.new).task ≡ (S.view space.old).task }
{
    let again = space.meet(counts.once, here)?;
    let twice = space.unite(counts.twice, again);
    space.forget(again);
    twice
}

/// The counts with the states of `here` counted once more, as new sets.
fn counts_with<S: Space>(
    space: &mut S,
    counts: Counts<S::Set>,
    here: S::Set,
) -> Result<Counts<S::Set>, SpaceFault>
    requires once { Valid (S.view space.old) counts.once }
    requires twice { Valid (S.view space.old) counts.twice }
    requires here { Valid (S.view space.old) here }
    ensures pair { IfOk result (IsNewPair (S.view space.old) (S.view space.new)) }
    ensures more { IfOk result (CountsMore (S.view space.old) (S.view space.new) counts
        (Has (S.view space.old) here)) }
    ensures err { OnErr result (Stays (S.view space.old) (S.view space.new)) }
    ensures task { (S.view space.new).task ≡ (S.view space.old).task }
{
    let twice = counted_again(space, counts, here)?;
    match space.unite(counts.once, here) {
        Ok(once) => Ok(Counts { once, twice }),
        Err(fault) => {
            space.forget(twice);
            Err(fault)
        }
    }
}

/// The counts with the states of `within` counted once more where the fact holds, as new sets.
fn counts_more<S: Space>(
    space: &mut S,
    within: S::Set,
    counts: Counts<S::Set>,
    fact: Fact,
) -> Result<Counts<S::Set>, SpaceFault>
    requires within { Valid (S.view space.old) within }
    requires once { Valid (S.view space.old) counts.once }
    requires twice { Valid (S.view space.old) counts.twice }
    requires fact { IsBase (S.view space.old).task fact.var }
    ensures pair { IfOk result (IsNewPair (S.view space.old) (S.view space.new)) }
    ensures more { IfOk result (CountsMore (S.view space.old) (S.view space.new) counts
        (FactIn (S.view space.old) fact within)) }
    ensures err { OnErr result (Stays (S.view space.old) (S.view space.new)) }
    ensures task { (S.view space.new).task ≡ (S.view space.old).task }
{
    let here = space.fact_in(fact, within)?;
    let next = counts_with(space, counts, here);
    space.forget(here);
    next
}

/// The same in place of the counts, which are given back, also when out of memory.
fn count_fact<S: Space>(
    space: &mut S,
    within: S::Set,
    counts: Counts<S::Set>,
    fact: Fact,
) -> Result<Counts<S::Set>, SpaceFault>
    requires within { Valid (S.view space.old) within }
    requires once { Valid (S.view space.old) counts.once }
    requires twice { Valid (S.view space.old) counts.twice }
    requires apart { counts.once ≢ counts.twice }
    requires fact { IsBase (S.view space.old).task fact.var }
    ensures trades { IfOk result (λ next. Trades (S.view space.old) (S.view space.new) (IsOfCounts counts)
        (IsOfCounts next)) }
    ensures more { IfOk result (CountsMore (S.view space.old) (S.view space.new) counts
        (FactIn (S.view space.old) fact within)) }
    ensures err { OnErr result (Trades (S.view space.old) (S.view space.new) (IsOfCounts counts) (λ a. ⊥)) }
    ensures task { (S.view space.new).task ≡ (S.view space.old).task }
{
    let next = counts_more(space, within, counts, fact);
    space.forget(counts.once);
    space.forget(counts.twice);
    next
}

/// The states of `within` where one of these different facts holds, and those where two do, as new sets.
fn count_facts<S: Space>(
    space: &mut S,
    within: S::Set,
    facts: &[Fact],
) -> Result<Counts<S::Set>, SpaceFault>
    requires within { Valid (S.view space.old) within }
    requires base { AreBaseFacts (S.view space.old).task facts.now }
    requires apart { AllPairs ◌≢◌ facts.now }
    ensures ok { IfOk result (CountsFacts (S.view space.old) (S.view space.new) within facts.now) }
    ensures err { OnErr result (Stays (S.view space.old) (S.view space.new)) }
    ensures task { (S.view space.new).task ≡ (S.view space.old).task }
{
    let mut counts = no_counts(space)?;
    'facts: for i in 0..facts.len() {
        counts = count_fact(space, within, counts, facts[i])?;
    }
    Ok(counts)
}

/// The states of `within` where two different facts of the group hold, as a new set.
pub(crate) fn breaking<S: Space>(
    alloc: Global,
    space: &mut S,
    within: S::Set,
    facts: &[Fact],
) -> Result<S::Set, SpaceFault>
    requires within { Valid (S.view space.old) within }
    requires base { AreBaseFacts (S.view space.old).task facts.now }
    ensures kept { Kept (S.view space.old) (S.view space.new) }
    ensures ok { IfOk result (Gives (S.view space.old) (S.view space.new)
        (BreaksIn (S.view space.old) within facts.now)) }
    ensures err { OnErr result (NoMore (S.view space.old) (S.view space.new)) }
    ensures task { (S.view space.new).task ≡ (S.view space.old).task }
{
    let each = distinct(alloc, facts)?;
    let counts = count_facts(space, within, &each)?;
    space.forget(counts.once);
    Ok(counts.twice)
}
