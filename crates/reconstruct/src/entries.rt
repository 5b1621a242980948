//! Entries over sets of a space, and over single states.

use symk_task::State;

/// A prefix that grows backwards out of a set. The operators stand between the set and the meeting state; what
/// follows that costs `after`.
#[derive(Drop)]
pub(crate) struct Prefix<T> {
    pub set: T,
    pub cost: u64,
    pub ring: u64,
    pub operators: Vec<u32>,
    pub after: u64,
}

/// A suffix that grows forwards from the one state that the operators reach. What is left costs `cost`.
#[derive(Drop)]
pub(crate) struct Suffix {
    pub state: State,
    pub cost: u64,
    pub ring: u64,
    pub operators: Vec<u32>,
}

/// A prefix whose children by these operators are still to be found. The prefix's set is one of its own.
#[derive(Drop)]
pub(crate) struct Partial<T> {
    pub prefix: Prefix<T>,
    pub left: Vec<u32>,
}

/// A prefix keeps a set of a space, also where its children are still to be found; a suffix keeps none.
#[derive(Drop)]
pub(crate) enum Entry<T> {
    Before(Prefix<T>),
    After(Suffix),
    Partial(Partial<T>),
}

ghost use Rattle.std.specs.Prelude.{◌≡◌, ◌<◌, ◌≤◌, ◌⊎◌, ◌++◌, ◌∷◌, [], IsTrue, IsFalse, IfOk, OnOk, OnErr};
ghost use Rattle.space_api.specs.View.{View, Valid};
ghost use Rattle.space_api.specs.Owned.{Trades};
ghost use Rattle.reconstruct.specs.Entries.{entry_cost, ring_in, operators_in, HasSet, SetIn, AreDistinct};
ghost use Rattle.reconstruct.specs.Turned.{GivesBack};

use space_api::Space;
use std::alloc::{AllocError, AllocFailed, Global};
use symk_task::Memory;

/// The operators in place.
pub(crate) fn into_operators<T: Copy + Drop>(entry: Entry<T>) -> Vec<u32>
    ensures { result.items ≡ operators_in entry }
{
    match entry {
        Entry::Before(prefix) => prefix.operators,
        Entry::After(suffix) => suffix.operators,
        Entry::Partial(partial) => partial.prefix.operators,
    }
}

/// The operator before the others.
pub(crate) fn prepend(alloc: Global, op: u32, rest: &[u32]) -> Result<Vec<u32>, Memory>
    ensures { IfOk result (λ r. r.items ≡ op ∷ rest.now) }
{
    let mut all = Vec::with_capacity(alloc, rest.len() + 1)?;
    all.push(op)?;
    all.extend_from_slice(rest)?;
    Ok(all)
}

/// The operator after the others.
pub(crate) fn append(alloc: Global, rest: &[u32], op: u32) -> Result<Vec<u32>, Memory>
    ensures { IfOk result (λ r. r.items ≡ rest.now ++ op ∷ []) }
{
    let mut all = Vec::with_capacity(alloc, rest.len() + 1)?;
    all.extend_from_slice(rest)?;
    all.push(op)?;
    Ok(all)
}

/// Gives the set of an entry back, if it has one.
pub(crate) fn give_back<S: Space>(space: &mut S, entry: &Entry<S::Set>)
    requires { (a : S.Set) → HasSet entry.now a → Valid (S.view space.old) a }
    ensures { GivesBack (S.view space.old) (S.view space.new) entry.now }
{
    match entry {
        Entry::Before(prefix) => space.forget(prefix.set),
        Entry::After(_) => {}
        Entry::Partial(partial) => space.forget(partial.prefix.set),
    }
}

/// Gives the sets of these entries back.
pub(crate) fn give_back_entries<S: Space>(space: &mut S, entries: &[Entry<S::Set>])
    requires valid { (a : S.Set) → SetIn entries.now a → Valid (S.view space.old) a }
    requires distinct { AreDistinct entries.now }
    ensures { Trades (S.view space.old) (S.view space.new) (SetIn entries.now) (λ a. ⊥) }
{
    for entry in entries {
        give_back(space, entry);
    }
}
