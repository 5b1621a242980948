//! Ordered sets of states.

ghost use Rattle.std.specs.Prelude.{◌≡◌, ◌<◌, ◌↔◌, ◌∷◌, ℕ, IsTrue, IsFalse, IfOk, OnOk};
ghost use Rattle.task_system.specs.System.{State as state};
ghost use Rattle.explicit_space.specs.Members.{has_explicit_state, HasThoseStates, GrowsBy, FromMember, IsIf};

use std::alloc::Global;
use std::collections::BTreeSet;
use symk_task::{Memory, State};

/// Puts an equal state into the set, if it is to be there.
pub(crate) fn insert_if(
    alloc: Global,
    state: &State,
    wanted: bool,
    set: &mut BTreeSet<State>,
) -> Result<(), Memory>
    ensures { OnOk result (GrowsBy set.old set.new (IsIf (IsTrue wanted) state.now)) }
{
    if wanted {
        set.insert(state.copy(alloc)?)?;
    }
    Ok(())
}

/// Puts the members of one set into another.
pub(crate) fn insert_all(
    alloc: Global,
    members: &BTreeSet<State>,
    set: &mut BTreeSet<State>,
) -> Result<(), Memory>
    ensures { OnOk result (GrowsBy set.old set.new (λ s. IsTrue (has_explicit_state members.now s))) }
{
    for member in members {
        insert_if(alloc, member, true, set)?;
    }
    Ok(())
}

/// The members of either set.
pub(crate) fn union(
    alloc: Global,
    a: &BTreeSet<State>,
    b: &BTreeSet<State>,
) -> Result<BTreeSet<State>, Memory>
    ensures { IfOk result (λ set. GrowsBy a.now set (λ s. IsTrue (has_explicit_state b.now s))) }
{
    let mut set = BTreeSet::new(alloc);
    insert_all(alloc, a, &mut set)?;
    insert_all(alloc, b, &mut set)?;
    Ok(set)
}

/// The members of both sets.
pub(crate) fn intersection(
    alloc: Global,
    a: &BTreeSet<State>,
    b: &BTreeSet<State>,
) -> Result<BTreeSet<State>, Memory>
    ensures { IfOk result (λ set. HasThoseStates set (λ s. IsTrue (has_explicit_state a.now s)
        × IsTrue (has_explicit_state b.now s))) }
{
    let mut set = BTreeSet::new(alloc);
    for member in a {
        insert_if(alloc, member, b.contains(member), &mut set)?;
    }
    Ok(set)
}

/// The members of `a` that `b` lacks.
pub(crate) fn difference(
    alloc: Global,
    a: &BTreeSet<State>,
    b: &BTreeSet<State>,
) -> Result<BTreeSet<State>, Memory>
    ensures { IfOk result (λ set. HasThoseStates set (λ s. IsTrue (has_explicit_state a.now s)
        × IsFalse (has_explicit_state b.now s))) }
{
    let mut set = BTreeSet::new(alloc);
    for member in a {
        insert_if(alloc, member, !b.contains(member), &mut set)?;
    }
    Ok(set)
}

/// Whether each member of `a` is one of `b`.
pub(crate) fn is_subset(a: &BTreeSet<State>, b: &BTreeSet<State>) -> bool
    ensures { IsTrue result ↔ ((s : state) → IsTrue (has_explicit_state a.now s)
        → IsTrue (has_explicit_state b.now s)) }
{
    for member in a {
        if !b.contains(member) {
            return false;
        }
    }
    true
}

/// The set of one state.
pub(crate) fn single(alloc: Global, state: State) -> Result<BTreeSet<State>, Memory>
    ensures { IfOk result (λ set. HasThoseStates set (λ s. s ≡ state)) }
{
    let mut set = BTreeSet::new(alloc);
    set.insert(state)?;
    Ok(set)
}
