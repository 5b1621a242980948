//! All children of an entry.

ghost use Rattle.std.specs.Prelude.{◌≡◌, ◌<◌, length, ◌++◌, ◌∷◌, [], IfOk, OnOk, OnErr};
ghost use Rattle.space_api.specs.View.{View, Valid};
ghost use Rattle.space_api.specs.Frames.{Stays};
ghost use Rattle.cost_layers.specs.Layers.{Held};
ghost use Rattle.reconstruct.specs.Entries.{IsSingle, EntryOk, MakesEntries};
ghost use Rattle.reconstruct.specs.Expansions.{AreRightExpansions};
ghost use Rattle.reconstruct.specs.Grown.{Gathers, Expands};

use crate::after::gather_after;
use crate::before::gather_before;
use crate::children::{Children, give_back_children};
use crate::entries::Entry;
use crate::expansions::Expansions;
use cost_layers::Layers;
use space_api::{Space, SpaceFault};
use std::alloc::Global;

/// Adds the children by all operators. After a refusal the children so far are there.
fn gather<S: Space>(
    alloc: Global,
    space: &mut S,
    front: &Layers<S::Set>,
    back: &Layers<S::Set>,
    entry: &Entry<S::Set>,
    memo: &mut Expansions,
    children: &mut Children<S::Set>,
) -> Result<(), SpaceFault>
    requires front { Held (S.view space.old) front.now }
    requires back { Held (S.view space.old) back.now }
    requires entry { EntryOk (S.view space.old) entry.now }
    requires single { IsSingle entry.now }
    requires memo { AreRightExpansions (S.view space.old) back.now memo.old }
    requires level { children.old.level.items ≡ [] }
    requires falling { children.old.falling.items ≡ [] }
    ensures memo { AreRightExpansions (S.view space.old) back.now memo.new }
    ensures makes { MakesEntries (S.view space.old) (S.view space.new)
        (children.new.level.items ++ children.new.falling.items) }
    ensures ok { OnOk result (Gathers (S.view space.old) (S.view space.new) front.now back.now entry.now
        children.new.level.items children.new.falling.items) }
{
    match entry {
        Entry::Before(prefix) => gather_before(alloc, space, front, prefix, children),
        Entry::After(suffix) => gather_after(alloc, space, back, suffix, memo, children),
        Entry::Partial(_) => Ok(()),
    }
}

/// All children in one list, the falling ones last; or all are given back.
fn join<S: Space>(
    space: &mut S,
    children: Children<S::Set>,
) -> Result<Vec<Entry<S::Set>>, SpaceFault>
    requires { (u : View S.Set) × MakesEntries u (S.view space.old) (children.level.items ++ children.falling.items) }
    ensures ok { IfOk result (λ es. es.items ≡ children.level.items ++ children.falling.items) }
    ensures stays { IfOk result (λ es. S.view space.new ≡ S.view space.old) }
    ensures back { OnErr result ((u : View S.Set) → MakesEntries u (S.view space.old)
        (children.level.items ++ children.falling.items) → Stays u (S.view space.new)) }
{
    let mut children = children;
    match children.level.append(&mut children.falling) {
        Ok(()) => Ok(children.level),
        Err(fault) => {
            give_back_children(space, &children);
            Err(fault)
        }
    }
}

/// The children of an entry, the falling ones last. A refusal gives back what was made.
pub(crate) fn expand<S: Space>(
    alloc: Global,
    space: &mut S,
    front: &Layers<S::Set>,
    back: &Layers<S::Set>,
    entry: &Entry<S::Set>,
    memo: &mut Expansions,
) -> Result<Vec<Entry<S::Set>>, SpaceFault>
    requires front { Held (S.view space.old) front.now }
    requires back { Held (S.view space.old) back.now }
    requires entry { EntryOk (S.view space.old) entry.now }
    requires single { IsSingle entry.now }
    requires memo { AreRightExpansions (S.view space.old) back.now memo.old }
    ensures memo { AreRightExpansions (S.view space.old) back.now memo.new }
    ensures ok { IfOk result (λ es. Expands (S.view space.old) (S.view space.new) front.now back.now entry.now
        es.items) }
    ensures err { OnErr result (Stays (S.view space.old) (S.view space.new)) }
{
    let mut children = Children::new(alloc);
    match gather(alloc, space, front, back, entry, memo, &mut children) {
        Ok(()) => join(space, children),
        Err(fault) => {
            give_back_children(space, &children);
            Err(fault)
        }
    }
}
