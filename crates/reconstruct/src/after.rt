//! The children of a suffix: by the moves from its one state, and with no set.

ghost use Rattle.std.specs.Prelude.{◌≡◌, ◌++◌, [], IfOk, OnOk, OnErr};
ghost use Rattle.space_api.specs.View.{View};
ghost use Rattle.cost_layers.specs.Layers.{Held};
ghost use Rattle.reconstruct.specs.Entries.{EntryOk, MakesEntries};
ghost use Rattle.reconstruct.specs.Expansions.{AreRightExpansions};
ghost use Rattle.reconstruct.specs.Grown.{GrownBy, PutsBy, MakesMoves, GathersMoves, GathersAfter};

use crate::children::Children;
use crate::entries::{Entry, Suffix, append};
use crate::expansions::Expansions;
use crate::moves::{Move, successors_of};
use cost_layers::Layers;
use space_api::{Space, SpaceFault};
use std::alloc::Global;
use symk_task::Memory;

/// The suffix that grows by this move.
fn grow_after(alloc: Global, suffix: &Suffix, step: &Move) -> Result<Suffix, Memory>
    ensures { IfOk result (GrownBy suffix.now step.now) }
{
    let state = step.state.copy(alloc)?;
    let operators = append(alloc, &suffix.operators, step.op)?;
    Ok(Suffix {
        state,
        cost: step.cost,
        ring: step.ring,
        operators,
    })
}

/// The child by this move is made and put last. A refusal leaves the children as they were.
fn put_grown<T: Copy>(
    alloc: Global,
    suffix: &Suffix,
    step: &Move,
    children: &mut Children<T>,
) -> Result<(), Memory>
    ensures ok { OnOk result (PutsBy suffix.now step.now children.old.level.items children.old.falling.items
        children.new.level.items children.new.falling.items) }
    ensures level { OnErr result (children.new.level.items ≡ children.old.level.items) }
    ensures falling { OnErr result (children.new.falling.items ≡ children.old.falling.items) }
{
    let child = grow_after(alloc, suffix, step)?;
    children.put_after(suffix.cost, suffix.ring, child)
}

/// Adds the children by all moves, in their order. After a refusal the children so far are there.
fn add_all<T: Copy>(
    alloc: Global,
    suffix: &Suffix,
    moves: &[Move],
    children: &mut Children<T>,
) -> Result<(), Memory>
    requires level { children.old.level.items ≡ [] }
    requires falling { children.old.falling.items ≡ [] }
    ensures makes { MakesMoves suffix.now moves.now (children.new.level.items ++ children.new.falling.items) }
    ensures ok { OnOk result (GathersMoves suffix.now moves.now children.new.level.items
        children.new.falling.items) }
{
    'moves: for step in moves {
        put_grown(alloc, suffix, step, children)?;
    }
    Ok(())
}

/// Finds what follows, adds the children by the moves, and keeps it. After a refusal the children so far are there.
fn find_after<S: Space>(
    alloc: Global,
    space: &S,
    back: &Layers<S::Set>,
    suffix: &Suffix,
    memo: &mut Expansions,
    children: &mut Children<S::Set>,
) -> Result<(), SpaceFault>
    requires back { Held (S.view space.now) back.now }
    requires entry { EntryOk (S.view space.now) (Entry.After suffix.now) }
    requires memo { AreRightExpansions (S.view space.now) back.now memo.old }
    requires level { children.old.level.items ≡ [] }
    requires falling { children.old.falling.items ≡ [] }
    ensures memo { AreRightExpansions (S.view space.now) back.now memo.new }
    ensures makes { MakesEntries (S.view space.now) (S.view space.now)
        (children.new.level.items ++ children.new.falling.items) }
    ensures ok { OnOk result (GathersAfter (S.view space.now) back.now suffix.now children.new.level.items
        children.new.falling.items) }
{
    let all = successors_of(alloc, space, back, suffix.cost, &suffix.state)?;
    add_all(alloc, suffix, &all.moves, children)?;
    memo.keep(suffix.cost, &suffix.state, all);
    Ok(())
}

/// Adds the children by all operators, whose moves are remembered or found. After a refusal the children so far are
/// there.
pub(crate) fn gather_after<S: Space>(
    alloc: Global,
    space: &S,
    back: &Layers<S::Set>,
    suffix: &Suffix,
    memo: &mut Expansions,
    children: &mut Children<S::Set>,
) -> Result<(), SpaceFault>
    requires back { Held (S.view space.now) back.now }
    requires entry { EntryOk (S.view space.now) (Entry.After suffix.now) }
    requires memo { AreRightExpansions (S.view space.now) back.now memo.old }
    requires level { children.old.level.items ≡ [] }
    requires falling { children.old.falling.items ≡ [] }
    ensures memo { AreRightExpansions (S.view space.now) back.now memo.new }
    ensures makes { MakesEntries (S.view space.now) (S.view space.now)
        (children.new.level.items ++ children.new.falling.items) }
    ensures ok { OnOk result (GathersAfter (S.view space.now) back.now suffix.now children.new.level.items
        children.new.falling.items) }
{
    match memo.moves_of(suffix.cost, &suffix.state) {
        Some(moves) => add_all(alloc, suffix, moves, children),
        None => find_after(alloc, space, back, suffix, memo, children),
    }
}
