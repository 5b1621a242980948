//! The next cut of the cost that is listed.

use crate::entries::{Entry, give_back};
use plan_cuts::Cut;
use std::collections::VecDeque;

/// The cost that is listed, the last cut that was drawn, and whether a cut may be left.
#[derive(Drop)]
pub(crate) struct Place {
    pub(crate) cost: u64,
    pub(crate) after: Option<Cut>,
    pub(crate) left: bool,
    /// The cuts that were found and aren't drawn yet, which come next, in order.
    pub(crate) ready: VecDeque<Cut>,
}

/// A cut, and its first entry.
#[derive(Drop)]
pub(crate) struct Drawn<T> {
    pub(crate) cut: Cut,
    pub(crate) entry: Entry<T>,
}

ghost use Rattle.std.specs.Prelude.{◌≡◌, ◌+◌, ◌<◌, [], IsTrue, None, Some, IfOk, OnOk, OnErr};
ghost use Rattle.space_api.specs.View.{View, Valid};
ghost use Rattle.space_api.specs.Frames.{Stays};
ghost use Rattle.plan_cuts.specs.Cuts.{IsNextCut};
ghost use Rattle.reconstruct.specs.Entries.{HasSet};
ghost use Rattle.bidirectional.specs.Both.{IsBoth, f_of, b_of, front_layers, back_layers};
ghost use Rattle.reconstruct.specs.Listing.{IsSame, AreReadyAt, Lists, DrawsNext, PutsOne, LeavesAll, Draws};
ghost use Rattle.reconstruct.specs.Going.{HasMore};

use crate::opening::open_cut;
use crate::queue::Queue;
use bidirectional::{Both, Choose};
use space_api::{Space, SpaceFault};
use std::alloc::{AllocError, Global};

/// Finds the cuts that come next, where none is ready. Out of memory, it leaves those that are.
fn find_cuts<S: Space, P: Choose>(
    alloc: Global,
    space: &mut S,
    both: &Both<S::Set, P>,
    place: &mut Place,
) -> Result<(), SpaceFault>
    requires both { IsBoth (S.view space.old) both.now }
    requires settled { place.old.cost < f_of both.now + b_of both.now }
    requires ready { AreReadyAt (S.view space.old).system (b_of both.now) place.old }
    ensures stays { Stays (S.view space.old) (S.view space.new) }
    ensures same { IsSame place.old place.new }
    ensures ready { AreReadyAt (S.view space.old).system (b_of both.now) place.new }
    ensures ok { OnOk result (place.new.ready.items ≡ [] → IsNextCut (S.view space.old).system (b_of both.now)
        place.new.cost place.new.after None) }
{
    if !place.ready.is_empty() {
        return Ok(());
    }
    let cuts = both.next_cuts(alloc, space, place.cost, place.after)?;
    place.ready = VecDeque::from(cuts);
    Ok(())
}

/// The first entry of the next cut of plans of the cost that is listed; the cut is then the first that is ready. None
/// where no cut follows.
fn next_entry<S: Space, P: Choose>(
    alloc: Global,
    space: &mut S,
    both: &Both<S::Set, P>,
    place: &mut Place,
) -> Result<Option<Drawn<S::Set>>, SpaceFault>
    requires both { IsBoth (S.view space.old) both.now }
    requires settled { place.old.cost < f_of both.now + b_of both.now }
    requires ready { AreReadyAt (S.view space.old).system (b_of both.now) place.old }
    ensures same { IsSame place.old place.new }
    ensures ready { AreReadyAt (S.view space.old).system (b_of both.now) place.new }
    ensures ok { IfOk result (DrawsNext (S.view space.old) (S.view space.new) (front_layers both.now)
        (back_layers both.now) place.new) }
    ensures err { OnErr result (Stays (S.view space.old) (S.view space.new)) }
{
    find_cuts(alloc, space, both, place)?;
    match place.ready.front().copied() {
        None => Ok(None),
        Some(cut) => {
            let entry = open_cut(
                alloc,
                space,
                both.forward_layers(),
                both.backward_layers(),
                place.cost,
                cut,
            )?;
            Ok(Some(Drawn { cut, entry }))
        }
    }
}

/// Puts the first entry of the first cut that is ready into the empty queue. Out of memory, it gives its set back, if
/// it has one, and leaves all as it was.
fn put<S: Space>(
    space: &mut S,
    place: &mut Place,
    queue: &mut Queue<S::Set>,
    drawn: Drawn<S::Set>,
) -> Result<(), SpaceFault>
    requires set { (a : S.Set) → HasSet drawn.entry a → Valid (S.view space.old) a }
    requires empty { queue.old ≡ [] }
    ensures ok { OnOk result (PutsOne (S.view space.old) (S.view space.new) place.old place.new queue.new drawn) }
    ensures err { OnErr result (LeavesAll (S.view space.old) (S.view space.new) place.old place.new
        queue.old queue.new drawn) }
{
    let Drawn { cut, entry } = drawn;
    match queue.push(entry) {
        Ok(()) => {
            place.ready.pop_front();
            place.after = Some(cut);
            Ok(())
        }
        Err(refused) => {
            give_back(space, &refused.value);
            Err(AllocError)
        }
    }
}

/// Draws the next cut into the empty queue, or marks that none is left. Out of memory, it leaves what is owed.
pub(crate) fn draw<S: Space, P: Choose>(
    alloc: Global,
    space: &mut S,
    both: &Both<S::Set, P>,
    place: &mut Place,
    queue: &mut Queue<S::Set>,
) -> Result<(), SpaceFault>
    requires both { IsBoth (S.view space.old) both.now }
    requires listing { Lists (S.view space.old) both.now place.old queue.old }
    requires empty { queue.old ≡ [] }
    requires left { IsTrue place.old.left }
    ensures draws { Draws (S.view space.old) (S.view space.new) both.now place.old place.new queue.old
        queue.new }
    ensures err { OnErr result (queue.new ≡ queue.old) }
    ensures ok { OnOk result (HasMore queue.new (Some place.new)) }
{
    match next_entry(alloc, space, both, place)? {
        None => {
            place.left = false;
            Ok(())
        }
        Some(drawn) => put(space, place, queue, drawn),
    }
}
