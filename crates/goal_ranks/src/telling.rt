//! What a search from the initial state tells of a set that waits.

/// What comes of a set that waits.
#[derive(Clone, Copy)]
pub enum Part<T: Copy> {
    /// None of its states is left.
    Spent,
    /// None of them can have a rank yet: the set may wait under this key, which is greater.
    Later(u128),
    /// A new set of some of them, each of which can have a rank; `all` only where it has all that are left.
    Next { set: T, all: bool },
}

/// What the rings of the search ahead tell of a set.
#[derive(Clone, Copy)]
enum Told {
    /// Each of its states can have a rank.
    Whole,
    /// Those that stand in the ring of this cost can.
    Ring(u64),
    /// None can, below this key.
    Later(u128),
}

ghost use Rattle.std.specs.Prelude.{◌≡◌, ◌≢◌, ◌+◌, ◌^◌, ◌<◌, ◌≤◌, ℕ, None, min, IfOk, IfSome, MatchOption, OnErr};
ghost use Rattle.task_system.specs.System.{State};
ghost use Rattle.space_api.specs.View.{View, Valid, Has, Meets};
ghost use Rattle.space_api.specs.Frames.{Kept, NoMore, Gives, Stays};
ghost use Rattle.cost_layers.specs.Layers.{Held, Stands};
ghost use Rattle.cost_search.specs.Meeting.{IsLayerMeeting};
ghost use Rattle.run_graph.specs.Layering.{InLayer};
ghost use Rattle.goal_ranks.specs.Ahead.{IsAhead, bound_of, IsKeyOf, RingsTell, Divides};
ghost use Rattle.goal_ranks.specs.Unions.{AreAllRings};

use crate::least::LeastCosts;
use crate::parts::Waiting;
use crate::rings::Rings;
use cost_layers::Layers;
use space_api::{Space, SpaceFault, meets};

/// What a key leaves beyond a cost, where 64 bits hold it.
fn rest_of(key: u128, cost: u64) -> Option<u64>
    ensures { MatchOption result ((c : ℕ) → c < 2 ^ 64 → cost + c ≢ key) (λ c. cost + c ≡ key) }
{
    let rest = key.checked_sub(cost as u128)?;
    u64::try_from(rest).ok()
}

/// The bound below which the search ahead has each state.
pub fn bound_ahead<T: Copy>(ahead: &LeastCosts<T>) -> u128
    ensures { result ≡ bound_of ahead.now }
{
    match ahead.next_cost() {
        Some(cost) => cost as u128,
        None => 1 << 64,
    }
}

/// The cost of the layer that lies between the two, if that has a state of the set.
fn ring_between<S: Space>(
    space: &mut S,
    layers: &Layers<S::Set>,
    cost: u64,
    key: u128,
    set: S::Set,
) -> Result<Option<u64>, SpaceFault>
    requires held { Held (S.view space.old) layers.now }
    requires set { Valid (S.view space.old) set }
    ensures stays { Stays (S.view space.old) (S.view space.new) }
    ensures ok { IfOk result (λ o. IfSome o (λ c. (cost + c ≤ key)
        × IsLayerMeeting (S.view space.old) layers.now set c)) }
    ensures none { IfOk result (λ o. (o ≡ None) → (c : ℕ) → c < 2 ^ 64 → cost + c ≡ key
        → ¬ IsLayerMeeting (S.view space.old) layers.now set c) }
{
    let Some(ring) = rest_of(key, cost) else {
        return Ok(None);
    };
    let Some(whole) = layers.layer(ring) else {
        return Ok(None);
    };
    if meets(space, whole, set)? {
        Ok(Some(ring))
    } else {
        Ok(None)
    }
}

/// What the rings tell of a set whose states cost so much to the goal, and which waits under this key, by the first ring that
/// has one of them.
fn tell_by_rings<S: Space>(
    space: &mut S,
    ahead: &LeastCosts<S::Set>,
    rings: &Rings<S::Set>,
    cost: u64,
    key: u128,
    set: S::Set,
) -> Result<Told, SpaceFault>
    requires ahead { IsAhead (S.view space.old) ahead.now }
    requires rings { AreAllRings (S.view space.old) ahead.now rings.now }
    requires set { Valid (S.view space.old) set }
    requires key { IsKeyOf (S.view space.old).system (Has (S.view space.old) set) cost key }
    requires low { key < cost + bound_of ahead.now }
    ensures stays { Stays (S.view space.old) (S.view space.new) }
    ensures ok { IfOk result (RingsTell (S.view space.old) ahead.now set cost key) }
{
    let cost = cost as u128;
    match rings.first(space, set)? {
        Some(ring) if cost + ring as u128 <= key => Ok(Told::Ring(ring)),
        Some(ring) => Ok(Told::Later(cost + ring as u128)),
        None => {
            let bound = bound_ahead(ahead);
            Ok(Told::Later(cost + bound))
        }
    }
}

/// What the rings tell of a set whose states cost so much to the goal, and which waits under this key. Mostly the ring that
/// lies between the two has one of them, or it is the last ring that there may be, and no other is looked at.
fn tell<S: Space>(
    space: &mut S,
    ahead: &LeastCosts<S::Set>,
    rings: &Rings<S::Set>,
    cost: u64,
    key: u128,
    set: S::Set,
) -> Result<Told, SpaceFault>
    requires ahead { IsAhead (S.view space.old) ahead.now }
    requires rings { AreAllRings (S.view space.old) ahead.now rings.now }
    requires set { Valid (S.view space.old) set }
    requires key { IsKeyOf (S.view space.old).system (Has (S.view space.old) set) cost key }
    ensures stays { Stays (S.view space.old) (S.view space.new) }
    ensures ok { IfOk result (RingsTell (S.view space.old) ahead.now set cost key) }
{
    let bound = bound_ahead(ahead);
    if cost as u128 + bound <= key {
        return Ok(Told::Whole);
    }
    match ring_between(space, ahead.layers(), cost, key, set)? {
        Some(ring) => Ok(Told::Ring(ring)),
        None if cost as u128 + bound == key + 1 => Ok(Told::Later(cost as u128 + bound)),
        None => tell_by_rings(space, ahead, rings, cost, key, set),
    }
}

/// The states of the set in the layer of this cost, which has some.
fn in_layer<S: Space>(
    space: &mut S,
    layers: &Layers<S::Set>,
    cost: u64,
    set: S::Set,
) -> Result<S::Set, SpaceFault>
    requires held { Held (S.view space.old) layers.now }
    requires set { Valid (S.view space.old) set }
    requires meets { IsLayerMeeting (S.view space.old) layers.now set cost }
    ensures kept { Kept (S.view space.old) (S.view space.new) }
    ensures ok { IfOk result (Gives (S.view space.old) (S.view space.new) (λ s. Has (S.view space.old) set s
        × InLayer (Stands (S.view space.old) layers.now) cost s)) }
    ensures err { OnErr result (NoMore (S.view space.old) (S.view space.new)) }
{
    match layers.layer(cost) {
        Some(whole) => space.meet(set, whole),
        None => unreachable!(),
    }
}

/// What comes of a set that waits, whose states that are left have no rank: by what the search ahead tells of these.
///
/// What it makes besides is given back, and all of it when out of memory.
pub fn divide<S: Space>(
    space: &mut S,
    ahead: &LeastCosts<S::Set>,
    rings: &Rings<S::Set>,
    waiting: Waiting<S::Set>,
    left: S::Set,
) -> Result<Part<S::Set>, SpaceFault>
    requires ahead { IsAhead (S.view space.old) ahead.now }
    requires rings { AreAllRings (S.view space.old) ahead.now rings.now }
    requires set { Valid (S.view space.old) waiting.set }
    requires left { Valid (S.view space.old) left }
    requires key { IsKeyOf (S.view space.old).system (Meets (S.view space.old) waiting.set left) waiting.cost
        waiting.key }
    ensures ok { IfOk result (Divides (S.view space.old) (S.view space.new) ahead.now waiting left) }
    ensures err { OnErr result (Stays (S.view space.old) (S.view space.new)) }
{
    let fresh = space.meet(waiting.set, left)?;
    if space.is_empty(fresh) {
        space.forget(fresh);
        return Ok(Part::Spent);
    }
    match tell(space, ahead, rings, waiting.cost, waiting.key, fresh) {
        Ok(Told::Whole) => Ok(Part::Next {
            set: fresh,
            all: true,
        }),
        Ok(Told::Ring(cost)) => {
            let task = space.task();
            // A task fits, and so the states of a ring, which runs reach, are the system's.
            let _ = task.parts();
            let near = in_layer(space, ahead.layers(), cost, fresh);
            space.forget(fresh);
            Ok(Part::Next {
                set: near?,
                all: false,
            })
        }
        Ok(Told::Later(key)) => {
            space.forget(fresh);
            Ok(Part::Later(key))
        }
        Err(fault) => {
            space.forget(fresh);
            Err(fault)
        }
    }
}
