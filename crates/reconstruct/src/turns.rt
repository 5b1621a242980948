//! One turn of the queue.

use crate::entries::{Entry, Prefix, Suffix, give_back, give_back_entries, into_operators};

/// What follows an entry, and whether its operators are a plan.
#[derive(Drop)]
pub(crate) struct Next<T> {
    pub(crate) entries: Vec<Entry<T>>,
    pub(crate) done: bool,
}

ghost use Rattle.std.specs.Prelude.{◌≡◌, ◌+◌, ◌<◌, ◌≤◌, ◌↔◌, ◌⊎◌, ◌++◌, ◌∷◌, [], ℕ, List, IsTrue, IsFalse, IfOk, OnOk, OnErr, MatchOption, None, Some, length};
ghost use Rattle.std.specs.List.{AllByRecursion};
ghost use Rattle.task_system.specs.System.{State, RunsInSystem};
ghost use Rattle.space_api.specs.View.{View, Valid, Has};
ghost use Rattle.space_api.specs.Frames.{Stays};
ghost use Rattle.space_api.specs.Owned.{Trades};
ghost use Rattle.cost_layers.specs.Layers.{Held};
ghost use Rattle.reconstruct.specs.Entries.{IsSingle, EntryOk, MakesEntries, SetIn, AreDistinct};
ghost use Rattle.reconstruct.specs.Expansions.{AreRightExpansions, TellEnds};
ghost use Rattle.reconstruct.specs.Grown.{Expands};
ghost use Rattle.reconstruct.specs.Turned.{EndsSingle, IsDone, IsWholePrefix, Begun, BeginsToo, begun_entries, MakesFollowers, IsQueue, TurnsEntries, Replaces};

use crate::expand::expand;
use crate::expansions::Expansions;
use crate::queue::Queue;
use crate::states::reached;
use crate::ways::first_ring;
use cost_layers::Layers;
use lazy_plans::Steps;
use space_api::{Space, SpaceFault, goal_at};
use std::alloc::{AllocError, Global};
use std::sync::ledger::Ledger;

/// Nothing is left to place, and the state is a goal: as is remembered, or by the state's values.
fn ends<S: Space>(
    alloc: Global,
    space: &S,
    suffix: &Suffix,
    memo: &Expansions,
) -> Result<bool, SpaceFault>
    requires entry { EntryOk (S.view space.now) (Entry.After suffix.now) }
    requires memo { TellEnds (S.view space.now) memo.now }
    ensures { IfOk result (λ b. IsTrue b ↔ IsDone (S.view space.now) (Entry.After suffix.now)) }
{
    if suffix.cost != 0 {
        return Ok(false);
    }
    match memo.ends_of(suffix.cost, &suffix.state) {
        Some(ends) => Ok(ends),
        None => goal_at(alloc, space, &suffix.state),
    }
}

/// Whether the operators of the entry are a plan.
fn is_done<S: Space>(
    alloc: Global,
    space: &S,
    entry: &Entry<S::Set>,
    memo: &Expansions,
) -> Result<bool, SpaceFault>
    requires entry { EntryOk (S.view space.now) entry.now }
    requires memo { TellEnds (S.view space.now) memo.now }
    ensures { IfOk result (λ b. IsTrue b ↔ IsDone (S.view space.now) entry.now) }
{
    match entry {
        Entry::Before(_) | Entry::Partial(_) => Ok(false),
        Entry::After(suffix) => ends(alloc, space, suffix, memo),
    }
}

/// Nothing is left before the prefix, and it may begin in the initial state.
fn starts<S: Space>(space: &S, prefix: &Prefix<S::Set>) -> bool
    requires { EntryOk (S.view space.now) (Entry.Before prefix.now) }
    ensures { IsTrue result ↔ IsWholePrefix (S.view space.now) prefix.now }
{
    prefix.cost == 0 && space.has_init(prefix.set)
}

/// The suffix that begins where the prefix is whole.
fn begin<S: Space>(
    alloc: Global,
    space: &S,
    back: &Layers<S::Set>,
    prefix: &Prefix<S::Set>,
) -> Result<Suffix, SpaceFault>
    requires back { Held (S.view space.now) back.now }
    requires prefix { EntryOk (S.view space.now) (Entry.Before prefix.now) }
    requires starts { IsWholePrefix (S.view space.now) prefix.now }
    ensures { IfOk result (Begun (S.view space.now) back.now prefix.now) }
{
    let state = reached(alloc, space, &prefix.operators)?;
    let ring = first_ring(space, back, prefix.after, &state);
    let operators = Vec::from_slice(alloc, &prefix.operators)?;
    Ok(Suffix {
        state,
        cost: prefix.after,
        ring,
        operators,
    })
}

/// The suffix that begins, where the entry is a prefix that is whole.
fn begin_if_whole<S: Space>(
    alloc: Global,
    space: &S,
    back: &Layers<S::Set>,
    entry: &Entry<S::Set>,
) -> Result<Option<Suffix>, SpaceFault>
    requires back { Held (S.view space.now) back.now }
    requires entry { EntryOk (S.view space.now) entry.now }
    ensures { IfOk result (BeginsToo (S.view space.now) back.now entry.now) }
{
    match entry {
        Entry::After(_) | Entry::Partial(_) => Ok(None),
        Entry::Before(prefix) => {
            if starts(space, prefix) {
                Ok(Some(begin(alloc, space, back, prefix)?))
            } else {
                Ok(None)
            }
        }
    }
}

/// The entries, and last the suffix that begins; or all are given back.
fn with_begun<S: Space>(
    space: &mut S,
    entries: Vec<Entry<S::Set>>,
    begun: Option<Suffix>,
) -> Result<Vec<Entry<S::Set>>, SpaceFault>
    requires made { (u : View S.Set) × MakesEntries u (S.view space.old) entries.items }
    ensures ok { IfOk result (λ es. es.items ≡ entries.items ++ begun_entries begun) }
    ensures stays { IfOk result (λ es. S.view space.new ≡ S.view space.old) }
    ensures back { OnErr result ((u : View S.Set) → MakesEntries u (S.view space.old) entries.items
        → Stays u (S.view space.new)) }
{
    let mut entries = entries;
    match begun {
        None => Ok(entries),
        Some(suffix) => match entries.push(Entry::After(suffix)) {
            Ok(()) => Ok(entries),
            Err(_) => {
                give_back_entries(space, &entries);
                Err(AllocError)
            }
        },
    }
}

/// What follows an entry: its children, the falling ones last, and last of all the suffix that begins. A refusal
/// gives back what was made.
fn follow<S: Space>(
    alloc: Global,
    space: &mut S,
    front: &Layers<S::Set>,
    back: &Layers<S::Set>,
    entry: &Entry<S::Set>,
    memo: &mut Expansions,
) -> Result<Next<S::Set>, SpaceFault>
    requires front { Held (S.view space.old) front.now }
    requires back { Held (S.view space.old) back.now }
    requires entry { EntryOk (S.view space.old) entry.now }
    requires single { IsSingle entry.now }
    requires memo { AreRightExpansions (S.view space.old) back.now memo.old }
    ensures memo { AreRightExpansions (S.view space.old) back.now memo.new }
    ensures ok { IfOk result (λ next. MakesFollowers (S.view space.old) (S.view space.new) front.now back.now
        entry.now next.entries.items next.done) }
    ensures err { OnErr result (Stays (S.view space.old) (S.view space.new)) }
{
    let done = is_done(alloc, space, entry, memo)?;
    let begun = begin_if_whole(alloc, space, back, entry)?;
    let made = expand(alloc, space, front, back, entry, memo)?;
    let entries = with_begun(space, made, begun)?;
    Ok(Next { entries, done })
}

/// The operators, where they are a plan.
fn plan_of(done: bool, operators: Vec<u32>) -> Option<Vec<u32>>
    ensures { MatchOption result (IsFalse done) (λ p. IsTrue done × (p.items ≡ operators.items)) }
{
    if done { Some(operators) } else { None }
}

/// Takes the last entry, puts what follows in its place, and gives its set back. Out of memory, it takes nothing, and
/// gives back what was made.
fn replace_last<S: Space, L: Ledger>(
    space: &mut S,
    queue: &mut Queue<S::Set>,
    next: Next<S::Set>,
    steps: &mut Steps<L>,
) -> Result<Option<Vec<u32>>, SpaceFault>
    requires made { (u : View S.Set) × MakesEntries u (S.view space.old) next.entries.items × IsQueue u queue.old }
    requires some { 0 < length queue.old }
    ensures ok { IfOk result (λ o. MatchOption o (Replaces (S.view space.old) (S.view space.new)
        queue.old queue.new next.entries.items next.done None) (λ p. Replaces (S.view space.old)
        (S.view space.new) queue.old queue.new next.entries.items next.done (Some p.items))) }
    ensures back { OnErr result ((u : View S.Set) → MakesEntries u (S.view space.old) next.entries.items
        → Stays u (S.view space.new)) }
    ensures err { OnErr result (queue.new ≡ queue.old) }
    ensures counted { OnOk result (steps.new ≡ steps.old + 1) }
    ensures uncounted { OnErr result (steps.new ≡ steps.old) }
{
    let Next { mut entries, done } = next;
    match queue.take(&mut entries, steps) {
        Ok(entry) => {
            give_back(space, &entry);
            let operators = into_operators(entry);
            Ok(plan_of(done, operators))
        }
        Err(fault) => {
            give_back_entries(space, &entries);
            Err(fault)
        }
    }
}

/// One turn: takes the last entry, which stands for itself alone, and puts what follows it in its place. Gives its
/// operators where they are a plan.
///
/// The set of the entry is given back, and `steps` has one more. Out of memory, it leaves the queue, all sets and the
/// count as they were.
pub(crate) fn turn<S: Space, L: Ledger>(
    alloc: Global,
    space: &mut S,
    front: &Layers<S::Set>,
    back: &Layers<S::Set>,
    queue: &mut Queue<S::Set>,
    memo: &mut Expansions,
    steps: &mut Steps<L>,
) -> Result<Option<Vec<u32>>, SpaceFault>
    requires front { Held (S.view space.old) front.now }
    requires back { Held (S.view space.old) back.now }
    requires queue { IsQueue (S.view space.old) queue.old }
    requires some { 0 < length queue.old }
    requires single { EndsSingle queue.old }
    requires memo { AreRightExpansions (S.view space.old) back.now memo.old }
    ensures queue { IsQueue (S.view space.new) queue.new }
    ensures trades { Trades (S.view space.old) (S.view space.new) (SetIn queue.old) (SetIn queue.new) }
    ensures ok { IfOk result (λ o. MatchOption o (TurnsEntries (S.view space.old) (S.view space.new) front.now
        back.now queue.old queue.new None) (λ p. TurnsEntries (S.view space.old) (S.view space.new)
        front.now back.now queue.old queue.new (Some p.items))) }
    ensures stays { OnErr result (Stays (S.view space.old) (S.view space.new)) }
    ensures err { OnErr result (queue.new ≡ queue.old) }
    ensures memo { AreRightExpansions (S.view space.old) back.now memo.new }
    ensures counted { OnOk result (steps.new ≡ steps.old + 1) }
    ensures uncounted { OnErr result (steps.new ≡ steps.old) }
{
    let next = follow(alloc, space, front, back, queue.last(), memo)?;
    replace_last(space, queue, next, steps)
}
