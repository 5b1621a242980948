//! The same calls on two spaces.

ghost use Rattle.std.specs.Prelude.{◌≡◌, ◌+◌, ◌<◌, ◌≤◌, min, [], IsTrue, IfOk, OnErr, length, Contains};
ghost use Rattle.task_system.specs.System.{System, Listed};
ghost use Rattle.space_api.specs.View.{View, Valid};
ghost use Rattle.space_api.specs.Frames.{Stays};
ghost use Rattle.space_tests.specs.Calls.{Means, IsAmongOperators};
ghost use Rattle.space_tests.specs.Pairs.{AreKept, AgreeInPairs, MakesPair, MovesPairs};
ghost use Rattle.space_tests.specs.Answers.{HaveSameOperators, HaveSameCosts, Compares};
ghost use Rattle.space_tests.specs.Rounds.{IsAgreeingRound, AgreeFor};

use crate::asking::{Call, drawn_call};
use crate::comparing::{alike, same_costs, same_operators, tidied};
use crate::pairs::{Pair, drawn_pair, give_back, keep, made, take_out, whole};
use space_api::{Space, SpaceFault};
use std::alloc::Global;
use task_draws::Random;

/// At most so many pairs are kept from round to round.
const MOST: usize = 16;

/// Makes the call on both spaces, compares what they answer about the new pair, and keeps it.
fn step<A: Space, B: Space>(
    a: &mut A,
    b: &mut B,
    pairs: &mut Vec<Pair<A::Set, B::Set>>,
    call: Call,
    first: Pair<A::Set, B::Set>,
    second: Pair<A::Set, B::Set>,
) -> Result<bool, SpaceFault>
    requires kept { AreKept (A.view a.old) (B.view b.old) pairs.old.items }
    requires first { Contains pairs.old.items first }
    requires second { Contains pairs.old.items second }
    requires operator_left { IsAmongOperators (A.view a.old).system.operators call }
    requires operator_right { IsAmongOperators (B.view b.old).system.operators call }
    ensures ok { IfOk result (Compares (A.view a.old) (A.view a.new) (B.view b.old) (B.view b.new)
        (Means (A.view a.old) call first.left second.left) (Means (B.view b.old) call first.right
        second.right) pairs.old.items pairs.new.items) }
    ensures err { OnErr result (pairs.new.items ≡ pairs.old.items) }
    ensures err_left { OnErr result (Stays (A.view a.old) (A.view a.new)) }
    ensures err_right { OnErr result (Stays (B.view b.old) (B.view b.new)) }
{
    let pair = made(a, b, call, first, second)?;
    let yes = alike(a, b, pairs, pair);
    keep(a, b, pairs, pair)?;
    Ok(yes)
}

/// Makes the pair of all states, compares what both spaces answer about it, and keeps it.
fn start<A: Space, B: Space>(
    a: &mut A,
    b: &mut B,
    pairs: &mut Vec<Pair<A::Set, B::Set>>,
) -> Result<bool, SpaceFault>
    requires kept { AreKept (A.view a.old) (B.view b.old) pairs.old.items }
    ensures ok { IfOk result (Compares (A.view a.old) (A.view a.new) (B.view b.old) (B.view b.new)
        (Listed (A.view a.old).system.states) (Listed (B.view b.old).system.states) pairs.old.items pairs.new.items) }
    ensures err { OnErr result (pairs.new.items ≡ pairs.old.items) }
    ensures err_left { OnErr result (Stays (A.view a.old) (A.view a.new)) }
    ensures err_right { OnErr result (Stays (B.view b.old) (B.view b.new)) }
{
    let pair = whole(a, b)?;
    let yes = alike(a, b, pairs, pair);
    keep(a, b, pairs, pair)?;
    Ok(yes)
}

/// Where more pairs are kept than may be, gives one of them back, which is drawn.
fn thin<A: Space, B: Space>(
    a: &mut A,
    b: &mut B,
    pairs: &mut Vec<Pair<A::Set, B::Set>>,
    random: &mut Random,
)
    requires kept { AreKept (A.view a.old) (B.view b.old) pairs.old.items }
    requires one { length pairs.old.items ≤ MOST + 1 }
    ensures moves { MovesPairs (A.view a.old) (A.view a.new) (B.view b.old)
        (B.view b.new) pairs.old.items pairs.new.items }
    ensures count { length pairs.new.items ≡ min (length pairs.old.items) MOST }
{
    if pairs.len() > MOST {
        let at = random.below(pairs.len() as u32) as usize;
        take_out(a, b, pairs, at);
    }
}

/// Now and then lets both spaces collect, and says whether neither is full then.
fn sometimes_tidied<A: Space, B: Space>(
    a: &mut A,
    b: &mut B,
    random: &mut Random,
) -> Result<bool, SpaceFault>
    ensures left { Stays (A.view a.old) (A.view a.new) }
    ensures right { Stays (B.view b.old) (B.view b.new) }
    ensures few { IfOk result IsTrue }
{
    if !random.one_in(4) {
        return Ok(true);
    }
    let left = tidied(a)?;
    let right = tidied(b)?;
    Ok(left && right)
}

/// One call on both spaces, with sets that are drawn from those kept, and whether they answered alike.
fn round<A: Space, B: Space>(
    a: &mut A,
    b: &mut B,
    pairs: &mut Vec<Pair<A::Set, B::Set>>,
    random: &mut Random,
) -> Result<bool, SpaceFault>
    requires operators { (A.view a.old).system.operators ≡ (B.view b.old).system.operators }
    requires kept { AreKept (A.view a.old) (B.view b.old) pairs.old.items }
    requires some { 0 < length pairs.old.items }
    requires few { length pairs.old.items ≤ MOST }
    ensures moves { MovesPairs (A.view a.old) (A.view a.new) (B.view b.old)
        (B.view b.new) pairs.old.items pairs.new.items }
    ensures some { 0 < length pairs.new.items }
    ensures few { length pairs.new.items ≤ MOST }
    ensures alike { AgreeInPairs (A.view a.old) (B.view b.old) pairs.old.items → IfOk result IsTrue }
    ensures round { IfOk result (λ told. IsTrue told → IsAgreeingRound (A.view a.old) (A.view a.new) (B.view b.old)
        (B.view b.new) pairs.old.items pairs.new.items) }
{
    let call = drawn_call(random, a.operators());
    let first = drawn_pair(random, pairs);
    let second = drawn_pair(random, pairs);
    let yes = step(a, b, pairs, call, first, second)?;
    thin(a, b, pairs, random);
    let few = sometimes_tidied(a, b, random)?;
    Ok(yes && few)
}

/// The rounds, one after the other, from the pair of all states on.
fn rounds<A: Space, B: Space>(
    a: &mut A,
    b: &mut B,
    pairs: &mut Vec<Pair<A::Set, B::Set>>,
    seed: u64,
    count: u32,
) -> Result<bool, SpaceFault>
    requires operators { (A.view a.old).system.operators ≡ (B.view b.old).system.operators }
    requires none { pairs.old.items ≡ [] }
    ensures moves { MovesPairs (A.view a.old) (A.view a.new) (B.view b.old) (B.view b.new) [] pairs.new.items }
    ensures alike { (A.view a.old).system ≡ (B.view b.old).system → IfOk result IsTrue }
    ensures rounds { IfOk result (λ told. IsTrue told → AgreeFor count (A.view a.old) (B.view b.old)) }
{
    let mut random = Random::of(seed);
    if !start(a, b, pairs)? {
        return Ok(false);
    }
    'rounds: for _ in 0..count {
        if !round(a, b, pairs, &mut random)? {
            return Ok(false);
        }
    }
    Ok(true)
}

/// Whether two spaces answer alike: which operators there are and what they cost, and then, over so many calls
/// that the seed draws, whether each new set is empty, has the initial state, and equals a set that is kept.
/// Each call is made on both spaces, with sets that the same calls gave. Sets are given back as it goes, and
/// all of them in the end; now and then both spaces may collect.
pub(crate) fn agree<A: Space, B: Space>(
    alloc: Global,
    a: &mut A,
    b: &mut B,
    seed: u64,
    count: u32,
) -> Result<bool, SpaceFault>
    ensures left { Stays (A.view a.old) (A.view a.new) }
    ensures right { Stays (B.view b.old) (B.view b.new) }
    ensures alike { (A.view a.old).system ≡ (B.view b.old).system → IfOk result IsTrue }
    ensures operators { IfOk result (λ told. IsTrue told → HaveSameOperators (A.view a.old).system
        (B.view b.old).system) }
    ensures costs { IfOk result (λ told. IsTrue told → HaveSameCosts (A.view a.old).system (B.view b.old).system) }
    ensures rounds { IfOk result (λ told. IsTrue told → AgreeFor count (A.view a.old) (B.view b.old)) }
{
    if !same_operators(a, b) || !same_costs(a, b) {
        return Ok(false);
    }
    let mut pairs = Vec::new(alloc);
    let outcome = rounds(a, b, &mut pairs, seed, count);
    give_back(a, b, pairs);
    outcome
}
