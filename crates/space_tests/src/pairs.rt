//! Pairs of sets that the same calls gave, one in each space.

/// A set of each of two spaces.
#[derive(Clone, Copy)]
pub struct Pair<S, T> {
    pub left: S,
    pub right: T,
}

ghost use Rattle.std.specs.Prelude.{◌≡◌, ◌<◌, ◌^◌, ℕ, List, [], ◌∷◌, ◌++◌, IfOk, OnOk, OnErr, length, slice_index_or, Contains};
ghost use Rattle.std.specs.List.{remove};
ghost use Rattle.task_system.specs.System.{State, Listed};
ghost use Rattle.space_api.specs.View.{View, Valid};
ghost use Rattle.space_api.specs.Frames.{Forgot, Stays};
ghost use Rattle.space_api.specs.Owned.{Amid, Trades};
ghost use Rattle.space_tests.specs.Calls.{Means, IsAmongOperators};
ghost use Rattle.space_tests.specs.Pairs.{lefts, rights, AreKept, MakesPair, MovesPairs};

use crate::asking::{Call, make};
use space_api::{Space, SpaceFault};
use task_draws::Random;

/// Makes the call on both spaces, each with its own sets of the pairs.
pub fn made<A: Space, B: Space>(
    a: &mut A,
    b: &mut B,
    call: Call,
    first: Pair<A::Set, B::Set>,
    second: Pair<A::Set, B::Set>,
) -> Result<Pair<A::Set, B::Set>, SpaceFault>
    requires first_left { Valid (A.view a.old) first.left }
    requires first_right { Valid (B.view b.old) first.right }
    requires second_left { Valid (A.view a.old) second.left }
    requires second_right { Valid (B.view b.old) second.right }
    requires operator_left { IsAmongOperators (A.view a.old).system.operators call }
    requires operator_right { IsAmongOperators (B.view b.old).system.operators call }
    ensures ok { IfOk result (MakesPair (A.view a.old) (A.view a.new) (B.view b.old) (B.view b.new)
        (Means (A.view a.old) call first.left second.left) (Means (B.view b.old) call first.right second.right)) }
    ensures err_left { OnErr result (Stays (A.view a.old) (A.view a.new)) }
    ensures err_right { OnErr result (Stays (B.view b.old) (B.view b.new)) }
{
    let left = make(a, call, first.left, second.left)?;
    match make(b, call, first.right, second.right) {
        Ok(right) => Ok(Pair { left, right }),
        Err(fault) => {
            a.forget(left);
            Err(fault)
        }
    }
}

/// All states, in both spaces.
pub fn whole<A: Space, B: Space>(a: &mut A, b: &mut B) -> Result<Pair<A::Set, B::Set>, SpaceFault>
    ensures ok { IfOk result (MakesPair (A.view a.old) (A.view a.new) (B.view b.old) (B.view b.new)
        (Listed (A.view a.old).system.states) (Listed (B.view b.old).system.states)) }
    ensures err_left { OnErr result (Stays (A.view a.old) (A.view a.new)) }
    ensures err_right { OnErr result (Stays (B.view b.old) (B.view b.new)) }
{
    let left = a.all()?;
    match b.all() {
        Ok(right) => Ok(Pair { left, right }),
        Err(fault) => {
            a.forget(left);
            Err(fault)
        }
    }
}

/// Gives both sets back.
pub fn forget_pair<A: Space, B: Space>(a: &mut A, b: &mut B, pair: Pair<A::Set, B::Set>)
    requires left { Valid (A.view a.old) pair.left }
    requires right { Valid (B.view b.old) pair.right }
    ensures left { Forgot (A.view a.old) (A.view a.new) pair.left }
    ensures right { Forgot (B.view b.old) (B.view b.new) pair.right }
{
    a.forget(pair.left);
    b.forget(pair.right);
}

/// Puts a pair at the end of those that are kept. When out of memory, both its sets are given back.
pub fn keep<A: Space, B: Space>(
    a: &mut A,
    b: &mut B,
    pairs: &mut Vec<Pair<A::Set, B::Set>>,
    pair: Pair<A::Set, B::Set>,
) -> Result<(), SpaceFault>
    requires left { Valid (A.view a.old) pair.left }
    requires right { Valid (B.view b.old) pair.right }
    ensures ok { OnOk result (pairs.new.items ≡ pairs.old.items ++ pair ∷ []) }
    ensures ok_left { OnOk result (A.view a.new ≡ A.view a.old) }
    ensures ok_right { OnOk result (B.view b.new ≡ B.view b.old) }
    ensures err { OnErr result (pairs.new.items ≡ pairs.old.items) }
    ensures err_left { OnErr result (Forgot (A.view a.old) (A.view a.new) pair.left) }
    ensures err_right { OnErr result (Forgot (B.view b.old) (B.view b.new) pair.right) }
{
    match pairs.push(pair) {
        Ok(()) => Ok(()),
        Err(failed) => {
            forget_pair(a, b, pair);
            Err(failed.into())
        }
    }
}

/// Gives the sets of the pair at this place back.
pub fn take_out<A: Space, B: Space>(
    a: &mut A,
    b: &mut B,
    pairs: &mut Vec<Pair<A::Set, B::Set>>,
    at: usize,
)
    requires at { at < length pairs.old.items }
    requires kept { AreKept (A.view a.old) (B.view b.old) pairs.old.items }
    ensures pairs { pairs.new.items ≡ remove pairs.old.items at }
    ensures moves { MovesPairs (A.view a.old) (A.view a.new) (B.view b.old)
        (B.view b.new) pairs.old.items pairs.new.items }
{
    let pair = pairs.remove(at);
    forget_pair(a, b, pair);
}

/// Gives the sets of all pairs back.
pub fn give_back<A: Space, B: Space>(a: &mut A, b: &mut B, mut pairs: Vec<Pair<A::Set, B::Set>>)
    requires { AreKept (A.view a.old) (B.view b.old) pairs.items }
    ensures left { Trades (A.view a.old) (A.view a.new) (Amid (lefts pairs.items)) (λ x. ⊥) }
    ensures right { Trades (B.view b.old) (B.view b.new) (Amid (rights pairs.items)) (λ x. ⊥) }
{
    'pairs: while let Some(pair) = pairs.pop() {
        forget_pair(a, b, pair);
    }
}

/// A pair of those that are kept, drawn.
pub fn drawn_pair<S: Copy, T: Copy>(random: &mut Random, pairs: &[Pair<S, T>]) -> Pair<S, T>
    requires some { 0 < length pairs.now }
    requires few { length pairs.now < 2 ^ 32 }
    ensures { Contains pairs.now result }
{
    pairs[random.below(pairs.len() as u32) as usize]
}
