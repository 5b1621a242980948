//! Whether two spaces answer alike.

ghost use Rattle.std.specs.Prelude.{◌≡◌, ◌↔◌, IsTrue, IfOk};
ghost use Rattle.space_api.specs.View.{View, Valid};
ghost use Rattle.space_api.specs.Frames.{Stays};
ghost use Rattle.space_tests.specs.Answers.{HaveSameOperators, HaveSameCosts, IsSameAlone, IsSameBeside, AnswerAlike};
ghost use Rattle.space_tests.specs.Pairs.{AreKept};

use crate::pairs::Pair;
use space_api::{Space, SpaceFault};

/// Whether both spaces have the same operators, each at the same cost.
pub fn same_operators<A: Space, B: Space>(a: &A, b: &B) -> bool
    ensures { IsTrue result ↔ HaveSameOperators (A.view a.now).system (B.view b.now).system }
{
    let count = a.operators();
    if count != b.operators() {
        return false;
    }
    'operators: for op in 0..count {
        if a.cost_of(op) != b.cost_of(op) {
            return false;
        }
    }
    true
}

/// Whether both spaces list the same costs.
pub fn same_costs<A: Space, B: Space>(a: &A, b: &B) -> bool
    ensures { IsTrue result ↔ HaveSameCosts (A.view a.now).system (B.view b.now).system }
{
    let count = a.costs();
    if count != b.costs() {
        return false;
    }
    'costs: for i in 0..count {
        if a.cost_at(i) != b.cost_at(i) {
            return false;
        }
    }
    true
}

/// Whether the pair's sets are empty both or neither, and have the initial state both or neither.
fn same_alone<A: Space, B: Space>(a: &A, b: &B, pair: Pair<A::Set, B::Set>) -> bool
    requires left { Valid (A.view a.now) pair.left }
    requires right { Valid (B.view b.now) pair.right }
    ensures { IsTrue result ↔ IsSameAlone (A.view a.now) (B.view b.now) pair }
{
    a.is_empty(pair.left) == b.is_empty(pair.right)
        && a.has_init(pair.left) == b.has_init(pair.right)
}

/// Whether the pair's sets are equal to those of the other pair both or neither.
fn same_beside<A: Space, B: Space>(
    a: &A,
    b: &B,
    pair: Pair<A::Set, B::Set>,
    other: Pair<A::Set, B::Set>,
) -> bool
    requires left { Valid (A.view a.now) pair.left }
    requires right { Valid (B.view b.now) pair.right }
    requires other_left { Valid (A.view a.now) other.left }
    requires other_right { Valid (B.view b.now) other.right }
    ensures { IsTrue result ↔ IsSameBeside (A.view a.now) (B.view b.now) pair other }
{
    a.same(pair.left, other.left) == b.same(pair.right, other.right)
}

/// Whether both spaces answer alike about the pair: whether it is empty, whether it has the initial state, and
/// to which of the pairs kept it is equal.
pub fn alike<A: Space, B: Space>(
    a: &A,
    b: &B,
    pairs: &[Pair<A::Set, B::Set>],
    pair: Pair<A::Set, B::Set>,
) -> bool
    requires left { Valid (A.view a.now) pair.left }
    requires right { Valid (B.view b.now) pair.right }
    requires kept { AreKept (A.view a.now) (B.view b.now) pairs.now }
    ensures { IsTrue result ↔ AnswerAlike (A.view a.now) (B.view b.now) pairs.now pair }
{
    if !same_alone(a, b, pair) {
        return false;
    }
    'pairs: for i in 0..pairs.len() {
        if !same_beside(a, b, pair, pairs[i]) {
            return false;
        }
    }
    true
}

/// Collects where the space is full, and says whether it is not full then.
pub fn tidied<S: Space>(space: &mut S) -> Result<bool, SpaceFault>
    ensures stays { Stays (S.view space.old) (S.view space.new) }
    ensures few { IfOk result IsTrue }
{
    space.tidy()?;
    Ok(space.held() as u128 <= 2 * space.last() as u128 + 1000)
}
