//! Unions of ever more sets in a row, and the first that has a state of another set, by few tests.

/// The union of the rings up to this cost.
#[derive(Clone, Copy)]
pub struct Union<T: Copy> {
    pub cost: u64,
    pub states: T,
}

/// Where the first may be: at this place or later, and at that one or before.
#[derive(Clone, Copy, Debug)]
struct Span {
    low: usize,
    high: usize,
}

ghost use Rattle.std.specs.Prelude.{◌≡◌, ◌+◌, ◌<◌, ◌≤◌, ℕ, IfOk, MatchBool};
ghost use Rattle.space_api.specs.View.{View, Valid};
ghost use Rattle.space_api.specs.Frames.{Stays};
ghost use Rattle.space_api.specs.Owned.{Trades};
ghost use Rattle.goal_ranks.specs.Giving.{AllOf};
ghost use Rattle.goal_ranks.specs.Unions.{AreUnions, UnionSet, SplitsAt};

use space_api::{Space, SpaceFault, meets};

/// The place to test next of so many: the last one first, which has the states of all, and then the one halfway.
fn place_in(span: Span, all: usize) -> usize
    requires { span.low < span.high }
    ensures low { span.low ≤ result }
    ensures high { result < span.high }
{
    if span.high == all {
        span.high - 1
    } else {
        span.low + (span.high - span.low) / 2
    }
}

/// The half where the first may be, by what the test of this place between them told.
fn half(span: Span, place: usize, met: bool) -> Span
    requires { place < span.high }
    ensures { MatchBool met ((result.low ≡ span.low) × (result.high ≡ place))
        ((result.low ≡ place + 1) × (result.high ≡ span.high)) }
{
    if met {
        Span {
            low: span.low,
            high: place,
        }
    } else {
        Span {
            low: place + 1,
            high: span.high,
        }
    }
}

/// The place of the first union that has a state of the set, or how many there are where none has. It tests the last one,
/// and if that has a state, one more for each time that their number halves.
pub(crate) fn first_union<S: Space>(
    space: &mut S,
    unions: &[Union<S::Set>],
    set: S::Set,
) -> Result<usize, SpaceFault>
    requires unions { AreUnions (S.view space.old) unions.now }
    requires set { Valid (S.view space.old) set }
    ensures stays { Stays (S.view space.old) (S.view space.new) }
    ensures ok { IfOk result (SplitsAt (S.view space.old) unions.now set) }
{
    let mut span = Span {
        low: 0,
        high: unions.len(),
    };
    'halves: while span.low < span.high {
        let place = place_in(span, unions.len());
        let union = unions[place];
        let met = meets(space, union.states, set)?;
        span = half(span, place, met);
    }
    Ok(span.low)
}

/// Gives the unions back.
pub(crate) fn forget_unions<S: Space>(space: &mut S, unions: &[Union<S::Set>])
    requires { AreUnions (S.view space.old) unions.now }
    ensures { Trades (S.view space.old) (S.view space.new) (AllOf (UnionSet unions.now)) (λ a. ⊥) }
{
    'unions: for i in 0..unions.len() {
        let union = unions[i];
        space.forget(union.states);
    }
}
