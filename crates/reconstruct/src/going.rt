//! On to the next cost at which a plan exists, and its first cut.

/// Whether an entry stands in the queue, or why not: no plan that is wanted is left, or each one that is left costs
/// more than 64 bits hold.
#[derive(Clone, Copy, Debug, PartialEq, Eq)]
pub(crate) enum Filled {
    Ready,
    Never,
    Beyond,
}

ghost use Rattle.std.specs.Prelude.{◌≡◌, ◌⊎◌, [], IfOk, OnErr};
ghost use Rattle.space_api.specs.View.{View};
ghost use Rattle.space_api.specs.Owned.{Trades};
ghost use Rattle.reconstruct.specs.Entries.{SetIn};
ghost use Rattle.bidirectional.specs.Both.{IsBoth, IsOwnOf, front_layers, back_layers};
ghost use Rattle.reconstruct.specs.Sides.{AdvancesCost};
ghost use Rattle.reconstruct.specs.Going.{Rests, place_cost, GoesOnFromBoth};

use crate::drawing::{Place, draw};
use crate::queue::Queue;
use bidirectional::{Both, Choose, Next, Within};
use space_api::{Space, SpaceFault};
use std::alloc::Global;
use std::collections::VecDeque;

/// How much of the space's work the search for a cost may take before the backward side is kept to the set for later.
/// A short search ends without it, and a long one loses some hundredths of a second.
const TRIED: u64 = 1 << 15;

/// The cost that is listed.
fn cost_of(listed: &Option<Place>) -> Option<u64>
    ensures { result ≡ place_cost listed.now }
{
    match listed {
        Some(place) => Some(place.cost),
        None => None,
    }
}

/// The next cost at which a plan exists that is wanted, by sides that go on.
fn advance_up_to<S: Space, P: Choose>(
    alloc: Global,
    space: &mut S,
    both: &mut Both<S::Set, P>,
    above: Option<u64>,
    most: Option<u64>,
) -> Result<Next, SpaceFault>
    requires { IsBoth (S.view space.old) both.old }
    ensures both { IsBoth (S.view space.new) both.new }
    ensures trades { Trades (S.view space.old) (S.view space.new) (IsOwnOf both.old) (IsOwnOf both.new) }
    ensures ok { IfOk result (AdvancesCost (S.view space.old).system above most (front_layers both.new)
        (back_layers both.new)) }
{
    match most {
        None => both.advance(alloc, space, above),
        Some(most) => match both.advance_within(alloc, space, above, most)? {
            Within::Plans { cost } => Ok(Next::Plans { cost }),
            Within::Past => Ok(Next::Never),
        },
    }
}

/// The next cost at which a plan exists that is wanted. Where it takes long and a set was kept for that, both sides
/// begin again first.
fn next_cost<S: Space, P: Choose>(
    alloc: Global,
    space: &mut S,
    both: &mut Both<S::Set, P>,
    above: Option<u64>,
    most: Option<u64>,
) -> Result<Next, SpaceFault>
    requires { IsBoth (S.view space.old) both.old }
    ensures both { IsBoth (S.view space.new) both.new }
    ensures trades { Trades (S.view space.old) (S.view space.new) (IsOwnOf both.old) (IsOwnOf both.new) }
    ensures ok { IfOk result (AdvancesCost (S.view space.old).system above most (front_layers both.new)
        (back_layers both.new)) }
{
    let end = most.unwrap_or(u64::MAX);
    both.restart_if_long(alloc, space, above, end, TRIED)?;
    advance_up_to(alloc, space, both, above, most)
}

/// Goes on to the next cost at which a plan exists, and draws its first cut into the queue.
///
/// Out of memory, it leaves the cost that is listed and the empty queue.
pub(crate) fn go_on<S: Space, P: Choose>(
    alloc: Global,
    space: &mut S,
    both: &mut Both<S::Set, P>,
    most: Option<u64>,
    listed: &mut Option<Place>,
    queue: &mut Queue<S::Set>,
) -> Result<Filled, SpaceFault>
    requires both { IsBoth (S.view space.old) both.old }
    requires rests { Rests listed.old }
    requires empty { queue.old ≡ [] }
    ensures both { IsBoth (S.view space.new) both.new }
    ensures trades { Trades (S.view space.old) (S.view space.new) (IsOwnOf both.old) (λ a. IsOwnOf both.new a
        ⊎ SetIn queue.new a) }
    ensures ok { IfOk result (GoesOnFromBoth (S.view space.old) (S.view space.new) both.new most listed.old listed.new
        queue.new) }
    ensures listed { OnErr result (listed.new ≡ listed.old) }
    ensures queue { OnErr result (queue.new ≡ []) }
{
    match next_cost(alloc, space, both, cost_of(listed), most)? {
        Next::Never => Ok(Filled::Never),
        Next::Beyond => Ok(Filled::Beyond),
        Next::Plans { cost } => {
            let mut place = Place {
                cost,
                after: None,
                left: true,
                ready: VecDeque::new(alloc),
            };
            draw(alloc, space, both, &mut place, queue)?;
            *listed = Some(place);
            Ok(Filled::Ready)
        }
    }
}
