//! Calls that are refused memory, one after the other.

ghost use Rattle.std.specs.Prelude.{◌+◌, ◌<◌, ◌≤◌};
ghost use Rattle.space_api.specs.View.{Valid};
ghost use Rattle.space_api.specs.Frames.{Stays};
ghost use Rattle.cost_layers.specs.Layers.{Held};
ghost use Rattle.bidirectional.specs.Both.{IsBoth, BothGoOn, f_of, b_of};

use super::{CHOICES, are_those};
use crate::listing::{all_cuts, cuts_up_to};
use crate::plans::plan_cuts_of;
use bidirectional::{Both, Choice, Choose, Next};
use cost_layers::Layers;
use explicit_space::{ExplicitSpace, FuseSpace};
use small_tasks::switch_and_back;
use space_api::{Space, SpaceFault};
use std::alloc::Global;
use std::test::Fail;
use symk_task::{Memory, Task};

/// What a search came to over a space that passes on so many calls.
#[derive(Clone, Copy, Debug, PartialEq, Eq)]
enum Outcome {
    /// It did not begin.
    NotBegun,
    /// A later call was refused; whether all was as it should be from then on.
    Refused { fine: bool },
    /// No call was refused; whether all was as it should be at the end.
    Whole { fine: bool },
}

/// Settles costs up to 5, lists the cuts of the plans of cost 5, and asks for the next cost; whether there is
/// one cut and the next cost is 7, as of the switch.
fn three_calls<S: Space, P: Choose>(
    alloc: Global,
    space: &mut S,
    both: &mut Both<S::Set, P>,
) -> Result<bool, SpaceFault>
    requires { IsBoth (S.view space.old) both.old }
    ensures { BothGoOn (S.view space.old) (S.view space.new) both.old both.new }
{
    both.settle(alloc, space, 5)?;
    let cuts = all_cuts(alloc, space, both, 5)?;
    let next = both.advance(alloc, space, Some(5))?;
    Ok(cuts.len() == 1 && next == Next::Plans { cost: 7 })
}

/// What both sides are known below, together.
fn known<T: Copy, P: Choose>(both: &Both<T, P>) -> u128
    requires { 1 ≤ f_of both.now }
    ensures some { 1 ≤ result }
    ensures most { result ≤ f_of both.now + b_of both.now }
{
    let f = both.forward_layers().known_below();
    let b = both.backward_layers().known_below();
    f.saturating_add(b)
}

/// Whether the iterator gives a fault and nothing after it.
fn ends_by_a_fault<S: Space, P: Choose>(
    alloc: Global,
    space: &mut S,
    both: &Both<S::Set, P>,
    cost: u64,
) -> bool
    requires both { IsBoth (S.view space.old) both.now }
    requires known { cost < f_of both.now + b_of both.now }
    ensures { Stays (S.view space.old) (S.view space.new) }
{
    let mut fault = false;
    'cuts: for cut in both.cuts(alloc, space, cost) {
        if fault {
            return false;
        }
        fault = cut.is_err();
    }
    fault
}

/// Whether two calls are refused that need a step of a side.
fn is_refused<S: Space, P: Choose>(
    alloc: Global,
    space: &mut S,
    both: &mut Both<S::Set, P>,
    cost: u64,
) -> bool
    requires { IsBoth (S.view space.old) both.old }
    ensures { BothGoOn (S.view space.old) (S.view space.new) both.old both.new }
{
    let settled = both.settle(alloc, space, cost).is_err();
    let advanced = both.advance(alloc, space, Some(cost)).is_err();
    settled && advanced
}

/// Whether each further call that needs the space is refused, twice, and neither bound moves. The cuts of the
/// greatest cost that is known need it: there the last layers of both sides meet.
fn stays_refused<S: Space, P: Choose>(
    alloc: Global,
    space: &mut S,
    both: &mut Both<S::Set, P>,
) -> bool
    requires { IsBoth (S.view space.old) both.old }
    ensures { BothGoOn (S.view space.old) (S.view space.new) both.old both.new }
{
    let before = known(both);
    let Ok(cost) = u64::try_from(before) else {
        return false;
    };
    let once = is_refused(alloc, space, both, cost);
    let again = is_refused(alloc, space, both, cost);
    let cut = ends_by_a_fault(alloc, space, both, cost - 1);
    once && again && cut && known(both) == before
}

/// Whether the set has the initial state alone.
fn is_initial<S: Space>(space: &mut S, set: S::Set) -> Result<bool, SpaceFault>
    requires { Valid (S.view space.old) set }
    ensures { Stays (S.view space.old) (S.view space.new) }
{
    let initial = space.init()?;
    let same = space.same(set, initial);
    space.forget(initial);
    Ok(same)
}

/// Whether the layer of this cost has the initial state alone, or has states without it.
fn is_layer<S: Space>(
    space: &mut S,
    layers: &Layers<S::Set>,
    cost: u64,
    initial: bool,
) -> Result<bool, SpaceFault>
    requires { Held (S.view space.old) layers.now }
    ensures { Stays (S.view space.old) (S.view space.new) }
{
    match layers.layer(cost) {
        Some(set) if initial => is_initial(space, set),
        Some(set) => Ok(!space.has_init(set) && !space.is_empty(set)),
        None => Ok(false),
    }
}

/// Whether each layer below the bound has the initial state alone, or states without it, in turns.
fn alternate<S: Space>(
    space: &mut S,
    layers: &Layers<S::Set>,
    initial: bool,
) -> Result<bool, SpaceFault>
    requires { Held (S.view space.old) layers.now }
    ensures { Stays (S.view space.old) (S.view space.new) }
{
    let mut wanted = initial;
    'costs: for cost in 0..99 {
        if layers.known_below() <= u128::from(cost) {
            return Ok(true);
        }
        if !is_layer(space, layers, cost, wanted)? {
            return Ok(false);
        }
        wanted = !wanted;
    }
    Ok(false)
}

/// Whether the layers below both bounds are right, of the switch: it is off after an even cost, and before an odd one.
fn layers_stand<S: Space, P: Choose>(
    space: &mut S,
    both: &Both<S::Set, P>,
) -> Result<bool, SpaceFault>
    requires { IsBoth (S.view space.old) both.now }
    ensures { Stays (S.view space.old) (S.view space.new) }
{
    let ahead = alternate(space, both.forward_layers(), true)?;
    let back = alternate(space, both.backward_layers(), false)?;
    Ok(ahead && back)
}

/// Whether the cuts of each cost that is known are those of listed plans.
fn cuts_stand<S: Space, P: Choose>(
    alloc: Global,
    space: &mut S,
    both: &Both<S::Set, P>,
    task: &Task,
) -> Result<bool, SpaceFault>
    requires { IsBoth (S.view space.old) both.now }
    ensures { Stays (S.view space.old) (S.view space.new) }
{
    let Ok(most) = u64::try_from(known(both) - 1) else {
        return Ok(false);
    };
    let b = both.backward_layers().known_below();
    let Some(listed) = plan_cuts_of(alloc, task, b, most)? else {
        return Ok(false);
    };
    let cuts = cuts_up_to(alloc, space, both, most)?;
    Ok(are_those(&listed, &cuts))
}

/// What the calls of a search came to.
#[derive(Clone, Copy)]
struct Called {
    /// Whether none was refused.
    whole: bool,
    /// Whether what they answered is right; after a refusal, whether further ones are refused.
    fine: bool,
}

/// The three calls, and after a refusal further ones.
fn call<S: Space, P: Choose>(alloc: Global, space: &mut S, both: &mut Both<S::Set, P>) -> Called
    requires { IsBoth (S.view space.old) both.old }
    ensures { BothGoOn (S.view space.old) (S.view space.new) both.old both.new }
{
    match three_calls(alloc, space, both) {
        Ok(fine) => Called { whole: true, fine },
        Err(_) => Called {
            whole: false,
            fine: stays_refused(alloc, space, both),
        },
    }
}

/// The calls over a space that passes on some of its own; afterwards it passes on all.
fn fused_over<S: Space>(
    alloc: Global,
    space: &mut FuseSpace<S>,
    task: &Task,
    choose: Choice,
) -> Result<Outcome, Memory> {
    let mut both = match Both::new(alloc, space, choose) {
        Ok(both) => both,
        Err(_) => return Ok(Outcome::NotBegun),
    };
    let called = call(alloc, space, &mut both);
    space.left = u64::MAX;
    let layers = layers_stand(space, &both)?;
    let cuts = cuts_stand(alloc, space, &both, task)?;
    both.give_back(space);
    let fine = called.fine && layers && cuts;
    if called.whole {
        Ok(Outcome::Whole { fine })
    } else {
        Ok(Outcome::Refused { fine })
    }
}

/// The same over a space that is handed over.
fn fused_by<S: Space + Drop>(
    alloc: Global,
    space: FuseSpace<S>,
    task: &Task,
    choose: Choice,
) -> Result<Outcome, Memory> {
    let mut space = space;
    fused_over(alloc, &mut space, task, choose)
}

/// The same over a space of the task that passes on `n` calls.
fn fused(alloc: Global, task: &Task, choose: Choice, n: u64) -> Result<Outcome, Memory> {
    fused_by(
        alloc,
        FuseSpace::new(ExplicitSpace::of(alloc, task)?, n),
        task,
        choose,
    )
}

/// How many counts of calls end in a refusal, up to the first that needs none; None where something isn't as it
/// should be.
fn refusals(alloc: Global, task: &Task, choose: Choice) -> Result<Option<u64>, Memory> {
    for n in 0..1000 {
        match fused(alloc, task, choose, n)? {
            Outcome::NotBegun | Outcome::Refused { fine: true } => {}
            Outcome::Whole { fine: true } => return Ok(Some(n)),
            Outcome::Refused { fine: false } | Outcome::Whole { fine: false } => return Ok(None),
        }
    }
    Ok(None)
}

/// Whether there is such a count, of the switch.
fn is_refused_by_each_call(alloc: Global, choose: Choice) -> Result<bool, Memory> {
    let task = switch_and_back(alloc)?;
    Ok(refusals(alloc, &task, choose)?.is_some())
}

#[test]
fn each_call_of_the_space_is_refused_once(rt: HostRuntime) -> Result<(), Fail> {
    for choose in CHOICES {
        assert!(rt; is_refused_by_each_call(rt.alloc(), choose)?, "{choose:?}");
    }
    Ok(())
}
