//! The next plan, by the parts of an engine.

use crate::drawing::Place;
use crate::expansions::Expansions;
use crate::queue::Queue;

/// What is left to list: the cost at hand with its cuts, the entries that grow, and what leads on from states of them.
#[derive(Drop)]
pub(crate) struct Agenda<T> {
    pub(crate) listed: Option<Place>,
    pub(crate) queue: Queue<T>,
    /// What leads on from states, of the cost that is listed.
    pub(crate) memo: Expansions,
}

ghost use Rattle.std.specs.Prelude.{◌≡◌, ◌<◌, [], Option, ℕ, length, IfOk, OnOk};
ghost use Rattle.space_api.specs.View.{View};
ghost use Rattle.symk_task.specs.declared.parts.Mode.TheVariants.{TopK};
ghost use Rattle.lazy_plans.specs.Law.{Turned};
ghost use Rattle.reconstruct.specs.Going.{place_cost, HasMore};
ghost use Rattle.reconstruct.specs.Turned.{EndsSingle, HasSingle};
ghost use Rattle.reconstruct.specs.Working.{IsWorking, InWantedRange, OwedBy, MovesAgenda, TradesAll, FillsQueue, FewTurns};

use crate::drawing::draw;
use crate::going::{Filled, go_on};
use crate::partial::single_out;
use crate::walking::walk;
use bidirectional::{Both, Choose};
use lazy_plans::{Steps, Stop};
use space_api::{Space, SpaceFault};
use std::alloc::Global;
use std::sync::ledger::Ledger;
use symk_task::Plan;

/// Sees to it that no prefix stands last whose children are still to be found. Out of memory, it leaves what is owed.
fn single_out_next<S: Space, P: Choose>(
    alloc: Global,
    space: &mut S,
    both: &Both<S::Set, P>,
    agenda: &mut Agenda<S::Set>,
) -> Result<(), SpaceFault>
    requires { IsWorking (S.view space.old) both.now agenda.old }
    ensures working { IsWorking (S.view space.new) both.now agenda.new }
    ensures moves { MovesAgenda (S.view space.old) (S.view space.new) both.now both.now agenda.old agenda.new }
    ensures listed { agenda.new.listed ≡ agenda.old.listed }
    ensures ok { OnOk result (EndsSingle agenda.new.queue) }
{
    if agenda.queue.is_empty() {
        return Ok(());
    }
    single_out(alloc, space, both.forward_layers(), &mut agenda.queue)
}

/// Draws the next cut of the cost that is listed into the empty queue, if one is left.
fn draw_next<S: Space, P: Choose>(
    alloc: Global,
    space: &mut S,
    both: &Both<S::Set, P>,
    agenda: &mut Agenda<S::Set>,
) -> Result<(), SpaceFault>
    requires working { IsWorking (S.view space.old) both.now agenda.old }
    requires empty { agenda.old.queue ≡ [] }
    ensures working { IsWorking (S.view space.new) both.now agenda.new }
    ensures moves { MovesAgenda (S.view space.old) (S.view space.new) both.now both.now agenda.old agenda.new }
    ensures cost { place_cost agenda.new.listed ≡ place_cost agenda.old.listed }
    ensures ok { OnOk result (HasMore agenda.new.queue agenda.new.listed) }
{
    match &mut agenda.listed {
        None => Ok(()),
        Some(place) => {
            if place.left {
                draw(alloc, space, both, place, &mut agenda.queue)
            } else {
                Ok(())
            }
        }
    }
}

/// Sees to it that an entry stands in the queue: draws the next cut, or goes on to the next cost, of which nothing is
/// remembered. Out of memory, it leaves what is owed.
fn fill<S: Space, P: Choose>(
    alloc: Global,
    space: &mut S,
    both: &mut Both<S::Set, P>,
    most: Option<u64>,
    agenda: &mut Agenda<S::Set>,
) -> Result<Filled, SpaceFault>
    requires working { IsWorking (S.view space.old) both.old agenda.old }
    requires range { InWantedRange most agenda.old.listed }
    ensures working { IsWorking (S.view space.new) both.new agenda.new }
    ensures moves { MovesAgenda (S.view space.old) (S.view space.new) both.old both.new agenda.old agenda.new }
    ensures range { InWantedRange most agenda.new.listed }
    ensures ok { IfOk result (FillsQueue (S.view space.old).system most
        (OwedBy (S.view space.old) both.old agenda.old) agenda.new.queue) }
{
    single_out_next(alloc, space, both, agenda)?;
    if !agenda.queue.is_empty() {
        return Ok(Filled::Ready);
    }
    draw_next(alloc, space, both, agenda)?;
    if !agenda.queue.is_empty() {
        return Ok(Filled::Ready);
    }
    agenda.memo.clear();
    go_on(
        alloc,
        space,
        both,
        most,
        &mut agenda.listed,
        &mut agenda.queue,
    )
}

/// Turns until a plan of the cost that is listed is given. None where no cost is.
fn walk_on<S: Space, P: Choose, L: Ledger>(
    alloc: Global,
    space: &mut S,
    both: &Both<S::Set, P>,
    agenda: &mut Agenda<S::Set>,
    steps: &mut Steps<L>,
) -> Result<Option<Plan>, Stop>
    requires working { IsWorking (S.view space.old) both.now agenda.old }
    requires some { HasSingle agenda.old.queue }
    ensures working { IsWorking (S.view space.new) both.now agenda.new }
    ensures listed { agenda.new.listed ≡ agenda.old.listed }
    ensures trades { TradesAll (S.view space.old) (S.view space.new) both.now both.now agenda.old agenda.new }
    ensures turned { (most : Option ℕ) → InWantedRange most agenda.old.listed
        → Turned (S.view space.old).system TopK most
        (OwedBy (S.view space.old) both.now agenda.old) (OwedBy (S.view space.new) both.now agenda.new) result }
    ensures steps { FewTurns steps.old steps.new result }
{
    match &agenda.listed {
        None => Ok(None),
        Some(_) => {
            match walk(
                alloc,
                space,
                both.forward_layers(),
                both.backward_layers(),
                &mut agenda.queue,
                &mut agenda.memo,
                steps,
            ) {
                Ok(operators) => Ok(Some(Plan::of(operators))),
                Err(_) => Err(Stop::Memory),
            }
        }
    }
}

/// The next plan. Out of memory, it leaves what is owed; no set is lost.
pub(crate) fn give<S: Space, P: Choose, L: Ledger>(
    alloc: Global,
    space: &mut S,
    both: &mut Both<S::Set, P>,
    most: Option<u64>,
    agenda: &mut Agenda<S::Set>,
    steps: &mut Steps<L>,
) -> Result<Option<Plan>, Stop>
    requires working { IsWorking (S.view space.old) both.old agenda.old }
    requires range { InWantedRange most agenda.old.listed }
    ensures working { IsWorking (S.view space.new) both.new agenda.new }
    ensures range { InWantedRange most agenda.new.listed }
    ensures trades { TradesAll (S.view space.old) (S.view space.new) both.old both.new agenda.old agenda.new }
    ensures turned { Turned (S.view space.old).system TopK most
        (OwedBy (S.view space.old) both.old agenda.old) (OwedBy (S.view space.new) both.new agenda.new) result }
    ensures steps { FewTurns steps.old steps.new result }
{
    match fill(alloc, space, both, most, agenda) {
        Err(_) => Err(Stop::Memory),
        Ok(Filled::Never) => Ok(None),
        Ok(Filled::Beyond) => Err(Stop::CostRange),
        Ok(Filled::Ready) => walk_on(alloc, space, both, agenda, steps),
    }
}
