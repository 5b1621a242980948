//! Whether a plan goes on from an entry of the queue at all.

ghost use Rattle.std.specs.Prelude.{◌<◌, ◌≤◌, IfOk, length};
ghost use Rattle.std.specs.List.{AllByRecursion};
ghost use Rattle.symk_task.specs.declared.parts.Mode.TheVariants.{TopK};
ghost use Rattle.space_api.specs.View.{View, Valid};
ghost use Rattle.space_api.specs.Frames.{Stays};
ghost use Rattle.prefix_tree.specs.Entries.{queued_entries};
ghost use Rattle.prefix_tree.specs.StateGraph.{states_of, IsStateGraph};
ghost use Rattle.prefix_tree.specs.Tree.{IsTree};
ghost use Rattle.prefix_tree.specs.declared.entry.Entry.{Entry};
ghost use Rattle.prefix_plans.specs.Owned.{CoversUseful};
ghost use Rattle.prefix_plans.specs.Leading.{TellsLeading, DropsHopeless, TellsGoingOn};

use crate::leading::goes_on;
use cost_layers::reach;
use lazy_plans::Steps;
use prefix_tree::{Node, Queue, StateGraph};
use run_graph::Side;
use space_api::{Space, SpaceFault};
use std::alloc::{AllocError, Global};
use std::sync::ledger::Ledger;

/// Whether a plan goes on from some entry. The first ones from which none does are taken out, each by a turn.
fn some_goes_on<S: Space, L: Ledger>(
    alloc: Global,
    space: &S,
    leading: S::Set,
    graph: &StateGraph,
    tree: &[Node],
    queue: &mut Queue,
    steps: &mut Steps<L>,
) -> Result<bool, AllocError>
    requires leading { Valid (S.view space.now) leading }
    requires tells { TellsLeading (S.view space.now) leading }
    requires graph { IsStateGraph (S.view space.now).system graph.now }
    requires tree { IsTree (S.view space.now).system TopK (states_of graph.now) tree.now }
    requires inside { AllByRecursion (λ (k : Entry). k.node < length tree.now) (queued_entries queue.old) }
    ensures drops { DropsHopeless (S.view space.now).system tree.now (queued_entries queue.old)
        (queued_entries queue.new) }
    ensures told { IfOk result (TellsGoingOn (S.view space.now).system tree.now (queued_entries queue.new)) }
    ensures steps { steps.old ≤ steps.new }
{
    'entries: loop {
        match queue.first() {
            None => return Ok(false),
            Some(entry) => {
                if goes_on(space, leading, graph, tree, entry) {
                    return Ok(true);
                }
                queue.make_room(0)?;
                queue.replace(Vec::new(alloc), steps);
            }
        }
    }
}

/// Whether a plan goes on from some entry. The states that lead to the goal at all are found, whatever that costs, and
/// given back. First entries from which no plan goes on are taken out, also when out of memory.
pub fn is_left<S: Space, L: Ledger>(
    alloc: Global,
    space: &mut S,
    within: S::Set,
    graph: &StateGraph,
    tree: &[Node],
    queue: &mut Queue,
    steps: &mut Steps<L>,
) -> Result<bool, SpaceFault>
    requires within { Valid (S.view space.old) within }
    requires wide { CoversUseful (S.view space.old) within }
    requires graph { IsStateGraph (S.view space.old).system graph.now }
    requires tree { IsTree (S.view space.old).system TopK (states_of graph.now) tree.now }
    requires inside { AllByRecursion (λ (k : Entry). k.node < length tree.now) (queued_entries queue.old) }
    ensures stays { Stays (S.view space.old) (S.view space.new) }
    ensures drops { DropsHopeless (S.view space.old).system tree.now (queued_entries queue.old)
        (queued_entries queue.new) }
    ensures told { IfOk result (TellsGoingOn (S.view space.old).system tree.now (queued_entries queue.new)) }
    ensures steps { steps.old ≤ steps.new }
{
    let leading = reach(space, Side::Back, within)?;
    let left = some_goes_on(alloc, space, leading, graph, tree, queue, steps);
    space.forget(leading);
    left
}
