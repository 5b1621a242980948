//! Sets of one and of two states, by the states' values.

ghost use Rattle.std.specs.Prelude.{◌<◌, length, IfOk};
ghost use Rattle.bdd_table.specs.Diagram.{means, Keeps};
ghost use Rattle.transitions.specs.Relations.{IsSet};

use bdd_ops::Ops;
use bdd_sets::state_set;
use bdd_table::{Id, Table};
use small_tasks::{Draft, drafted};
use std::alloc::Global;
use std::process::Abort;
use symk_task::{Memory, State, Task};
use var_order::Order;

/// The task of the draft, which fits.
pub fn task_of(rt: &impl Abort, alloc: Global, draft: &Draft<'_>) -> Result<Task, Memory> {
    Ok(drafted(alloc, draft)?.expect(rt, "the draft fits"))
}

/// Operations over a table of no nodes, with room for 100 results.
pub fn no_diagrams(alloc: Global) -> Result<Ops, Memory> {
    Ops::new(Table::new(alloc)?, 100)
}

/// The set of the state.
pub fn state(
    rt: &impl Abort,
    alloc: Global,
    order: &Order,
    ops: &mut Ops,
    values: &[u32],
) -> Result<Id, Memory>
    ensures known { IfOk result (λ id. id < length ops.new) }
    ensures states { IfOk result (λ id. IsSet order.now (means ops.new id)) }
    ensures kept { Keeps ops.old ops.new }
{
    let state = State::of(Vec::from_slice(alloc, values)?);
    assert!(rt; order.is_state(&state));
    state_set(ops, order, &state)
}

/// The set of the two states.
pub fn states(
    rt: &impl Abort,
    alloc: Global,
    order: &Order,
    ops: &mut Ops,
    values: (&[u32], &[u32]),
) -> Result<Id, Memory>
    ensures known { IfOk result (λ id. id < length ops.new) }
    ensures states { IfOk result (λ id. IsSet order.now (means ops.new id)) }
    ensures kept { Keeps ops.old ops.new }
{
    let _ = order.blocks();
    let first = state(rt, alloc, order, ops, values.0)?;
    let second = state(rt, alloc, order, ops, values.1)?;
    ops.disj(first, second)
}
