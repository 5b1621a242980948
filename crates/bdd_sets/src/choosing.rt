//! The operators all of whose facts occur.

ghost use Rattle.std.specs.Prelude.{◌≡◌, ◌<◌, length, IfOk};
ghost use Rattle.std.specs.List.{list_all};
ghost use Rattle.var_order.specs.Layout.{IsOrderOf};
ghost use Rattle.bdd_sets.specs.Marks.{is_marked};
ghost use Rattle.bdd_sets.specs.Steps.{AreStepFacts};
ghost use Rattle.bdd_sets.specs.Leading.{AreChosen, MissNone, LeadsFrom, LeadsInto};

use crate::marking::is_marked;
use crate::occurring::marks_of;
use crate::stepping::StepFacts;
use bdd_table::{Id, Table};
use std::alloc::Global;
use symk_task::{List, Memory, Task};
use var_order::Order;

/// Whether each of the places is marked.
fn all_marked(marks: &[bool], places: &[usize]) -> bool
    ensures { result ≡ list_all (is_marked marks.now) places.now }
{
    places.iter().all(|place| is_marked(marks, *place))
}

/// The numbers of the lists all of whose places are marked.
fn chosen(
    alloc: Global,
    marks: &[bool],
    lists: &[List<usize>],
    count: u32,
) -> Result<Vec<u32>, Memory>
    requires { length lists.now ≡ count }
    ensures { IfOk result (λ ops. AreChosen marks.now lists.now count ops.items) }
{
    let mut ops = Vec::new(alloc);
    'operators: for op in 0..count {
        if all_marked(marks, lists[op as usize].as_slice()) {
            ops.push(op)?;
        }
    }
    Ok(ops)
}

/// The operators that may have steps from states of the set, rising: those all of whose conditions occur in it.
pub fn leading_from(
    alloc: Global,
    task: &Task,
    table: &Table,
    order: &Order,
    steps: &StepFacts,
    set: Id,
) -> Result<Vec<u32>, Memory>
    requires set { set < length table.now }
    requires order { IsOrderOf task.now order.now }
    requires steps { AreStepFacts task.now order.now steps.now }
    ensures { IfOk result (λ ops.
        MissNone (length task.now.operators) (LeadsFrom task.now order.now table.now set) ops.items) }
{
    let marks = marks_of(alloc, table, order, &steps.places, set)?;
    chosen(alloc, &marks, &steps.before, task.operators())
}

/// The operators that may have steps into states of the set, rising: those all of whose facts afterwards occur in it.
pub fn leading_into(
    alloc: Global,
    task: &Task,
    table: &Table,
    order: &Order,
    steps: &StepFacts,
    set: Id,
) -> Result<Vec<u32>, Memory>
    requires set { set < length table.now }
    requires order { IsOrderOf task.now order.now }
    requires steps { AreStepFacts task.now order.now steps.now }
    ensures { IfOk result (λ ops.
        MissNone (length task.now.operators) (LeadsInto task.now order.now table.now set) ops.items) }
{
    let marks = marks_of(alloc, table, order, &steps.places, set)?;
    chosen(alloc, &marks, &steps.after, task.operators())
}
