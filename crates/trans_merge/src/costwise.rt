//! The relations of each cost, joined.

ghost use Rattle.std.specs.Prelude.{◌≡◌, ◌≤◌, ◌++◌, length, IfOk, OnOk};
ghost use Rattle.bdd_table.specs.Diagram.{Keeps, IsReduced};
ghost use Rattle.trans_merge.specs.Steps.{StepOfCost, HaveSteps};
ghost use Rattle.trans_merge.specs.Gathered.{AreSingle, AreJoined};
ghost use Rattle.trans_merge.specs.Halves.{AreHalvedOf, AreHalved};

use crate::members::members_of_cost;
use crate::merging::merge;
use bdd_ops::Ops;
use bdd_table::TableFault;
use std::alloc::Global;
use symk_task::Task;
use transitions::Relation;
use var_order::Order;

/// The relations of the operators that have the cost, joined by halves as long as a joined one has at most `bound`
/// nodes.
fn joined_of_cost(
    alloc: Global,
    task: &Task,
    order: &Order,
    ops: &mut Ops,
    single: &[Relation],
    cost: u64,
    bound: u64,
) -> Result<Vec<Relation>, TableFault>
    requires { AreSingle task.now order.now ops.old single.now }
    ensures have { IfOk result (λ rs. HaveSteps order.now ops.new (StepOfCost task.now cost) rs.items) }
    ensures halved { IfOk result (λ rs. AreHalvedOf task.now order.now bound ops.new single.now cost rs.items) }
    ensures kept { Keeps ops.old ops.new }
    ensures reduced { IsReduced ops.new }
{
    let _ = ops.table();
    let members = members_of_cost(alloc, task, single, cost)?;
    merge(alloc, order, ops, members, bound)
}

/// The joined relations of all costs, cost by cost, and for each cost the place where its relations start, and last
/// their number.
pub fn joined_by_cost(
    alloc: Global,
    task: &Task,
    order: &Order,
    ops: &mut Ops,
    single: &[Relation],
    costs: &[u64],
    bound: u64,
) -> Result<(Vec<Relation>, Vec<usize>), TableFault>
    requires { AreSingle task.now order.now ops.old single.now }
    ensures joined { IfOk result (λ r. AreJoined task.now order.now ops.new costs.now (length costs.now)
        r.1.items r.0.items) }
    ensures halved { IfOk result (λ r. AreHalved task.now order.now bound ops.new single.now costs.now
        (length costs.now) r.1.items r.0.items) }
    ensures kept { Keeps ops.old ops.new }
    ensures reduced { IsReduced ops.new }
{
    let _ = ops.table();
    let mut joined = Vec::new(alloc);
    let mut starts = Vec::new(alloc);
    starts.push(0)?;
    for cost in costs {
        let mut part = joined_of_cost(alloc, task, order, ops, single, *cost, bound)?;
        joined.append(&mut part)?;
        starts.push(joined.len())?;
    }
    Ok((joined, starts))
}
