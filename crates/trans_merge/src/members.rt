//! Copies of the relations of one cost.

ghost use Rattle.std.specs.Prelude.{◌≡◌, ◌<◌, ℕ, List, length, slice_index_or, All, IfOk, OnOk};
ghost use Rattle.bdd_table.specs.declared.node.Node.{Node};
ghost use Rattle.var_order.specs.Layout.{Layout};
ghost use Rattle.transitions.specs.declared.relations.Relation.{Relation as RelationOf};
ghost use Rattle.transitions.specs.Ready.{IsReadyRelation};
ghost use Rattle.trans_merge.specs.Steps.{StepOfCost, HaveSteps};
ghost use Rattle.trans_merge.specs.Gathered.{AreSingle};
ghost use Rattle.trans_merge.specs.Copies.{IsCopy, TakesTurn};
ghost use Rattle.trans_merge.specs.Halves.{operators_of, AreCopies};

use std::alloc::Global;
use symk_task::{Memory, Task};
use transitions::Relation;

/// A relation with the same steps.
fn copied(alloc: Global, relation: &Relation) -> Result<Relation, Memory>
    requires { IsReadyRelation relation.now }
    ensures { IfOk result (IsCopy relation.now) }
{
    let touched = Vec::from_slice(alloc, &relation.touched)?;
    Relation::of(alloc, relation.root, touched)
}

/// Adds a copy of the operator's relation, if the operator has the cost.
fn add_of_cost(
    alloc: Global,
    task: &Task,
    op: u32,
    cost: u64,
    relation: &Relation,
    members: &mut Vec<Relation>,
) -> Result<(), Memory>
    requires op { op < length task.now.operators }
    requires ready { IsReadyRelation relation.now }
    ensures { OnOk result (TakesTurn task.now op cost relation.now members.old.items members.new.items) }
{
    if task.cost(op) == cost {
        members.push(copied(alloc, relation)?)?;
    }
    Ok(())
}

/// Copies of the relations of the operators that have the cost, in the order of the task.
pub fn members_of_cost(
    alloc: Global,
    task: &Task,
    single: &[Relation],
    cost: u64,
) -> Result<Vec<Relation>, Memory>
    requires operators { length single.now ≡ length task.now.operators }
    requires ready { All IsReadyRelation single.now }
    ensures copies { IfOk result (λ rs. AreCopies single.now (operators_of task.now cost) rs.items) }
    ensures have { IfOk result (λ rs. (o : Layout) (nodes : List Node) → AreSingle task.now o nodes single.now
        → HaveSteps o nodes (StepOfCost task.now cost) rs.items) }
{
    let mut members = Vec::new(alloc);
    'operators: for op in 0..task.operators() {
        add_of_cost(alloc, task, op, cost, &single[op as usize], &mut members)?;
    }
    Ok(members)
}
