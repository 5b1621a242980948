//! The space of a task.

ghost use Rattle.std.specs.Prelude.{◌≡◌, ℕ, IsFalse, IfOk};
ghost use Rattle.bdd_table.specs.Diagram.{Keeps, IsReduced};
ghost use Rattle.symk_task.specs.Plans.{IsInitial};
ghost use Rattle.task_system.specs.Computed.{system_of};
ghost use Rattle.var_order.specs.Layout.{IsOrderOf};
ghost use Rattle.axiom_layers.specs.Roots.{AreRoots};
ghost use Rattle.trans_merge.specs.Relations.{AreJoinedWithin};
ghost use Rattle.bdd_space.specs.Symbolic.{OwnAre};
ghost use Rattle.bdd_space.specs.Seen.{seen};

use crate::slots::Slots;
use crate::symbolic::{BddSpace, Own};
use axiom_layers::{Derived, compile};
use bdd_ops::{CACHE, Ops};
use bdd_sets::{StepFacts, state_set, valid_set};
use bdd_table::Table;
use std::alloc::Global;
use symk_task::{Memory, State, Task};
use task_run::Rules;
use trans_merge::OperatorRelations;
use var_order::Order;

/// Relations of one cost are joined while a joined one has at most so many nodes. Fewer relations make fewer products
/// an image, and larger ones dearer products; at a few thousand nodes a joined relation is still small beside the
/// sets of a search that is worth the name.
const JOINED_NODES: u64 = 4096;

/// The Ids that a space keeps for itself.
fn own_sets(
    task: &Task,
    order: &Order,
    initial: &State,
    derived: &Derived,
    ops: &mut Ops,
) -> Result<Own, Memory>
    requires order { IsOrderOf task.now order.now }
    requires initial { IsInitial task.now initial.now }
    requires roots { AreRoots task.now order.now ops.old derived.now }
    ensures are { IfOk result (OwnAre task.now order.now ops.new) }
    ensures kept { Keeps ops.old ops.new }
    ensures reduced { IsReduced ops.new }
{
    let facts = derived.facts_set(task, order, ops, task.parts().goal.as_slice())?;
    let all = valid_set(ops, order)?;
    let start = state_set(ops, order, initial)?;
    let goals = ops.conj(all, facts)?;
    Ok(Own { all, start, goals })
}

impl<'a> BddSpace<'a> {
    /// The space of the task, with no valid set. The relations of operators of one cost are joined by halves, in the
    /// order of the operators, while a joined one has at most 4,096 nodes.
    pub fn of(alloc: Global, task: &'a Task) -> Result<BddSpace<'a>, Memory>
        ensures task { IfOk result (λ space. space.task ≡ task.now) }
        ensures system { IfOk result (λ space. (seen space).system ≡ system_of task.now) }
        ensures joined { IfOk result (λ space. AreJoinedWithin task.now space.order 4096 space.nodes space.relations) }
        ensures none { IfOk result (λ space. (a : ℕ) → IsFalse ((seen space).valid a)) }
        ensures last { IfOk result (λ space. (seen space).last ≡ 0) }
    {
        // A task fits, and so the space's own facts hold.
        let _ = task.parts();
        let order = Order::of(alloc, task)?;
        let initial = task.start(alloc)?;
        let rules = Rules::of(alloc, task)?;
        let mut ops = Ops::new(Table::new(alloc)?, CACHE)?;
        let derived = compile(alloc, task, &order, &mut ops)?;
        let own = own_sets(task, &order, &initial, &derived, &mut ops)?;
        let relations = OperatorRelations::of(
            alloc,
            task,
            &order,
            &mut ops,
            &derived,
            JOINED_NODES,
        )?;
        let steps = StepFacts::of(alloc, task, &order)?;
        let sets = Slots::new(alloc);
        Ok(BddSpace {
            task,
            order,
            initial,
            rules,
            ops,
            own,
            relations,
            steps,
            sets,
            last: 0,
            swept: 0,
        })
    }
}
