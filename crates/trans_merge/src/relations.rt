//! The relations of all operators, each by itself and joined by cost.

ghost use Rattle.std.specs.Prelude.{◌≡◌, ◌≢◌, ◌<◌, ◌≤◌, ◌+◌, ◌++◌, ℕ, List, length, slice_index, slice_range, All, IfOk, IfSome, IsNone, OnOk, OnErr};
ghost use Rattle.symk_task.specs.declared.parts.TaskParts.{TaskParts};
ghost use Rattle.symk_task.specs.Steps.{Step};
ghost use Rattle.bdd_table.specs.declared.node.Node.{Node};
ghost use Rattle.bdd_table.specs.Diagram.{means, Keeps, IsReduced};
ghost use Rattle.var_order.specs.Layout.{Layout, IsOrderOf};
ghost use Rattle.axiom_layers.specs.Roots.{AreRoots};
ghost use Rattle.transitions.specs.Relations.{Names};
ghost use Rattle.trans_merge.specs.Steps.{StepOfCost, ImageBy, PreimageBy};
ghost use Rattle.trans_merge.specs.Relations.{AreRelationsOf, AreJoinedWithin, AreAsked};
ghost use Rattle.trans_merge.specs.Roots.{roots_of, IsPushedInPart, AreMovedTo};

use crate::costwise::joined_by_cost;
use crate::images::{image_by, preimage_by};
use crate::roots::{push_roots, put_roots};
use crate::single::single_relations;
use axiom_layers::Derived;
use bdd_ops::Ops;
use bdd_table::{FALSE, Id, TableFault};
use space_api::operator_costs;
use std::alloc::Global;
use symk_task::{Memory, Task};
use transitions::{Relation, image, preimage};
use var_order::Order;

/// Transition relations of a task's operators: that of each operator by itself, and those of each cost, joined up to
/// a bound of nodes.
#[derive(Drop)]
pub struct OperatorRelations {
    /// The different costs of the operators, rising.
    costs: Vec<u64>,
    /// The relation of each operator.
    single: Vec<Relation>,
    /// The joined relations, cost by cost.
    joined: Vec<Relation>,
    /// For each cost the place where its joined relations start, and last their number.
    starts: Vec<usize>,
}

impl OperatorRelations {
    /// The relations of the task's operators. Relations of one cost are joined by halves, in the order of the
    /// operators: what comes of the first half stands before what comes of the second, but where each half comes to
    /// one relation and both joined have at most `bound` nodes, those counted that the root reaches, without the
    /// constants, the joined one stands for all. Relations of different costs are never joined.
    pub fn of(
        alloc: Global,
        task: &Task,
        order: &Order,
        ops: &mut Ops,
        derived: &Derived,
        bound: u64,
    ) -> Result<OperatorRelations, TableFault>
        requires order { IsOrderOf task.now order.now }
        requires roots { AreRoots task.now order.now ops.old derived.now }
        ensures relations { IfOk result (AreRelationsOf task.now order.now ops.new) }
        ensures halved { IfOk result (AreJoinedWithin task.now order.now bound ops.new) }
        ensures kept { Keeps ops.old ops.new }
        ensures reduced { IsReduced ops.new }
    {
        let single = single_relations(alloc, task, order, ops, derived)?;
        let costs = operator_costs(alloc, task)?;
        let (joined, starts) = joined_by_cost(alloc, task, order, ops, &single, &costs, bound)?;
        Ok(OperatorRelations {
            costs,
            single,
            joined,
            starts,
        })
    }

    /// The different costs of the operators, rising.
    pub fn costs(&self) -> &[u64]
        ensures { result.now ≡ self.now.costs.items }
    {
        &self.costs
    }

    /// The place of the cost among the different ones.
    fn place_of(&self, cost: u64) -> Option<usize>
        ensures some { IfSome result (λ i. (i < length self.now.costs.items)
            × (slice_index self.now.costs.items i ≡ cost)) }
        ensures none { IsNone result → (i : ℕ) → i < length self.now.costs.items
            → slice_index self.now.costs.items i ≢ cost }
    {
        self.costs.iter().position(|other| *other == cost)
    }

    /// The joined relations of the cost at the place.
    fn joined_at(&self, place: usize) -> &[Relation]
        requires count { place + 1 < length self.now.starts.items }
        requires rising { slice_index self.now.starts.items place ≤ slice_index self.now.starts.items (place + 1) }
        requires within { slice_index self.now.starts.items (place + 1) ≤ length self.now.joined.items }
        ensures { result.now ≡ slice_range self.now.joined.items (slice_index self.now.starts.items place)
            (slice_index self.now.starts.items (place + 1)) }
    {
        let start = self.starts[place];
        let end = self.starts[place + 1];
        &self.joined[start..end]
    }

    /// Image by one operator: the states to which it leads from members of the set.
    pub fn image_op(&self, ops: &mut Ops, op: u32, set: Id) -> Result<Id, TableFault>
        requires op { op < length self.now.single.items }
        requires set { set < length ops.old }
        requires asked { (task : TaskParts) × (o : Layout) × AreAsked task o ops.old self.now set }
        ensures known { IfOk result (λ id. id < length ops.new) }
        ensures names { IfOk result (λ id. (task : TaskParts) (o : Layout) → AreAsked task o ops.old self.now set
            → Names o (ImageBy o (λ s t. Step task s op t) (means ops.old set)) (means ops.new id)) }
        ensures kept { Keeps ops.old ops.new }
        ensures reduced { IsReduced ops.new }
    {
        image(ops, &self.single[op as usize], set)
    }

    /// Preimage by one operator: the states from which it leads to members of the set.
    pub fn pre_op(&self, ops: &mut Ops, op: u32, set: Id) -> Result<Id, TableFault>
        requires op { op < length self.now.single.items }
        requires set { set < length ops.old }
        requires asked { (task : TaskParts) × (o : Layout) × AreAsked task o ops.old self.now set }
        ensures known { IfOk result (λ id. id < length ops.new) }
        ensures names { IfOk result (λ id. (task : TaskParts) (o : Layout) → AreAsked task o ops.old self.now set
            → Names o (PreimageBy o (λ s t. Step task s op t) (means ops.old set)) (means ops.new id)) }
        ensures kept { Keeps ops.old ops.new }
        ensures reduced { IsReduced ops.new }
    {
        preimage(ops, &self.single[op as usize], set)
    }

    /// Image by all operators of one cost: the states to which they lead from members of the set: none if no operator
    /// has this cost.
    pub fn image_cost(&self, ops: &mut Ops, cost: u64, set: Id) -> Result<Id, TableFault>
        requires set { set < length ops.old }
        requires asked { (task : TaskParts) × (o : Layout) × AreAsked task o ops.old self.now set }
        ensures known { IfOk result (λ id. id < length ops.new) }
        ensures names { IfOk result (λ id. (task : TaskParts) (o : Layout) → AreAsked task o ops.old self.now set
            → Names o (ImageBy o (StepOfCost task cost) (means ops.old set)) (means ops.new id)) }
        ensures kept { Keeps ops.old ops.new }
        ensures reduced { IsReduced ops.new }
    {
        let _ = ops.table();
        match self.place_of(cost) {
            Some(place) => image_by(ops, self.joined_at(place), set),
            None => Ok(FALSE),
        }
    }

    /// Preimage by all operators of one cost: the states from which they lead to members of the set: none if no
    /// operator has this cost.
    pub fn pre_cost(&self, ops: &mut Ops, cost: u64, set: Id) -> Result<Id, TableFault>
        requires set { set < length ops.old }
        requires asked { (task : TaskParts) × (o : Layout) × AreAsked task o ops.old self.now set }
        ensures known { IfOk result (λ id. id < length ops.new) }
        ensures names { IfOk result (λ id. (task : TaskParts) (o : Layout) → AreAsked task o ops.old self.now set
            → Names o (PreimageBy o (StepOfCost task cost) (means ops.old set)) (means ops.new id)) }
        ensures kept { Keeps ops.old ops.new }
        ensures reduced { IsReduced ops.new }
    {
        let _ = ops.table();
        match self.place_of(cost) {
            Some(place) => preimage_by(ops, self.joined_at(place), set),
            None => Ok(FALSE),
        }
    }

    /// How many roots the relations have.
    pub fn roots(&self) -> usize
        ensures { result ≡ length (roots_of self.now) }
    {
        self.single.len() + self.joined.len()
    }

    /// Puts all roots behind those in the list: first those of the operators' own relations, then those of the joined
    /// ones. A refused call leaves some of them there.
    pub fn push_roots(&self, roots: &mut Vec<Id>) -> Result<(), Memory>
        ensures pushed { OnOk result (roots.new.items ≡ roots.old.items ++ roots_of self.now) }
        ensures known { (task : TaskParts) (o : Layout) (nodes : List Node) → AreRelationsOf task o nodes self.now
            → All (λ id. id < length nodes) (roots_of self.now) }
        ensures err { OnErr result (IsPushedInPart (roots_of self.now) roots.old.items roots.new.items) }
    {
        push_roots(&self.single, roots)?;
        push_roots(&self.joined, roots)
    }

    /// Takes as many roots from the list as `roots` counts, from the place on, in the order in which `push_roots`
    /// puts them. After a collection that moved them these are the relations that they were.
    pub fn take_roots(&mut self, roots: &[Id], from: usize)
        requires { from + length (roots_of self.old) ≤ length roots.now }
        ensures taken { roots_of self.new ≡ slice_range roots.now from (from + length (roots_of self.old)) }
        ensures moved { (task : TaskParts) (o : Layout) (old : List Node) (new : List Node)
            → AreRelationsOf task o old self.old
            → AreMovedTo old new (roots_of self.old) roots.now from → AreRelationsOf task o new self.new }
    {
        put_roots(&mut self.single, roots, from);
        put_roots(&mut self.joined, roots, from + self.single.len());
    }
}
