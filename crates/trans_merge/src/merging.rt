//! Relations joined by halves.

ghost use Rattle.std.specs.Prelude.{◌≡◌, ◌≢◌, ◌++◌, ◌∷◌, [], List, length, All, IfOk, IfSome, IfNone};
ghost use Rattle.bdd_table.specs.Diagram.{Keeps, IsReduced};
ghost use Rattle.transitions.specs.declared.relations.Relation.{Relation as RelationOf};
ghost use Rattle.trans_merge.specs.Merging.{IsRelation, Merges, IsHalved, JoinsBoth, StayApart, Combines};

use crate::joining::join_within;
use bdd_ops::Ops;
use bdd_table::TableFault;
use std::alloc::Global;
use transitions::Relation;
use var_order::Order;

/// The relations of both lists joined, if each list is one relation and the joined one has at most so many nodes.
fn join_both(
    alloc: Global,
    order: &Order,
    ops: &mut Ops,
    left: &[Relation],
    right: &[Relation],
    bound: u64,
) -> Result<Option<Relation>, TableFault>
    requires left { All (IsRelation order.now ops.old) left.now }
    requires right { All (IsRelation order.now ops.old) right.now }
    ensures joined { IfOk result (λ found. IfSome found (JoinsBoth order.now ops.old left.now right.now bound
        ops.new)) }
    ensures apart { IfOk result (λ found. IfNone found (StayApart order.now ops.old left.now right.now bound ops.new)) }
    ensures kept { Keeps ops.old ops.new }
    ensures reduced { IsReduced ops.new }
{
    let _ = ops.table();
    if left.len() != 1 {
        return Ok(None);
    }
    if right.len() != 1 {
        return Ok(None);
    }
    join_within(alloc, order, ops, &left[0], &right[0], bound)
}

/// The list of the one relation.
fn one(alloc: Global, relation: Relation) -> Result<Vec<Relation>, TableFault>
    ensures { IfOk result (λ list. list.items ≡ relation ∷ []) }
{
    let mut list = Vec::new(alloc);
    list.push(relation)?;
    Ok(list)
}

/// What came of two halves as one list: joined to one relation where that is possible within the bound, else one
/// after the other.
fn combine(
    alloc: Global,
    order: &Order,
    ops: &mut Ops,
    mut left: Vec<Relation>,
    mut right: Vec<Relation>,
    bound: u64,
) -> Result<Vec<Relation>, TableFault>
    requires left { All (IsRelation order.now ops.old) left.items }
    requires right { All (IsRelation order.now ops.old) right.items }
    ensures combined { IfOk result (λ results. Combines order.now ops.old left.items right.items bound ops.new
        results.items) }
    ensures kept { Keeps ops.old ops.new }
    ensures reduced { IsReduced ops.new }
{
    match join_both(alloc, order, ops, &left, &right, bound)? {
        Some(joined) => one(alloc, joined),
        None => {
            left.append(&mut right)?;
            Ok(left)
        }
    }
}

/// Disjunctive partitioning: the relations, joined by halves in their order: what comes of the first half stands
/// before what comes of the second, but where each half comes to one relation and both joined have at most `bound`
/// nodes, those counted that its root reaches, without the constants, the joined one stands for all. The steps of a
/// result are those of its members; as each member is in one result, the images by the results together are those by
/// the members together, and so the preimages (Burch, Clarke and Long, "Symbolic Model Checking with Partitioned
/// Transition Relations", 1991; for planning, Torralba, Edelkamp and Kissmann, "Transition Trees for Cost-Optimal
/// Symbolic Planning", 2013). Relations of different costs are not to be merged.
pub fn merge(
    alloc: Global,
    order: &Order,
    ops: &mut Ops,
    mut relations: Vec<Relation>,
    bound: u64,
) -> Result<Vec<Relation>, TableFault>
    requires { All (IsRelation order.now ops.old) relations.items }
    ensures merges { IfOk result (λ results. Merges order.now bound ops.old relations.items ops.new results.items) }
    ensures halved { IfOk result (λ results. IsHalved order.now bound ops.new relations.items results.items) }
    ensures kept { Keeps ops.old ops.new }
    ensures reduced { IsReduced ops.new }
{
    let _ = ops.table();
    if relations.len() < 2 {
        return Ok(relations);
    }
    let half = relations.len() / 2;
    let second = relations.split_off(half)?;
    let left = merge(alloc, order, ops, relations, bound)?;
    let right = merge(alloc, order, ops, second, bound)?;
    combine(alloc, order, ops, left, right, bound)
}
