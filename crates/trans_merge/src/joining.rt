//! Two relations as one.

ghost use Rattle.std.specs.Prelude.{◌≡◌, ◌<◌, ◌∷◌, [], length, IfOk, IfSome, IfNone};
ghost use Rattle.bdd_table.specs.Diagram.{means, Keeps, IsReduced};
ghost use Rattle.transitions.specs.declared.relations.Relation.{Relation as RelationOf};
ghost use Rattle.trans_merge.specs.Size.{HasAtMost};
ghost use Rattle.trans_merge.specs.Widened.{united};
ghost use Rattle.trans_merge.specs.Merging.{IsRelation, IsJoined};

use crate::places::united;
use crate::size::is_within;
use crate::widening::widen;
use bdd_ops::Ops;
use bdd_table::TableFault;
use std::alloc::Global;
use transitions::Relation;
use var_order::Order;

/// Union of two transition relations, the steps of either: each is widened to the places that the other touches.
pub fn join(
    alloc: Global,
    order: &Order,
    ops: &mut Ops,
    a: &Relation,
    b: &Relation,
) -> Result<Relation, TableFault>
    requires a { IsRelation order.now ops.old a.now }
    requires b { IsRelation order.now ops.old b.now }
    ensures joined { IfOk result (IsJoined order.now ops.old a.now b.now ops.new) }
    ensures kept { Keeps ops.old ops.new }
    ensures reduced { IsReduced ops.new }
{
    let _ = order.blocks();
    let wide = widen(ops, order, a.root, &a.touched, &b.touched)?;
    let other = widen(ops, order, b.root, &b.touched, &a.touched)?;
    let root = ops.disj(wide, other)?;
    let touched = united(alloc, order, &a.touched, &b.touched)?;
    Ok(Relation::of(alloc, root, touched)?)
}

/// Union of two transition relations, the steps of either, if the diagram has at most so many nodes; `None` where it
/// has more.
pub fn join_within(
    alloc: Global,
    order: &Order,
    ops: &mut Ops,
    a: &Relation,
    b: &Relation,
    bound: u64,
) -> Result<Option<Relation>, TableFault>
    requires a { IsRelation order.now ops.old a.now }
    requires b { IsRelation order.now ops.old b.now }
    ensures joined { IfOk result (λ found. IfSome found (IsJoined order.now ops.old a.now b.now ops.new)) }
    ensures within { IfOk result (λ found. IfSome found (λ r. HasAtMost ops.new r.root bound)) }
    ensures large { IfOk result (λ found. IfNone found ((r : RelationOf)
        × IsJoined order.now ops.old a.now b.now ops.new r × (HasAtMost ops.new r.root bound → ⊥))) }
    ensures kept { Keeps ops.old ops.new }
    ensures reduced { IsReduced ops.new }
{
    let joined = join(alloc, order, ops, a, b)?;
    if is_within(alloc, ops.table(), joined.root, bound)? {
        Ok(Some(joined))
    } else {
        Ok(None)
    }
}
