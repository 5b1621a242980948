//! Whether a set of states is inductive.

ghost use Rattle.std.specs.Prelude.{◌≡◌, ◌<◌, ◌↔◌, ℕ, List, length, IfOk, OnOk, MatchBool, MatchOption};
ghost use Rattle.bdd_table.specs.Diagram.{Bits, means, Keeps, IsReduced};
ghost use Rattle.symk_task.specs.Variables.{IsState};
ghost use Rattle.var_order.specs.Layout.{IsOrderOf};
ghost use Rattle.bdd_sets.specs.Sets.{IsSetOfStates};
ghost use Rattle.axiom_layers.specs.Roots.{AreRoots};
ghost use Rattle.transitions.specs.Relations.{IsSet, HoldsForState};
ghost use Rattle.certificates.specs.Inductive.{Begins, ClosedBy};
ghost use Rattle.cert_check.specs.Judging.{LeavesBy, FirstLeaves, MeetsGoal, HasNoGoalState, JudgesCert};

use crate::room::make_room;
use axiom_layers::Derived;
use bdd_ops::Ops;
use bdd_sets::{has, valid_set};
use bdd_table::{FALSE, Id};
use std::alloc::Global;
use symk_task::{Memory, Task};
use transitions::{image, relation};
use var_order::Order;

/// Which part of being inductive fails first.
#[derive(Clone, Copy, Debug, PartialEq, Eq)]
pub enum CertPart {
    /// The initial state isn't in the set.
    Initial,
    /// This is the first operator that leads from a member out of the set.
    Step { op: u32 },
    /// The goal holds in a member.
    Goal,
}

/// Whether the states that a certificate names are inductive.
#[derive(Clone, Copy, Debug, PartialEq, Eq)]
pub enum CertVerdict {
    /// They are, so no list of operators is a plan.
    Yes,
    /// They aren't.
    No { part: CertPart },
}

/// Whether the operator leads from a member out of the members.
fn leads_out(
    alloc: Global,
    task: &Task,
    order: &Order,
    ops: &mut Ops,
    derived: &Derived,
    members: Id,
    op: u32,
) -> Result<bool, Memory>
    requires order { IsOrderOf task.now order.now }
    requires roots { AreRoots task.now order.now ops.old derived.now }
    requires members { members < length ops.old }
    requires set { IsSet order.now (means ops.old members) }
    requires op { op < length task.now.operators }
    ensures says { IfOk result (λ out. MatchBool out
        (LeavesBy task.now (HoldsForState order.now (means ops.old members)) op)
        (ClosedBy task.now (HoldsForState order.now (means ops.old members)) op)) }
    ensures kept { Keeps ops.old ops.new }
    ensures reduced { IsReduced ops.new }
{
    let _ = task.parts();
    let relation = relation(alloc, task, order, ops, derived, op)?;
    let reached = image(ops, &relation, members)?;
    let out = ops.minus(reached, members)?;
    Ok(out != FALSE)
}

/// The first operator that leads from a member out of the members. Where none does, the members may stand elsewhere
/// afterwards, and the roots of the derived variables too.
fn first_leaving(
    alloc: Global,
    task: &Task,
    order: &Order,
    ops: &mut Ops,
    derived: &mut Derived,
    members: &mut Id,
) -> Result<Option<u32>, Memory>
    requires order { IsOrderOf task.now order.now }
    requires roots { AreRoots task.now order.now ops.old derived.old }
    requires members { members.old < length ops.old }
    requires set { IsSet order.now (means ops.old members.old) }
    ensures says { IfOk result (λ found. MatchOption found
        ((a : ℕ) → ClosedBy task.now (HoldsForState order.now (means ops.old members.old)) a)
        (FirstLeaves task.now (HoldsForState order.now (means ops.old members.old)))) }
    ensures known { OnOk result (members.new < length ops.new) }
    ensures same { OnOk result ((b : Bits) → means ops.new members.new b ≡ means ops.old members.old b) }
    ensures set { OnOk result (IsSet order.now (means ops.new members.new)) }
    ensures roots { OnOk result (AreRoots task.now order.now ops.new derived.new) }
    ensures reduced { IsReduced ops.new }
{
    let mut last = ops.table().held();
    let _ = task.parts();
    'operators: for op in 0..task.operators() {
        if leads_out(alloc, task, order, ops, derived, *members, op)? {
            return Ok(Some(op));
        }
        last = make_room(alloc, ops, derived, members, last)?;
    }
    Ok(None)
}

/// Whether the goal holds in a member.
fn meets_goal(
    task: &Task,
    order: &Order,
    ops: &mut Ops,
    derived: &Derived,
    members: Id,
) -> Result<bool, Memory>
    requires order { IsOrderOf task.now order.now }
    requires roots { AreRoots task.now order.now ops.old derived.now }
    requires members { members < length ops.old }
    requires set { IsSet order.now (means ops.old members) }
    ensures says { IfOk result (λ met. MatchBool met
        (MeetsGoal task.now (HoldsForState order.now (means ops.old members)))
        (HasNoGoalState task.now (HoldsForState order.now (means ops.old members)))) }
    ensures kept { Keeps ops.old ops.new }
    ensures reduced { IsReduced ops.new }
{
    let goals = derived.facts_set(task, order, ops, task.parts().goal.as_slice())?;
    let met = ops.conj(members, goals)?;
    Ok(met != FALSE)
}

/// Whether a set is inductive, and else which part fails first, where the initial state is a member.
fn judge_members(
    alloc: Global,
    task: &Task,
    order: &Order,
    ops: &mut Ops,
    derived: &mut Derived,
    members: Id,
) -> Result<CertVerdict, Memory>
    requires order { IsOrderOf task.now order.now }
    requires roots { AreRoots task.now order.now ops.old derived.old }
    requires members { members < length ops.old }
    requires set { IsSet order.now (means ops.old members) }
    requires begins { Begins task.now (HoldsForState order.now (means ops.old members)) }
    ensures { IfOk result (JudgesCert task.now (HoldsForState order.now (means ops.old members))) }
{
    let _ = task.parts();
    let mut members = members;
    match first_leaving(alloc, task, order, ops, derived, &mut members)? {
        Some(op) => Ok(CertVerdict::No {
            part: CertPart::Step { op },
        }),
        None => {
            if meets_goal(task, order, ops, derived, members)? {
                Ok(CertVerdict::No {
                    part: CertPart::Goal,
                })
            } else {
                Ok(CertVerdict::Yes)
            }
        }
    }
}

/// The states of a set of bits, and no bits that are those of no state.
fn members_of(task: &Task, order: &Order, ops: &mut Ops, set: Id) -> Result<Id, Memory>
    requires order { IsOrderOf task.now order.now }
    requires known { set < length ops.old }
    requires states { IsSetOfStates order.now ops.old set }
    ensures known { IfOk result (λ members. members < length ops.new) }
    ensures set { IfOk result (λ members. IsSet order.now (means ops.new members)) }
    ensures same { IfOk result (λ members. (s : List ℕ) → IsState task.now s
        → HoldsForState order.now (means ops.old set) s ↔ HoldsForState order.now (means ops.new members) s) }
    ensures kept { Keeps ops.old ops.new }
    ensures reduced { IsReduced ops.new }
{
    let _ = task.parts();
    let valid = valid_set(ops, order)?;
    Ok(ops.conj(valid, set)?)
}

/// Inductive invariant test: whether a set is inductive, and else which part fails first. What it says of bits that
/// are those of no state doesn't matter.
pub fn judge(
    alloc: Global,
    task: &Task,
    order: &Order,
    ops: &mut Ops,
    derived: &mut Derived,
    set: Id,
) -> Result<CertVerdict, Memory>
    requires order { IsOrderOf task.now order.now }
    requires roots { AreRoots task.now order.now ops.old derived.old }
    requires known { set < length ops.old }
    requires states { IsSetOfStates order.now ops.old set }
    ensures { IfOk result (JudgesCert task.now (HoldsForState order.now (means ops.old set))) }
{
    let _ = task.parts();
    let start = task.start(alloc)?;
    if !has(ops, order, set, &start) {
        return Ok(CertVerdict::No {
            part: CertPart::Initial,
        });
    }
    let members = members_of(task, order, ops, set)?;
    judge_members(alloc, task, order, ops, derived, members)
}
