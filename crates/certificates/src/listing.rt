//! The nodes of a table, as those of a certificate.

ghost use Rattle.std.specs.Prelude.{◌≡◌, ◌+◌, ◌^◌, ◌<◌, ℕ, List, length, IfOk};
ghost use Rattle.bdd_table.specs.Diagram.{Bits, means, IsReduced};
ghost use Rattle.symk_task.specs.Variables.{IsState};
ghost use Rattle.var_order.specs.Layout.{IsOrderOf};
ghost use Rattle.var_order.specs.Codes.{IsCode};
ghost use Rattle.bdd_sets.specs.Sets.{IsSetOfStates};
ghost use Rattle.certificates.specs.Meaning.{holds, state_bits};
ghost use Rattle.certificates.specs.Texts.{state_width, IsInOrder};
ghost use Rattle.certificates.specs.Tidy.{IsTidy};
ghost use Rattle.certificates.specs.Listed.{listed};

use crate::levels::indexes_of;
use crate::moving::rebuilt;
use crate::node::{CertNode, Certificate};
use crate::places::places_of;
use bdd_ops::{CACHE, Ops};
use bdd_table::{Id, Table};
use std::alloc::Global;
use symk_task::{List, Memory, Task};
use var_order::Order;

/// The nodes of a table, from the first on.
fn nodes_of(alloc: Global, table: &Table) -> Result<List<CertNode>, Memory>
    ensures are { IfOk result (λ nodes. nodes ≡ listed table.now) }
    ensures few { IfOk result (λ nodes. length nodes + 2 < 2 ^ 63) }
{
    let mut nodes = List::of(Vec::new(alloc));
    for i in 0..table.held() {
        let node = table.get(i + 2);
        nodes.push(CertNode {
            bit: node.level,
            lo: u64::from(node.lo),
            hi: u64::from(node.hi),
        })?;
    }
    Ok(nodes)
}

/// The certificate that names the states of a set.
pub fn cert_of(
    alloc: Global,
    task: &Task,
    order: &Order,
    table: &Table,
    set: Id,
) -> Result<Certificate, Memory>
    requires order { IsOrderOf task.now order.now }
    requires set { set < length table.now }
    requires states { IsSetOfStates order.now table.now set }
    ensures in_order { IfOk result (IsInOrder (state_width task.now)) }
    ensures few { IfOk result (λ cert. length cert.nodes + 2 < 2 ^ 63) }
    ensures tidy { IfOk result IsTidy }
    ensures names { IfOk result (λ cert. (s : List ℕ) (b : Bits) → IsState task.now s → IsCode order.now 0 s b
        → holds cert (state_bits task.now s) ≡ means table.now set b) }
{
    let _ = table.held();
    let places = places_of(alloc, task, order)?;
    let indexes = indexes_of(alloc, &places, order.bits())?;
    let mut ops = Ops::new(Table::new(alloc)?, CACHE)?;
    let mut roots = [rebuilt(alloc, table, &mut ops, &indexes, set)?];
    ops.collect(&mut roots)?;
    let nodes = nodes_of(alloc, ops.table())?;
    Ok(Certificate {
        nodes,
        root: roots[0] as u64,
    })
}
