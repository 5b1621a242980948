//! The states that a certificate names, as a diagram.

ghost use Rattle.std.specs.Prelude.{◌≡◌, ◌<◌, length, All, IfOk, if◌then◌else◌, slice_index};
ghost use Rattle.bdd_table.specs.Diagram.{Bits, means, Keeps, IsReduced};
ghost use Rattle.var_order.specs.Layout.{bits, level_at};
ghost use Rattle.certificates.specs.Meaning.{holds};
ghost use Rattle.certificates.specs.Texts.{IsInOrder};
ghost use Rattle.certificates.specs.Places.{bits_at};

use bdd_ops::Ops;
use bdd_table::{FALSE, Id, TRUE};
use certificates::{CertNode, Certificate, choice};
use std::alloc::Global;
use symk_task::Memory;
use var_order::Order;

/// What a node says, where the diagrams of the numbers before it are these.
fn node_set(
    ops: &mut Ops,
    order: &Order,
    places: &[u32],
    ids: &[Id],
    node: CertNode,
) -> Result<Id, Memory>
    requires places { All (λ place. place < bits order.now) places.now }
    requires ids { All (λ id. id < length ops.old) ids.now }
    requires bit { node.bit < length places.now }
    requires lo { node.lo < length ids.now }
    requires hi { node.hi < length ids.now }
    ensures known { IfOk result (λ id. id < length ops.new) }
    ensures meaning { IfOk result (λ id. (b : Bits) → means ops.new id b
        ≡ (if b (level_at 0 (slice_index places.now node.bit)) then means ops.old
        (slice_index ids.now node.hi) b else means ops.old (slice_index ids.now node.lo) b)) }
    ensures kept { Keeps ops.old ops.new }
    ensures reduced { IsReduced ops.new }
{
    let _bits = order.bits();
    let level = order.level_now(places[node.bit as usize]);
    choice(ops, level, ids[node.lo as usize], ids[node.hi as usize])
}

/// The states that the certificate names, and maybe bits that are those of no state. The places are those of its bits.
pub fn set_of(
    alloc: Global,
    ops: &mut Ops,
    order: &Order,
    places: &[u32],
    cert: &Certificate,
) -> Result<Id, Memory>
    requires places { All (λ place. place < bits order.now) places.now }
    requires cert { IsInOrder (length places.now) cert.now }
    ensures known { IfOk result (λ id. id < length ops.new) }
    ensures meaning { IfOk result (λ id. (b : Bits) → means ops.new id b ≡ holds cert.now (bits_at places.now b)) }
    ensures kept { Keeps ops.old ops.new }
    ensures reduced { IsReduced ops.new }
{
    let _ = ops.table();
    let mut ids: Vec<Id> = Vec::new(alloc);
    ids.push(FALSE)?;
    ids.push(TRUE)?;
    let nodes = cert.nodes.as_slice();
    'nodes: for i in 0..nodes.len() {
        let id = node_set(ops, order, places, &ids, nodes[i])?;
        ids.push(id)?;
    }
    Ok(ids[cert.root as usize])
}
