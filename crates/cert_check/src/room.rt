//! Nodes that no set needs any more are thrown away while a certificate is checked.

ghost use Rattle.std.specs.Prelude.{◌≡◌, ◌<◌, ◌≤◌, ◌++◌, ◌∷◌, [], ℕ, length, slice_index, EachIndex, IfOk, OnOk};
ghost use Rattle.bdd_table.specs.Collected.{IsMoved};
ghost use Rattle.bdd_table.specs.Diagram.{IsReduced};
ghost use Rattle.cert_check.specs.Carried.{AreCarried};

use axiom_layers::Derived;
use bdd_ops::Ops;
use bdd_table::Id;
use std::alloc::Global;
use symk_task::Memory;

/// Below so many nodes a collection isn't worth its time: it forgets the results that the next operators ask for.
const FEW: u128 = 200_000;

/// Gives each variable the root at its place.
fn put_roots(derived: &mut Derived, roots: &[Id])
    requires most { length derived.old ≤ 65536 }
    requires enough { length derived.old ≤ length roots.now }
    ensures count { length derived.new ≡ length derived.old }
    ensures each { EachIndex derived.old (λ var. slice_index derived.new var ≡ slice_index roots.now var) }
{
    let count = derived.roots().len();
    'variables: for var in 0..count {
        derived.set_root(var as u32, roots[var]);
    }
}

/// The roots of the derived variables, and the members behind them.
fn all_roots(alloc: Global, derived: &Derived, members: Id) -> Result<Vec<Id>, Memory>
    ensures { IfOk result (λ roots. roots.items ≡ derived.now ++ members ∷ []) }
{
    let mut roots = Vec::from_slice(alloc, derived.roots())?;
    roots.push(members)?;
    Ok(roots)
}

/// Collects for these roots, and gives where they are then.
fn moved(ops: &mut Ops, roots: Vec<Id>) -> Result<Vec<Id>, Memory>
    requires { EachIndex roots.items (λ i. slice_index roots.items i < length ops.old) }
    ensures as_long { IfOk result (λ places. length places.items ≡ length roots.items) }
    ensures moved { IfOk result (λ places. EachIndex roots.items
        (λ i. IsMoved ops.old ops.new (slice_index roots.items i) (slice_index places.items i))) }
    ensures reduced { IsReduced ops.new }
{
    let mut places = roots;
    ops.collect(&mut places)?;
    Ok(places)
}

/// Throws away the nodes that neither the members nor the derived variables need. Where the members stand then.
fn collect(alloc: Global, ops: &mut Ops, derived: &mut Derived, members: Id) -> Result<Id, Memory>
    requires most { length derived.old ≤ 65536 }
    requires roots { EachIndex derived.old (λ var. slice_index derived.old var < length ops.old) }
    requires members { members < length ops.old }
    ensures carried { IfOk result (AreCarried ops.old derived.old members ops.new derived.new) }
    ensures reduced { IsReduced ops.new }
{
    let _ = ops.table();
    let roots = all_roots(alloc, derived, members)?;
    let places = moved(ops, roots)?;
    let at = places.as_slice();
    let count = derived.roots().len();
    put_roots(derived, at);
    Ok(at[count])
}

/// Garbage collection where more nodes are held than twice those held last, and 200,000. How many are held then, or
/// were held last.
pub fn make_room(
    alloc: Global,
    ops: &mut Ops,
    derived: &mut Derived,
    members: &mut Id,
    last: usize,
) -> Result<usize, Memory>
    requires most { length derived.old ≤ 65536 }
    requires roots { EachIndex derived.old (λ var. slice_index derived.old var < length ops.old) }
    requires members { members.old < length ops.old }
    ensures carried { OnOk result (AreCarried ops.old derived.old members.old ops.new derived.new members.new) }
    ensures reduced { IsReduced ops.new }
{
    let held = ops.table().held();
    if held as u128 <= 2 * last as u128 + FEW {
        return Ok(last);
    }
    *members = collect(alloc, ops, derived, *members)?;
    Ok(ops.table().held())
}
