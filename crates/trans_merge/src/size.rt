//! How many nodes a diagram has.

ghost use Rattle.std.specs.Prelude.{◌≡◌, ◌<◌, ◌≤◌, ◌↔◌, ◌⊎◌, ℕ, length, IfOk, OnOk, IsTrue};
ghost use Rattle.std.specs.Ordering.{nat_cmp};
ghost use Rattle.std.specs.BTreeSet.{contains};
ghost use Rattle.trans_merge.specs.Size.{HasAtMost};

use bdd_table::{Id, Table, TableFault};
use std::alloc::Global;
use std::collections::BTreeSet;

/// Puts the Id into the set, if it is no constant.
fn put(waiting: &mut BTreeSet<Id>, id: Id) -> Result<(), TableFault>
    ensures { OnOk result ((q : ℕ) → IsTrue (contains nat_cmp waiting.new q)
        ↔ (((q ≡ id) × (2 ≤ id)) ⊎ IsTrue (contains nat_cmp waiting.old q))) }
{
    if id < 2 {
        return Ok(());
    }
    waiting.insert(id)?;
    Ok(())
}

/// Whether the Id reaches at most so many nodes, itself counted and the constants not. The nodes are visited from the
/// greatest Id down, so that each is visited once, and no more of them than the bound.
pub fn is_within(alloc: Global, table: &Table, root: Id, bound: u64) -> Result<bool, TableFault>
    requires { root < length table.now }
    ensures { IfOk result (λ is. IsTrue is ↔ HasAtMost table.now root bound) }
{
    let _ = table.held();
    let mut waiting = BTreeSet::new(alloc);
    put(&mut waiting, root)?;
    'nodes: for _ in 0..bound {
        let Some(id) = waiting.pop_last() else {
            return Ok(true);
        };
        put(&mut waiting, table.lo(id))?;
        put(&mut waiting, table.hi(id))?;
    }
    Ok(waiting.is_empty())
}
