//! How many nodes a diagram has.

ghost use Rattle.std.specs.Prelude.{◌≡◌, ℕ, ◌+◌, ◌<◌, [], ◌∷◌, List, length, IfOk};
ghost use Rattle.bdd_table.specs.Collected.{AreReached};

use bdd_ops::Ops;
use bdd_table::{Id, TableFault};

/// How many nodes the Id reaches, itself counted and the constants not. All others are thrown away.
pub fn of_root(ops: &mut Ops, root: Id) -> Result<usize, TableFault>
    requires { root < length ops.old }
    ensures { IfOk result (λ n. (ids : List ℕ) → AreReached ops.old (root ∷ []) ids → n ≡ length ids) }
{
    let mut roots = [root];
    ops.collect(&mut roots)?;
    Ok(ops.table().held())
}
