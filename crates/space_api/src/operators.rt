//! Lists of operators.

ghost use Rattle.std.specs.Prelude.{IfOk};
ghost use Rattle.space_api.specs.Operators.{CountsTo};

use std::alloc::Global;
use symk_task::Memory;

/// The numbers of so many operators, rising: 0, 1 and so on. Memory is the only refusal.
pub fn all_operators(alloc: Global, operators: u32) -> Result<Vec<u32>, Memory>
    ensures { IfOk result (λ ops. CountsTo operators ops.items) }
{
    let mut all = Vec::new(alloc);
    'operators: for operator in 0..operators {
        all.push(operator)?;
    }
    Ok(all)
}
