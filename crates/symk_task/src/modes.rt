//! Which plans count as one.

ghost use Rattle.std.specs.Prelude.{◌≡◌, ◌↔◌, IsTrue, IfOk};
ghost use Rattle.std.specs.List.Sorted.{IsPermutation, IsNonDecreasing};
ghost use Rattle.symk_task.specs.Plans.{Same};

use crate::list::{Memory, Plan};
use crate::parts::Mode;
use std::alloc::Global;

/// Whether two plans count as one by the mode: where their lists are equal, or, by `Unordered`, where each operator
/// stands equally often in both.
#[tactic(auto, using(crate::proofs::Rising::sorted_same))]
pub fn same(alloc: Global, mode: Mode, p: &Plan, q: &Plan) -> Result<bool, Memory>
    ensures { IfOk result (λ same. IsTrue same ↔ Same mode p.now q.now) }
{
    match mode {
        Mode::TopK | Mode::Loopless => Ok(p == q),
        Mode::Unordered => Ok(sorted(alloc, p)? == sorted(alloc, q)?),
    }
}

/// The operator numbers, rising.
fn sorted(alloc: Global, plan: &Plan) -> Result<Plan, Memory>
    ensures permutation { IfOk result (IsPermutation plan.now) }
    ensures rising { IfOk result IsNonDecreasing }
{
    let mut operators = Vec::from_slice(alloc, plan.as_slice())?;
    operators.sort_unstable();
    Ok(Plan::of(operators))
}
