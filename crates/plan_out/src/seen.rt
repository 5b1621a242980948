//! The plans seen so far.

ghost use Rattle.std.specs.Prelude.{◌≡◌, ◌<◌, ◌↔◌, [], IsTrue, IfOk, IfNone};
ghost use Rattle.std.specs.List.Sorted.{IsPermutation, IsNonDecreasing};
ghost use Rattle.symk_task.specs.declared.parts.Mode.{Mode};
ghost use Rattle.plan_out.specs.Checks.{first_of, IsNoted, IsKey, IsSeen};

use indexmap::IndexMap;
use std::alloc::Global;
use std::mem;
use symk_task::{Memory, Mode, Plan};

/// The plans seen so far.
#[derive(Drop)]
pub struct Seen {
    /// For each plan, the number of the first block that had it.
    first: IndexMap<Plan, u64>,
    /// What the last costs; 0 where there is none.
    cost: u64,
}

impl Seen {
    /// No plan was looked at yet.
    pub fn new(alloc: Global) -> Seen
        ensures { (mode : Mode) → IsSeen mode [] result }
    {
        Seen {
            first: IndexMap::new(alloc),
            cost: 0,
        }
    }

    /// The number of the first block with this key; where there is none, this block is it from now on.
    pub fn note(&mut self, key: Plan, number: u64) -> Result<Option<u64>, Memory>
        ensures found { IfOk result (λ earlier. earlier ≡ first_of self.old key) }
        ensures noted { IfOk result (λ earlier. IfNone earlier (IsNoted self.old self.new key number)) }
    {
        if let Some(earlier) = self.first.get(&key) {
            return Ok(Some(*earlier));
        }
        self.first.insert(key, number)?;
        Ok(None)
    }

    /// Whether a block of this cost costs less than the one before; it becomes the one before.
    pub fn is_cheaper(&mut self, cost: u64) -> bool
        ensures cheaper { IsTrue result ↔ (cost < self.old.cost) }
        ensures cost { self.new.cost ≡ cost }
        ensures first { self.new.first ≡ self.old.first }
    {
        let before = mem::replace(&mut self.cost, cost);
        cost < before
    }
}

/// What two plans have in common exactly where they count as one: the plan, or for `Unordered` its operators in rising
/// order.
pub fn key_of(alloc: Global, mode: Mode, plan: &Plan) -> Result<Plan, Memory>
    ensures { IfOk result (IsKey mode plan.now) }
{
    match mode {
        Mode::TopK | Mode::Loopless => plan.copy(alloc),
        Mode::Unordered => sorted(alloc, plan),
    }
}

/// The operator numbers, rising.
fn sorted(alloc: Global, plan: &Plan) -> Result<Plan, Memory>
    ensures permutation { IfOk result (IsPermutation plan.now) }
    ensures rising { IfOk result IsNonDecreasing }
{
    let mut operators = Vec::from_slice(alloc, plan.as_slice())?;
    operators.sort_unstable();
    Ok(Plan::of(operators))
}
