//! What a list of plans costs.

ghost use Rattle.std.specs.Prelude.{◌≡◌, All, IfOk, IfSome, length, vec_len};

use plan_out::{Blocks, Checked, ReadBlock, check_list};
use std::alloc::Global;
use symk_task::{List, Memory, Mode, Name, Plan, Task};
use task_run::{Verdict, run_plan};

/// The name of the operator, empty where there is none.
fn name_of(alloc: Global, task: &Task, op: u32) -> Result<Name, Memory> {
    match task.parts().operators.as_slice().get(op as usize) {
        Some(operator) => operator.name.copy(alloc),
        None => Ok(Name::of(Vec::new(alloc))),
    }
}

/// The names of the plan's operators.
fn names_of(alloc: Global, task: &Task, plan: &[u32]) -> Result<List<Name>, Memory>
    ensures { IfOk result (λ names. length names ≡ length plan.now) }
{
    let mut names = Vec::new(alloc);
    'operators: for op in plan {
        names.push(name_of(alloc, task, *op)?)?;
    }
    Ok(List::of(names))
}

/// The block of a text that prints the plan. None where the operators are no plan, or cost more than 64 bits hold.
fn block_of(alloc: Global, task: &Task, plan: &Plan) -> Result<Option<ReadBlock>, Memory>
    ensures { IfOk result (λ o. IfSome o (λ b. length b.names ≡ length b.ops)) }
{
    let names = names_of(alloc, task, plan.as_slice())?;
    let ops = plan.copy(alloc)?;
    let Verdict::Reaches { cost } = run_plan(alloc, task, plan)? else {
        return Ok(None);
    };
    let Ok(cost) = u64::try_from(cost) else {
        return Ok(None);
    };
    let unit = task.unit();
    Ok(Some(ReadBlock {
        ops,
        names,
        cost,
        unit,
    }))
}

/// The blocks of a text that prints the plans.
fn blocks_of(alloc: Global, task: &Task, plans: &[Plan]) -> Result<Option<Blocks>, Memory>
    ensures { IfOk result (λ o. IfSome o (λ b. All (λ r. length r.names ≡ length r.ops) b.list)) }
{
    let mut blocks = Vec::new(alloc);
    'plans: for plan in plans {
        match block_of(alloc, task, plan)? {
            Some(block) => blocks.push(block)?,
            None => return Ok(None),
        }
    }
    Ok(Some(Blocks {
        list: List::of(blocks),
    }))
}

/// What each of the blocks costs.
fn costs_in(alloc: Global, blocks: &Blocks) -> Result<Vec<u64>, Memory> {
    let mut costs = Vec::new(alloc);
    for block in blocks.list.as_slice() {
        costs.push(block.cost)?;
    }
    Ok(costs)
}

/// What each plan costs, where they are a good list of the mode by `check_list`. None where they are not.
pub(crate) fn costs_of(
    alloc: Global,
    task: &Task,
    mode: Mode,
    plans: &[Plan],
) -> Result<Option<Vec<u64>>, Memory> {
    let Some(blocks) = blocks_of(alloc, task, plans)? else {
        return Ok(None);
    };
    match check_list(alloc, task, mode, &blocks)? {
        Checked::Good { n: _ } => Ok(Some(costs_in(alloc, &blocks)?)),
        Checked::Bad { plan: _, why: _ } => Ok(None),
    }
}
