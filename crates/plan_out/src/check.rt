//! Whether the blocks of a text are a list of plans of a mode, each once and by cost.

ghost use Rattle.std.specs.Prelude.{◌≡◌, ◌+◌, [], ◌∷◌, ◌++◌, List, All, IfOk, MatchOption, length};
ghost use Rattle.plan_out.specs.declared.blocks.ReadBlock.{ReadBlock};
ghost use Rattle.plan_out.specs.Checks.{IsSpelling, IsSeen, Passes};
ghost use Rattle.plan_out.specs.Fails.{AreNamed, IsFirstReason, Finds};
ghost use Rattle.symk_task.specs.Fits.{Fits};
ghost use Rattle.task_run.specs.Counted.{AreRulesOf};
ghost use Rattle.task_run.specs.Verdicts.{AreOperators};

use crate::blocks::{Blocks, ReadBlock};
use crate::run::{Outcome, run};
use crate::seen::{Seen, key_of};
use crate::steps::{cost_fits, too_large, wrong_name};
use std::alloc::Global;
use symk_task::{Memory, Mode, Task};
use task_run::Rules;

/// Why a block is no next block of a list. Steps and plans are counted from 1.
#[derive(Clone, Copy, Debug, PartialEq, Eq)]
pub enum Why {
    /// The first operator that the task doesn't have.
    NoSuchOperator { step: u64 },
    /// The first step line that doesn't have its operator's name.
    WrongName { step: u64 },
    /// The first operator that doesn't apply.
    StopsAt { step: u64 },
    /// The goal doesn't hold at the end.
    MissesGoal,
    /// The cost line isn't the plan's; what the plan costs.
    WrongCost { cost: u128 },
    /// The first earlier block that counts as one with it.
    Repeats { earlier: u64 },
    /// It costs less than the block before.
    Cheaper,
    /// The first step after which a state is one that the run was in before.
    Loops { step: u64 },
}

/// What a check of a list says.
#[derive(Clone, Copy, Debug, PartialEq, Eq)]
pub enum Checked {
    /// Each of the `n` blocks is good.
    Good { n: u64 },
    /// The first block that fails, and the first reason why.
    Bad { plan: u64, why: Why },
}

/// Whether the blocks are plans of the mode, no two counting as one, by rising cost, and each printed as its plan is.
/// Where they aren't, the first block that fails, and of the reasons in the order of `Why` the first that is true of
/// it. It says nothing of plans that aren't among the blocks.
pub fn check_list(
    alloc: Global,
    task: &Task,
    mode: Mode,
    blocks: &Blocks,
) -> Result<Checked, Memory>
    requires { All (λ b. length b.names ≡ length b.ops) blocks.now.list }
    ensures { IfOk result (Finds task.now mode blocks.now.list) }
{
    let blocks = blocks.list.as_slice();
    let rules = Rules::of(alloc, task)?;
    let mut seen = Seen::new(alloc);
    for i in 0..blocks.len() {
        let plan = i as u64 + 1;
        match check_next(alloc, task, &rules, mode, &blocks[i], plan, &mut seen)? {
            Some(why) => return Ok(Checked::Bad { plan, why }),
            None => {}
        }
    }
    Ok(Checked::Good {
        n: blocks.len() as u64,
    })
}

/// Why the block fails where the ones before it are good. It becomes one of those seen.
fn check_next(
    alloc: Global,
    task: &Task,
    rules: &Rules,
    mode: Mode,
    block: &ReadBlock,
    plan: u64,
    seen: &mut Seen,
) -> Result<Option<Why>, Memory>
    requires rules { AreRulesOf task.now rules.now }
    requires names { length block.now.names ≡ length block.now.ops }
    ensures fits { Fits task.now }
    ensures next { IfOk result (λ why. (before : List ReadBlock) → IsSeen mode before seen.old
        → plan ≡ length before + 1 →
        MatchOption why
        (Passes task.now mode before block.now × IsSeen mode (before ++ block.now ∷ []) seen.new)
        (IsFirstReason task.now mode before block.now)) }
{
    match misspelled(task, block) {
        Some(why) => return Ok(Some(why)),
        None => {}
    }
    let back = match run(alloc, task, rules, mode, &block.ops)? {
        Outcome::StopsAt { step } => return Ok(Some(Why::StopsAt { step })),
        Outcome::MissesGoal => return Ok(Some(Why::MissesGoal)),
        Outcome::Reaches { back } => back,
    };
    let cost = task.plan_cost(&block.ops);
    if !cost_fits(task, block, cost) {
        return Ok(Some(Why::WrongCost { cost }));
    }
    match seen.note(key_of(alloc, mode, &block.ops)?, plan)? {
        Some(earlier) => return Ok(Some(Why::Repeats { earlier })),
        None => {}
    }
    if seen.is_cheaper(block.cost) {
        return Ok(Some(Why::Cheaper));
    }
    match back {
        Some(step) => Ok(Some(Why::Loops { step })),
        None => Ok(None),
    }
}

/// The first step whose operator isn't there, else the first that has another name.
fn misspelled(task: &Task, block: &ReadBlock) -> Option<Why>
    requires { length block.now.names ≡ length block.now.ops }
    ensures fits { Fits task.now }
    ensures spelling { MatchOption result (AreOperators task.now block.now.ops × AreNamed task.now block.now)
        (IsSpelling task.now block.now) }
{
    let numbers = block.ops.as_slice();
    let operators = task.parts().operators.as_slice();
    if let Some(step) = too_large(numbers, task.operators()) {
        return Some(Why::NoSuchOperator { step });
    }
    match wrong_name(operators, numbers, block.names.as_slice()) {
        Some(step) => Some(Why::WrongName { step }),
        None => None,
    }
}
