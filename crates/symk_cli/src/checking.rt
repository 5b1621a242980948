//! The verdict on a list of plans.

ghost use Rattle.std.specs.Prelude.{◌≡◌, ◌++◌, ◌-◌, All, length, IfOk, OnOk};
ghost use Rattle.run_status.specs.Ends.{HasCauses, OrFront, PutsOutWith};
ghost use Rattle.symk_cli.specs.Verdicts.{Verdict, verdict_text, why_text};

use crate::pieces::{push_cost_after, push_number_after};
use plan_out::{Blocks, Checked, Why, check_list};
use run_status::{Status, end_with};
use std::alloc::Global;
use symk_io::Sink;
use symk_task::{Memory, Mode, Task};
use symk_text::{Text, push_bytes, push_number};

/// Puts the verdict on the list: that it is good, or the first block that fails, and why.
pub fn judge<K: Sink>(
    alloc: Global,
    task: &Task,
    mode: Mode,
    blocks: &Blocks,
    sink: &mut K,
) -> Status
    requires { All (λ block. length block.names ≡ length block.ops) blocks.now.list }
    ensures verdict { PutsOutWith (OrFront (Verdict task.now mode blocks.now.list)) (K.view sink.old)
        (K.view sink.new) result }
    ensures causes { HasCauses result 0 0 (K.view sink.old).faults (K.view sink.new).faults }
{
    match check_list(alloc, task, mode, blocks) {
        Ok(Checked::Good { n }) => end_with(sink, good_text(alloc, n), Status::Good),
        Ok(Checked::Bad { plan, why }) => {
            end_with(sink, bad_text(alloc, plan, why), Status::BadList)
        }
        Err(_) => Status::Memory,
    }
}

/// `good N`
#[tactic(auto, unfolding(crate::specs::Verdicts::verdict_text))]
fn good_text(alloc: Global, n: u64) -> Result<Text, Memory>
    ensures { IfOk result (λ text. text ≡ verdict_text (Checked.Good n)) }
{
    let mut text = Text::new(alloc);
    push_bytes(&mut text, b"good ")?;
    push_number(&mut text, n)?;
    push_bytes(&mut text, b"\n")?;
    Ok(text)
}

/// `bad plan I: WHY`
#[tactic(auto, unfolding(crate::specs::Verdicts::verdict_text))]
pub fn bad_text(alloc: Global, plan: u64, why: Why) -> Result<Text, Memory>
    ensures { IfOk result (λ text. text ≡ verdict_text (Checked.Bad plan why)) }
{
    let mut text = Text::new(alloc);
    push_bytes(&mut text, b"bad plan ")?;
    push_number(&mut text, plan)?;
    push_bytes(&mut text, b": ")?;
    push_why(&mut text, plan, why)?;
    push_bytes(&mut text, b"\n")?;
    Ok(text)
}

#[tactic(auto, unfolding(crate::specs::Verdicts::why_text))]
fn push_why(text: &mut Text, plan: u64, why: Why) -> Result<(), Memory>
    ensures { OnOk result (text.new ≡ text.old ++ why_text plan why) }
{
    match why {
        Why::NoSuchOperator { step } => push_number_after(text, b"no such operator at step ", step),
        Why::WrongName { step } => push_number_after(text, b"other name at step ", step),
        Why::StopsAt { step } => push_number_after(text, b"does not apply at step ", step),
        Why::MissesGoal => push_bytes(text, b"misses the goal"),
        Why::WrongCost { cost } => push_cost_after(text, b"costs ", cost),
        Why::Repeats { earlier } => push_number_after(text, b"repeats plan ", earlier),
        Why::Cheaper => push_number_after(text, b"cheaper than plan ", plan.saturating_sub(1)),
        Why::Loops { step } => push_number_after(text, b"loops at step ", step),
    }
}
