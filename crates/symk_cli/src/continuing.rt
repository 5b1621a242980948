//! Lists that go on from an earlier one.

ghost use Rattle.std.specs.Prelude.{◌≡◌, ◌≤◌, ◌<◌, ◌^◌, All, length, IfOk};
ghost use Rattle.plan_out.specs.Lists.{plans_of};
ghost use Rattle.run_status.specs.Ends.{HasCauses, PutsOutWith};
ghost use Rattle.symk_cli.specs.Goes.{OrGoesOn, last_stated};

use crate::checking::bad_text;
use plan_out::{Blocks, Checked, check_list};
use plan_run::{Earlier, Job, Search, Wanted, list_found};
use run_status::{Status, end_with};
use std::alloc::Global;
use symk_io::Sink;
use symk_task::{List, Memory, Mode, Task};

/// Lists as many plans of the task in the mode as are wanted after those of the blocks, where each of these is good;
/// else puts the verdict on them. Where they miss a plan, the text says what the cheapest such plan costs.
pub fn go_on<K: Sink>(
    alloc: Global,
    task: &Task,
    mode: Mode,
    search: Search,
    wanted: Wanted,
    blocks: &Blocks,
    sink: &mut K,
) -> Status
    requires names { All (λ block. length block.names ≡ length block.ops) blocks.now.list }
    requires least { 1 ≤ wanted.count }
    requires count { wanted.count ≤ 1000000000 }
    ensures goes { PutsOutWith (OrGoesOn task.now mode wanted blocks.now.list) (K.view sink.old)
        (K.view sink.new) result }
    ensures causes { HasCauses result 0 0 (K.view sink.old).faults (K.view sink.new).faults }
{
    // A task fits.
    let _ = task.parts();
    match check_list(alloc, task, mode, blocks) {
        Ok(Checked::Good { .. }) => match earlier_of(alloc, blocks) {
            Ok(earlier) => {
                let job = Job {
                    task,
                    mode,
                    search,
                    wanted,
                    limit: None,
                    earlier: &earlier,
                };
                list_found(alloc, job, sink)
            }
            Err(_) => Status::Memory,
        },
        Ok(Checked::Bad { plan, why }) => {
            end_with(sink, bad_text(alloc, plan, why), Status::BadList)
        }
        Err(_) => Status::Memory,
    }
}

/// The plans of the blocks, and what the last one states to cost.
fn earlier_of(alloc: Global, blocks: &Blocks) -> Result<Earlier, Memory>
    ensures plans { IfOk result (λ earlier. earlier.plans ≡ plans_of blocks.now.list) }
    ensures dearest { IfOk result (λ earlier. earlier.dearest ≡ last_stated blocks.now.list) }
    ensures few { IfOk result (λ earlier. length earlier.plans < 2 ^ 63) }
    ensures cheap { IfOk result (λ _. All (λ block. block.cost < 2 ^ 64) blocks.now.list) }
    ensures held { IfOk result (λ earlier. earlier.dearest < 2 ^ 64) }
{
    let mut plans = Vec::new(alloc);
    let mut dearest = 0;
    'each: for block in blocks.list.as_slice() {
        dearest = block.cost;
        plans.push(block.ops.copy(alloc)?)?;
    }
    Ok(Earlier {
        plans: List::of(plans),
        dearest,
    })
}
