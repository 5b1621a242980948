//! A certificate is written and put.

ghost use Rattle.std.specs.Prelude.{◌≡◌};
ghost use Rattle.run_status.specs.Ends.{HasCauses, OrFront, PutsOutWith};
ghost use Rattle.cert_run.specs.Proofs.{Proves, has_plan_text};

use cert_out::write_cert;
use run_status::{Status, end};
use std::alloc::Global;
use symk_io::Sink;
use symk_task::Task;

/// Puts a certificate that the task has no plan, or says that it has one.
///
/// `Status::Proved` comes only where the task has no plan, `Status::HasPlan` only where it has one, and no other
/// status comes but `WriteFault` and `Memory`.
pub fn prove<K: Sink>(alloc: Global, task: &Task, sink: &mut K) -> Status
    ensures answer { PutsOutWith (OrFront (Proves task.now)) (K.view sink.old) (K.view sink.new) result }
    ensures causes { HasCauses result 0 0 (K.view sink.old).faults (K.view sink.new).faults }
{
    match write_cert(alloc, task) {
        Ok(Some(text)) => end(sink, &text, Status::Proved),
        Ok(None) => end(sink, has_plan(), Status::HasPlan),
        Err(_) => Status::Memory,
    }
}

#[tactic(auto, unfolding(crate::specs::Proofs::has_plan_text))]
fn has_plan() -> &'static [u8]
    ensures { result.now ≡ has_plan_text }
{
    b"has a plan\n"
}
