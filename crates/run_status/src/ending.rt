//! The texts that end a run.

ghost use Rattle.std.specs.Prelude.{◌≡◌, MatchResult};
ghost use Rattle.run_status.specs.Ends.{EndsWithText, HasCauses};

use crate::status::Status;
use symk_io::{IoFault, Sink, put};
use symk_task::Memory;
use symk_text::Text;

/// The status after a fault of the sink.
pub fn status_of(fault: IoFault) -> Status
    ensures failed { fault ≡ IoFault.Failed → result ≡ Status.WriteFault }
    ensures memory { fault ≡ IoFault.Memory → result ≡ Status.Memory }
{
    match fault {
        IoFault::Failed => Status::WriteFault,
        IoFault::Memory => Status::Memory,
    }
}

/// Puts the text that ends the run.
pub fn end<K: Sink>(sink: &mut K, text: &[u8], status: Status) -> Status
    ensures { EndsWithText status text.now (K.view sink.old) (K.view sink.new) result }
{
    match put(sink, text) {
        Ok(()) => status,
        Err(fault) => status_of(fault),
    }
}

/// Puts a text that had to be made, where there was memory for it.
pub fn end_with<K: Sink>(sink: &mut K, text: Result<Text, Memory>, status: Status) -> Status
    requires unreadable { status ≡ Status.Unreadable → ⊥ }
    requires write { status ≡ Status.WriteFault → ⊥ }
    ensures ends { MatchResult text
        (λ made. EndsWithText status made (K.view sink.old) (K.view sink.new) result)
        (λ _. (result ≡ Status.Memory) × (K.view sink.new ≡ K.view sink.old)) }
    ensures causes { HasCauses result 0 0 (K.view sink.old).faults (K.view sink.new).faults }
{
    match text {
        Ok(text) => end(sink, text.as_slice(), status),
        Err(_) => Status::Memory,
    }
}
