//! A certificate is checked, and what it shows is put.

ghost use Rattle.std.specs.Prelude.{◌≡◌, ◌++◌, IfOk, OnOk};
ghost use Rattle.run_status.specs.Ends.{HasCauses, OrFront, PutsOutWith};
ghost use Rattle.cert_run.specs.Proofs.{IsUnsolvable, Refutes, cert_offence_text, no_plan_text, not_shown_text, part_text};

use cert_check::{CertFault, CertPart, CertVerdict, check_cert};
use run_status::{Status, end, end_with};
use std::alloc::Global;
use symk_io::Sink;
use symk_task::{Memory, Task};
use symk_text::{Text, push_bytes, push_number};

/// Puts what the bytes show, which may be a certificate that the task has no plan.
///
/// `Status::Refuted` comes exactly where they are one, `Status::NotShown` where the states that it names are not
/// inductive, with the first part that fails, and `Status::Offending` where they are the text of no certificate, with
/// the first line that offends. No other status comes but `WriteFault` and `Memory`. Where `Refuted` comes no list of
/// operators is a plan.
pub fn refute<K: Sink>(alloc: Global, task: &Task, cert: &[u8], sink: &mut K) -> Status
    ensures answer { PutsOutWith (OrFront (Refutes task.now cert.now)) (K.view sink.old) (K.view sink.new) result }
    ensures causes { HasCauses result 0 0 (K.view sink.old).faults (K.view sink.new).faults }
    ensures no_plan { result ≡ Status.Refuted → IsUnsolvable task.now }
{
    match check_cert(alloc, task, cert) {
        Ok(CertVerdict::Yes) => end(sink, no_plan(), Status::Refuted),
        Ok(CertVerdict::No { part }) => { end_with(sink, not_shown(alloc, part), Status::NotShown) }
        Err(CertFault::Offence { line }) => {
            end_with(sink, cert_offence(alloc, line), Status::Offending)
        }
        Err(CertFault::Memory) => Status::Memory,
    }
}

#[tactic(auto, unfolding(crate::specs::Proofs::no_plan_text))]
fn no_plan() -> &'static [u8]
    ensures { result.now ≡ no_plan_text }
{
    b"no plan\n"
}

/// `not shown: PART`
#[tactic(auto, unfolding(crate::specs::Proofs::not_shown_text))]
fn not_shown(alloc: Global, part: CertPart) -> Result<Text, Memory>
    ensures { IfOk result (λ text. text ≡ not_shown_text part) }
{
    let mut text = Text::new(alloc);
    push_bytes(&mut text, b"not shown: ")?;
    push_part(&mut text, part)?;
    push_bytes(&mut text, b"\n")?;
    Ok(text)
}

#[tactic(auto, unfolding(crate::specs::Proofs::part_text))]
fn push_part(text: &mut Text, part: CertPart) -> Result<(), Memory>
    ensures { OnOk result (text.new ≡ text.old ++ part_text part) }
{
    match part {
        CertPart::Initial => push_bytes(text, b"initial state"),
        CertPart::Step { op } => {
            push_bytes(text, b"operator ")?;
            push_number(text, u64::from(op))
        }
        CertPart::Goal => push_bytes(text, b"goal"),
    }
}

/// `cert line N`
#[tactic(auto, unfolding(crate::specs::Proofs::cert_offence_text))]
fn cert_offence(alloc: Global, line: u64) -> Result<Text, Memory>
    ensures { IfOk result (λ text. text ≡ cert_offence_text line) }
{
    let mut text = Text::new(alloc);
    push_bytes(&mut text, b"cert line ")?;
    push_number(&mut text, line)?;
    push_bytes(&mut text, b"\n")?;
    Ok(text)
}
