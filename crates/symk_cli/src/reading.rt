//! The files that the words name, read whole, or the refusal of them that ends the run.

ghost use Rattle.std.specs.Prelude.{◌≡◌, ◌≤◌, All, length, IfOk, IfErr, OnOk};
ghost use Rattle.symk_io.specs.Causes.{Rose};
ghost use Rattle.symk_io.specs.View.{Tells};
ghost use Rattle.symk_io.specs.Told.{Opened};
ghost use Rattle.run_status.specs.Ends.{HasCauses, OrFront, PutsOutWith};
ghost use Rattle.symk_cli.specs.Refusals.{most_bytes, IsTaskText, TextRefused, FileRefused, unreadable_text, too_long_text, offence_text, plans_offence_text};
ghost use Rattle.symk_cli.specs.Plans.{IsPlansText, PlansRefused};
ghost use Rattle.symk_cli.specs.Named.{IsToldText, HasText, HasRead, StopsAt};

use crate::LIMIT;
use plan_out::{Blocks, PlansFault, read_plans};
use run_status::{Status, end, end_with};
use sas_reader::{ReadFault, Shape, read_task};
use std::alloc::Global;
use symk_io::{Files, ReadStop, Sink, read_all};
use symk_task::{Memory, Task};
use symk_text::{Text, push_bytes, push_number};

/// Which of the files that the words name a text is of.
#[derive(Clone, Copy, Debug, PartialEq, Eq)]
pub enum Named {
    File,
    Plans,
    Cert,
}

impl Named {
    #[tactic(auto, unfolding(crate::specs::Refusals::unreadable_text))]
    fn unreadable(self) -> &'static [u8]
        ensures { result.now ≡ unreadable_text self }
    {
        match self {
            Named::File => b"file unreadable\n",
            Named::Plans => b"plans unreadable\n",
            Named::Cert => b"cert unreadable\n",
        }
    }

    #[tactic(auto, unfolding(crate::specs::Refusals::too_long_text))]
    fn too_long(self) -> &'static [u8]
        ensures { result.now ≡ too_long_text self }
    {
        match self {
            Named::File => b"file too long\n",
            Named::Plans => b"plans too long\n",
            Named::Cert => b"cert too long\n",
        }
    }
}

/// Reads the text of a name, or ends the run.
pub fn text_of<F: Files, K: Sink>(
    alloc: Global,
    files: &mut F,
    sink: &mut K,
    named: Named,
    name: &str,
) -> Result<Vec<u8>, Status>
    ensures text { IfOk result (λ text. IsToldText (F.view files.old).told name.now text.items) }
    ensures within { IfOk result (λ text. length text.items ≤ most_bytes) }
    ensures opened { OnOk result (Tells (Opened name.now) (F.view files.old).told (F.view files.new).told) }
    ensures quiet { OnOk result (((F.view files.new).faults ≡ (F.view files.old).faults)
        × ((K.view sink.new).faults ≡ (K.view sink.old).faults)) }
    ensures untouched { OnOk result (K.view sink.new ≡ K.view sink.old) }
    ensures refused { IfErr result (λ status. HasRead (F.view files.old).told name.now
        (λ read. PutsOutWith (OrFront (TextRefused (Rose (F.view files.old).faults
        (F.view files.new).faults) named read))
        (K.view sink.old) (K.view sink.new) status)) }
    ensures stops { IfErr result (StopsAt named name.now (F.view files.old).told (F.view files.new).told
        (K.view sink.old).taken (K.view sink.new).taken) }
    ensures causes { IfErr result (λ status. HasCauses status (F.view files.old).faults
        (F.view files.new).faults (K.view sink.old).faults (K.view sink.new).faults) }
{
    match read_all(alloc, files, name, LIMIT) {
        Ok(text) => Ok(text),
        Err(ReadStop::Unreadable) => Err(end(sink, named.unreadable(), Status::Unreadable)),
        Err(ReadStop::TooLong) => Err(end(sink, named.too_long(), Status::TooLong)),
        Err(ReadStop::Memory) => Err(Status::Memory),
    }
}

/// Reads the task of a name, or ends the run.
pub fn task_of<F: Files, K: Sink>(
    alloc: Global,
    files: &mut F,
    sink: &mut K,
    name: &str,
) -> Result<Task, Status>
    ensures task { IfOk result (λ task. HasText (F.view files.old).told name.now (λ text. IsTaskText text task)) }
    ensures opened { OnOk result (Tells (Opened name.now) (F.view files.old).told (F.view files.new).told) }
    ensures quiet { OnOk result (((F.view files.new).faults ≡ (F.view files.old).faults)
        × ((K.view sink.new).faults ≡ (K.view sink.old).faults)) }
    ensures untouched { OnOk result (K.view sink.new ≡ K.view sink.old) }
    ensures refused { IfErr result (λ status. HasRead (F.view files.old).told name.now
        (λ read. PutsOutWith (OrFront (FileRefused (Rose (F.view files.old).faults (F.view files.new).faults) read))
        (K.view sink.old) (K.view sink.new) status)) }
    ensures stops { IfErr result (StopsAt Named.File name.now (F.view files.old).told (F.view files.new).told
        (K.view sink.old).taken (K.view sink.new).taken) }
    ensures causes { IfErr result (λ status. HasCauses status (F.view files.old).faults
        (F.view files.new).faults (K.view sink.old).faults (K.view sink.new).faults) }
{
    let text = text_of(alloc, files, sink, Named::File, name)?;
    match read_task(alloc, &text) {
        Ok(task) => Ok(task),
        Err(ReadFault::Offence { line, wanted }) => Err(end_with(
            sink,
            offence_text(alloc, line, wanted),
            Status::Offending,
        )),
        Err(ReadFault::Memory) => Err(Status::Memory),
    }
}

/// Reads the plans of a name, or ends the run.
pub fn plans_of<F: Files, K: Sink>(
    alloc: Global,
    files: &mut F,
    sink: &mut K,
    name: &str,
) -> Result<Blocks, Status>
    ensures names { IfOk result (λ blocks. All (λ block. length block.names ≡ length block.ops) blocks.list) }
    ensures blocks { IfOk result (λ blocks. HasText (F.view files.old).told name.now
        (λ text. IsPlansText text blocks.list)) }
    ensures opened { OnOk result (Tells (Opened name.now) (F.view files.old).told (F.view files.new).told) }
    ensures quiet { OnOk result (((F.view files.new).faults ≡ (F.view files.old).faults)
        × ((K.view sink.new).faults ≡ (K.view sink.old).faults)) }
    ensures untouched { OnOk result (K.view sink.new ≡ K.view sink.old) }
    ensures refused { IfErr result (λ status. HasRead (F.view files.old).told name.now
        (λ read. PutsOutWith (OrFront (PlansRefused (Rose (F.view files.old).faults (F.view files.new).faults) read))
        (K.view sink.old) (K.view sink.new) status)) }
    ensures stops { IfErr result (StopsAt Named.Plans name.now (F.view files.old).told (F.view files.new).told
        (K.view sink.old).taken (K.view sink.new).taken) }
    ensures causes { IfErr result (λ status. HasCauses status (F.view files.old).faults
        (F.view files.new).faults (K.view sink.old).faults (K.view sink.new).faults) }
{
    let text = text_of(alloc, files, sink, Named::Plans, name)?;
    match read_plans(alloc, &text) {
        Ok(blocks) => Ok(blocks),
        Err(PlansFault::Offence { line }) => Err(end_with(
            sink,
            plans_offence_text(alloc, line),
            Status::Offending,
        )),
        Err(PlansFault::Memory) => Err(Status::Memory),
    }
}

/// `line N: wanted SHAPE`
#[tactic(auto, unfolding(crate::specs::Refusals::offence_text))]
fn offence_text(alloc: Global, line: u64, wanted: Shape) -> Result<Text, Memory>
    ensures { IfOk result (λ text. text ≡ offence_text line wanted) }
{
    let mut text = Text::new(alloc);
    push_bytes(&mut text, b"line ")?;
    push_number(&mut text, line)?;
    push_bytes(&mut text, b": wanted ")?;
    push_bytes(&mut text, wanted.text().as_bytes())?;
    push_bytes(&mut text, b"\n")?;
    Ok(text)
}

/// `plans line N`
#[tactic(auto, unfolding(crate::specs::Refusals::plans_offence_text))]
fn plans_offence_text(alloc: Global, line: u64) -> Result<Text, Memory>
    ensures { IfOk result (λ text. text ≡ plans_offence_text line) }
{
    let mut text = Text::new(alloc);
    push_bytes(&mut text, b"plans line ")?;
    push_number(&mut text, line)?;
    push_bytes(&mut text, b"\n")?;
    Ok(text)
}
