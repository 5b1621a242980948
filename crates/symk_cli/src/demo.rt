//! The demonstration: the cheapest plans of a task that is made from a number.

ghost use Rattle.std.specs.Prelude.{◌≡◌, ◌≤◌, ◌++◌, IfOk, OnOk};
ghost use Rattle.task_gen.specs.Switches.{switches as switches_task};
ghost use Rattle.run_status.specs.Ends.{HasCauses, OrFront, PutsOutWith};
ghost use Rattle.symk_cli.specs.Shown.{IsSummary, Summary, counts_line, costs_line, lines_of, reached_line};

use crate::pieces::{push_cost_after, push_number_after};
use plan_run::{Costs, SHOWN, costs_found};
use run_status::{Status, end_with};
use sas_reader::{ReadFault, read_task};
use sas_writer::write_task;
use std::alloc::{AllocError, Global};
use symk_io::Sink;
use symk_task::{Memory, Task};
use symk_text::{Text, push_bytes};
use task_gen::switches;

/// Makes the task of that many switches, writes it and reads it back, lists its 20 cheapest plans, and puts a summary.
pub fn show<K: Sink>(alloc: Global, number: u32, sink: &mut K) -> Status
    requires least { 1 ≤ number }
    requires most { number ≤ 64 }
    ensures shows { PutsOutWith (OrFront (IsSummary number)) (K.view sink.old) (K.view sink.new) result }
    ensures causes { HasCauses result 0 0 (K.view sink.old).faults (K.view sink.new).faults }
{
    end_with(sink, summary(alloc, number), Status::Shown)
}

/// The task, as it is read back from its own text.
fn task_read_back(alloc: Global, number: u32) -> Result<Task, Memory>
    requires least { 1 ≤ number }
    requires most { number ≤ 64 }
    ensures { IfOk result (λ task. task ≡ switches_task number) }
{
    let text = write_task(alloc, &switches(alloc, number)?)?;
    match read_task(alloc, &text) {
        Ok(task) => Ok(task),
        Err(ReadFault::Memory) => Err(AllocError),
        Err(ReadFault::Offence { .. }) => unreachable!(),
    }
}

fn summary(alloc: Global, number: u32) -> Result<Text, Memory>
    requires least { 1 ≤ number }
    requires most { number ≤ 64 }
    ensures { IfOk result (Summary number) }
{
    let task = task_read_back(alloc, number)?;
    let costs = costs_found(alloc, &task)?;
    lines(alloc, number, &task, costs)
}

/// The three lines of the task and of what was found for it. The task is lent: where a function owns it, its proof takes
/// far longer.
fn lines(alloc: Global, number: u32, task: &Task, costs: Costs) -> Result<Text, Memory>
    ensures { IfOk result (λ text. text ≡ lines_of number task.now costs.cheapest costs.dearest costs.total) }
{
    let parts = task.parts();
    let mut text = Text::new(alloc);
    push_counts(
        &mut text,
        u64::from(number),
        parts.variables.len() as u64,
        parts.operators.len() as u64,
        parts.rules.len() as u64,
    )?;
    push_costs(&mut text, costs)?;
    push_reached(&mut text)?;
    Ok(text)
}

/// `switches N: variables V operators O rules R`
#[tactic(auto, unfolding(crate::specs::Shown::counts_line))]
fn push_counts(
    text: &mut Text,
    number: u64,
    variables: u64,
    operators: u64,
    rules: u64,
) -> Result<(), Memory>
    ensures { OnOk result (text.new ≡ text.old ++ counts_line number variables operators rules) }
{
    push_number_after(text, b"switches ", number)?;
    push_number_after(text, b": variables ", variables)?;
    push_number_after(text, b" operators ", operators)?;
    push_number_after(text, b" rules ", rules)?;
    push_bytes(text, b"\n")
}

/// `plans M: cheapest C dearest D total T`
#[tactic(auto, unfolding(crate::specs::Shown::costs_line))]
fn push_costs(text: &mut Text, costs: Costs) -> Result<(), Memory>
    ensures { OnOk result (text.new ≡ text.old ++ costs_line 20 costs.cheapest costs.dearest costs.total) }
{
    push_number_after(text, b"plans ", SHOWN)?;
    push_number_after(text, b": cheapest ", costs.cheapest)?;
    push_number_after(text, b" dearest ", costs.dearest)?;
    push_cost_after(text, b" total ", costs.total)?;
    push_bytes(text, b"\n")
}

/// `end reached M`
#[tactic(auto, unfolding(crate::specs::Shown::reached_line))]
fn push_reached(text: &mut Text) -> Result<(), Memory>
    ensures { OnOk result (text.new ≡ text.old ++ reached_line 20) }
{
    push_number_after(text, b"end reached ", SHOWN)?;
    push_bytes(text, b"\n")
}
