//! Writes a task as a task file.
//!
//! `write_task` gives the one canonical spelling of a task: each line ended by LF, one space between two numbers, no
//! leading zeros, no blank lines. What it writes is `task_text` in `specs/`, line by line, and its lines are those of
//! a file of the task, so that `sas_reader` reads an equal task. A name that ends with CR gets a second CR, so that
//! it is read back whole, and an operator's cost is the stated one, whatever the metric says. It stands on
//! `symk_text` for texts that grow, on `symk_task` for the task, and on `sas_reader` and `line_grammar` for what a
//! task file is.
#![tactic(auto)]

mod facts;
mod lines;
mod operators;
mod rules;
mod sections;
mod variables;

ghost use Rattle.std.specs.Prelude.{◌≡◌, ℕ, ◌++◌, List, IfOk, OnOk};
ghost use Rattle.symk_text.specs.Lines.{lines};
ghost use Rattle.symk_task.specs.declared.parts.TaskParts.{TaskParts};
ghost use Rattle.sas_reader.specs.declared.fault.ReadFault.{ReadFault};
ghost use Rattle.sas_reader.specs.Format.{IsFileOf};
ghost use Rattle.sas_reader.specs.Refused.{RefusedAt};
ghost use Rattle.sas_writer.specs.TaskLines.{task_text, HasSmallCosts};

use crate::operators::push_operators;
use crate::rules::push_rules;
use crate::sections::{push_goal, push_head, push_mutexes, push_state};
use crate::variables::push_variables;
use std::alloc::Global;
use symk_task::{Memory, Task, TaskParts};
use symk_text::Text;

/// Appends the lines of each section.
fn push_task(text: &mut Text, parts: &TaskParts) -> Result<(), Memory>
    ensures text { OnOk result (text.new ≡ text.old ++ task_text parts.now) }
    ensures costs { OnOk result (HasSmallCosts parts.now.operators) }
{
    push_head(text, parts.metric)?;
    push_variables(text, &parts.variables)?;
    push_mutexes(text, &parts.mutexes)?;
    push_state(text, &parts.initial)?;
    push_goal(text, &parts.goal)?;
    push_operators(text, &parts.operators)?;
    push_rules(text, &parts.rules)
}

/// The canonical spelling of the task.
///
/// It is a file of the task, so `sas_reader::read_task` gives an equal task for it, unless memory runs out.
pub fn write_task(alloc: Global, task: &Task) -> Result<Vec<u8>, Memory>
    ensures text { IfOk result (λ bytes. bytes.items ≡ task_text task.now) }
    ensures file { IfOk result (λ bytes. IsFileOf (lines bytes.items) task.now) }
{
    let mut text = Text::new(alloc);
    push_task(&mut text, task.parts())?;
    Ok(text.into_vec())
}

/// The lines of a task's file are refused only when out of memory.
pub fn file_is_not_refused()
    ensures { (lines : List (List ℕ)) (task : TaskParts) (fault : ReadFault) → IsFileOf lines task
        → RefusedAt lines fault → fault ≡ ReadFault.Memory }
{}
