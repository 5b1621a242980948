//! The task that a file states.

ghost use Rattle.std.specs.Prelude.{ℕ, List, IfOk, IfSome};
ghost use Rattle.symk_text.specs.Lines.{lines};
ghost use Rattle.symk_io.specs.Told.{IsTextOf};
ghost use Rattle.sas_reader.specs.Format.{IsFileOf};

use sas_reader::{ReadFault, read_task};
use std::alloc::{AllocError, Global};
use symk_io::{Files, ReadStop, read_all};
use symk_task::{Memory, Task};

/// The greatest number of bytes of a task file.
const LIMIT: u64 = 268_435_456;

/// The text of that name, if it can be read and isn't too long.
fn text_of<F: Files>(alloc: Global, files: &mut F, name: &str) -> Result<Option<Vec<u8>>, Memory>
    ensures { IfOk result (λ found. IfSome found (λ text. IsTextOf (F.view files.old).told name.now text.items)) }
{
    match read_all(alloc, files, name, LIMIT) {
        Ok(text) => Ok(Some(text)),
        Err(ReadStop::Memory) => Err(AllocError),
        Err(_) => Ok(None),
    }
}

/// The task whose file has that name, if there is one.
pub fn task_of<F: Files>(alloc: Global, files: &mut F, name: &str) -> Result<Option<Task>, Memory>
    ensures { IfOk result (λ found. IfSome found (λ task. (text : List ℕ)
        × IsTextOf (F.view files.old).told name.now text × IsFileOf (lines text) task)) }
{
    let Some(text) = text_of(alloc, files, name)? else {
        return Ok(None);
    };
    match read_task(alloc, &text) {
        Ok(task) => Ok(Some(task)),
        Err(ReadFault::Memory) => Err(AllocError),
        Err(ReadFault::Offence { .. }) => Ok(None),
    }
}
