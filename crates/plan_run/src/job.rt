//! A list that is to be made.

use crate::earlier::Earlier;
use crate::options::{Search, Wanted};
use symk_task::{Mode, Task};

/// A list that is to be made: plans of a task in a mode, as many as are wanted, up to a greatest cost where there is
/// one, searched for as is asked, and after an earlier list, which is empty where none is gone on from.
#[derive(Clone, Copy)]
pub struct Job<'a> {
    pub task: &'a Task,
    pub mode: Mode,
    pub search: Search,
    pub wanted: Wanted,
    pub limit: Option<u64>,
    pub earlier: &'a Earlier,
}
