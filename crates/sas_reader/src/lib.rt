//! Reads a task file: from bytes to a task, or to the first line at which no task file can go on so.
//!
//! `read_task` gives a task exactly where the lines are those of a task file, and then the task that they state. Else
//! it names the first line that offends, counted from 1, and the one shape that is wanted there. `specs/Format.antt`
//! says what a task file is, row by row; `specs/Reading.antt` is the reading that the code does, which private
//! functions cite. It stands on `symk_text` (lines and numbers), `line_grammar` (the lines that are left, and what a
//! grammar of rows asks for) and `symk_task`.
#![tactic(auto)]

mod effects;
mod facts;
mod fault;
mod header;
mod mutexes;
mod numbers;
mod operators;
mod reading;
mod rows;
mod rules;
mod state;
mod variables;

pub use fault::{ReadFault, Shape};
pub use reading::{file_states_one_task, read_task};
