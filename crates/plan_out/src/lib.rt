//! Plan texts: how plans are printed, read back and checked.
//!
//! `block` and `end_line` print one plan and the end of a list, and their bytes are proved; `block_with_cost` is
//! `block` for a caller that has found the plan's cost already. `read_plans` gives the blocks of a plan text exactly
//! where the lines are those of one, and else names the first line at which no plan text can go on so;
//! `specs/Plans.antt` says what a plan text is, and `text_states_one_list` that its lines are those of one list of
//! blocks. `check_list` is exact: it calls the blocks good where none fails, and else it names the first that fails and
//! the first reason that is true of it, as `specs/Fails.antt` defines both; `good_blocks_are_plans` says what good
//! blocks are. It stands on `symk_text` for lines and numbers, on `line_grammar` for what single lines say and for
//! rows, on `symk_task` for the task, on `task_run` for runs, and on `indexmap` for the plans seen so far.
#![tactic(auto)]

mod blocks;
mod check;
mod end;
mod laws;
mod line;
mod print;
mod read;
mod rows;
mod run;
mod seen;
mod steps;

pub use blocks::{Blocks, ReadBlock};
pub use check::{Checked, Why, check_list};
pub use end::{End, end_line};
pub use laws::{good_blocks_are_plans, text_states_one_list};
pub use print::{block, block_with_cost};
pub use read::{PlansFault, read_plans};
