//! Planning tasks: the types that a task file states, and their meaning.
//!
//! A `Task` always fits: its numbers are in the ranges that the format allows. The definitions in `specs/` say what a
//! task means: states, raised variables, steps, runs, plans and right lists of plans. Everything above cites them. It
//! stands on nothing but std.
#![tactic(auto)]

mod base;
mod bits;
mod fits;
mod keys;
mod limits;
mod list;
mod modes;
mod parts;
mod task;

pub use base::base_values;
pub use bits::{STATE_BITS, width};
pub use limits::{LAST_LAYER, MOST_FACTS, MOST_ITEMS, MOST_VALUES, MOST_VARIABLES};
pub use list::{List, Memory, Name, Plan, State};
pub use modes::same;
pub use parts::{Effect, Fact, Mode, Operator, Rule, TaskParts, Variable};
pub use task::Task;
