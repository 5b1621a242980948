//! Small tasks that a seed draws, for tests.
//!
//! `random_task` draws a task of at most 7 variables and 6 operators, with derived variables, rules and effects that
//! have conditions, and `Random` is the stream of numbers that it draws by: equal seeds give equal tasks. In a task that
//! `loose_task` draws most operators change one variable alone, so that many of them commute. That a seed draws a task at
//! all is no promise. It is no part of the planner, and stands on `symk_task` alone.
#![tactic(auto)]

mod kinds;
mod loose;
mod random;
mod tasks;

pub use loose::loose_task;
pub use random::Random;
pub use tasks::{drawn_parts, random_task};
