//! Sets of states of a task, whatever they are made of, and single states of it.
//!
//! A `Space` stands for one task and gives sets of its states: all of them, the initial one, the goal states of a set,
//! those where a fact holds, unions, images and preimages by an operator or by all operators of a cost. It tells its
//! task and the task's transition system, which sets are valid and which states each valid set has; each call says
//! exactly which states its answer has. A set is valid from the call that gives it until it is forgotten, and no other
//! call, refused or not, changes it. Out of memory is the one refusal, and then no set became valid. A space also tells
//! which operators may lead into a set, and which may apply in it, so that a caller need not try each; and whether a
//! set has a state, with the task and its rules, for those who look at single states. `operator_costs` lists the
//! different costs of a task's operators, and `all_operators` the operators.
//!
//! Sets are for who goes over many states at once. Who follows runs one by one goes from state to state, as values of
//! the task's variables: the initial state, the values of all variables in a state, whether the goal holds there, where
//! an operator leads from it, and whether a set has it. None of these calls makes a set. Each takes a state that
//! operators reach, since such a state is one of the task, and says what it finds of the space's system.
//!
//! It stands on `task_system` for the system and its runs, on `task_run` for the rules and for states as values, and on
//! `symk_task` for the task.
#![tactic(auto)]

mod costs;
mod laws;
mod operators;
mod sets;
mod space;
mod states;

pub use costs::operator_costs;
pub use laws::costs_are_listed;
pub use operators::all_operators;
pub use sets::meets;
pub use space::{Space, SpaceFault};
pub use states::{goal_at, has_state, is_goal, next_state, start, values_of};
