//! Mutex groups that prove themselves.
//!
//! A task file states mutex groups: sets of facts of which at most one is said to hold. Nothing is trusted here: groups
//! hold where the initial state keeps each, and no operator leads from a state that keeps all to one that doesn't
//! (`specs/Groups.antt`). Two sets of groups that hold are together one, so there is a greatest. `inductive_groups`
//! finds it, by calls of any space, and `keeping` gives the states that keep groups. Every state that a plan passes keeps
//! the groups that hold, so a search backward may be kept to such states: `within` gives those that keep some groups
//! which hold each by itself, joined while their set stays small.
//!
//! It stands on `space_api` for sets of states, on `symk_task` and `task_system` for tasks and their systems, and on
//! `run_graph` for what a useful state is.
#![tactic(auto)]

mod balance;
mod counts;
mod groups;
mod joining;
mod keepers;
mod laws;
mod standing;
mod writers;

pub use joining::within;
pub use keepers::keeping;
pub use laws::{
    greatest_is_one, groups_hold_together, rounds_find_the_greatest, states_keep_groups,
    useful_states_keep_groups,
};
pub use standing::inductive_groups;
