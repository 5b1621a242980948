//! Facts and states as diagrams, and which values occur in a set of states.
//!
//! A set of states is a diagram over the levels that an `Order` gives the bits of a state: it has the states whose bits
//! it holds for (`specs/Sets.antt`). The sets of a fact, of all states and of one state hold for exactly the bits that
//! they are to, and whether a set has a state is told exactly.
//!
//! `marks_of` walks once down the diagram of a set and marks, for each variable, the values that states of the set
//! have. The walk goes variable by variable, in the order of the bits: from each Id that is left it follows the bits of
//! each value of the next variable. It promises that no value of a state of the set is left out. `StepFacts::of` lists
//! for each operator the facts that its steps start with, and those that they end with, whichever state they start
//! from, as the places of their marks. `leading_from` and `leading_into` name the operators all of whose facts occur:
//! they miss no operator with a step from a state of the set, or into one. Out of memory is the one refusal.
//!
//! It stands on `bdd_table` and `bdd_ops` for diagrams, on `var_order` for the bits of a state, and on `task_system`
//! for what steps are.
#![tactic(auto)]

mod choosing;
mod following;
mod marking;
mod member;
mod occurring;
mod placing;
mod sets;
mod stepping;
mod values;
mod walking;

pub use choosing::{leading_from, leading_into};
pub use member::has;
pub use occurring::Places;
pub use sets::{fact_set, next_fact_set, state_set, valid_set};
pub use stepping::StepFacts;
