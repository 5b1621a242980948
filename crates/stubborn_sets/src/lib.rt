//! Stubborn sets: the operators that are enough to go on with from a state, their laws, and which operators commute.
//!
//! Two operators commute where each applies after the other in every state in which both apply, and both orders lead to
//! the same state (`specs/Commuting.antt`). `commute` tests it by the task alone, by what each of the two reads and
//! writes: preconditions, conditions of effects, and the variables that rules read where one of the two reads a derived
//! variable. Where it answers true, the two commute.
//!
//! A set of operators is stubborn in a state where of each plan that goes on from there an operator of the set is one
//! step, and the first such applies in the state and commutes with each step before it (Valmari, 1989; for planning
//! Alkhazraji, Wehrle, Mattmüller and Helmert, 2012). `specs/Stubborn.antt` says so of any system. The laws: neighbours
//! that commute may be exchanged; the first step out of the set may be moved to the front, so that the plan begins
//! inside the set, with the same operators, at the same cost and to the same state; and where each state has a stubborn
//! set, each class of plans that hold the same operators keeps a member whose every step is in the set of its state.
//!
//! `StubbornSets` is made once for a task, and makes a strong stubborn set of each state that it is asked for: a set
//! begins with the operators that can make one unfulfilled goal fact true, has for each operator that applies those
//! that are not seen to commute with it, and for each that doesn't those that can make one of its missing preconditions
//! true; where rules are to raise a derived variable first, those that can make one missing condition of each rule
//! true. Its contract is that the set is stubborn in the state, so that each of the laws holds of it. Which fact is
//! served is chosen so that sets tend to be small; no clause says so.
//!
//! It stands on `symk_task` for the task, on `task_run` for the values of a state, on `task_system` for the system of a
//! task and the laws of its steps, and on `space_api` for the laws of its runs.
#![tactic(auto)]

mod barring;
mod choosing;
mod conflicts;
mod depending;
mod growing;
mod laws;
mod lists;
mod makers;
mod meeting;
mod reading;
mod sets;
mod testing;

pub use laws::{
    chosen_sets_keep_a_member, classes_keep_a_member, first_inside_moves_to_front,
    neighbours_may_be_exchanged, plans_may_begin_inside,
};
pub use sets::StubbornSets;
pub use testing::commute;
