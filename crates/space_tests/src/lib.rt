//! Worked rows of both spaces and of mutex groups over them, and whether two spaces answer alike.
//!
//! The rows make each call of a space once, and refused calls; and they find the groups of small task files that hold,
//! look at the states that keep them, and refuse one call of the space after the other. Tests stand apart from the
//! crates of which they are, so that those are proved once.
//!
//! `agree` makes the same calls on two spaces, one after the other, on sets that the same calls gave, and compares
//! after each call what both answer. A seed draws the calls. Two spaces of one system are always found to agree, every
//! set that was made is given back, and every other set stays as it was; where the answer is yes, both systems have the
//! same operators at the same costs. The tests try the space over ordered sets of states against the space over
//! decision diagrams on 200 such tasks, and on more of them the calls that `agree` doesn't draw: the states where a
//! fact holds, and the operators that lead into a set and on from it.
//!
//! It stands on `space_api` for what a space is, on `explicit_space` and `bdd_space` for the spaces, on `mutex_use` for
//! groups, on `sas_reader` and `small_tasks` for the tasks of rows, and on `task_draws` for tasks and numbers that are
//! drawn.
#![tactic(auto)]

mod agreeing;
#[cfg(test)]
mod agreement;
mod asking;
#[cfg(test)]
mod both;
#[cfg(test)]
mod calls;
mod comparing;
#[cfg(test)]
mod explicit;
#[cfg(test)]
mod mutex;
mod pairs;
