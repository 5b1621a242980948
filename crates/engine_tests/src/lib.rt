//! Lists of plans by any engine over either space, and the rows that compare them.
//!
//! `listed` makes the engine that is asked for over a space of the task and takes its first plans, each with a count of
//! turns of its own; where the list ends, it asks twice more. `first_plan` takes the first one by the selector, and
//! asks once more. `costs_of` tells what plans cost, where `plan_out` calls their list good, and `lists` compares both
//! with what they should be; `stops_well` refuses one call of the space after the other. There is no call from outside.
//!
//! The tests compare what each engine lists of small tasks with rows that were worked out by hand: plans from the
//! middle outwards, with each choice of the side that goes on, all plans by their prefixes, loopless plans, and one
//! plan of each class. Of tasks that seeds draw a long list of all plans is taken from one engine. The lists of every
//! engine over either space, by each choice of side, are good, cost the same and end alike over both spaces, and agree
//! with what follows from the long list: a list of loopless plans with its loopless members, and a list of classes of
//! rearrangements with the first of each class. So do, where costs are drawn up to 2^63, those of the engines that take
//! no longer for it. Up to a greatest cost, where lists end, the classes of these tasks, and of tasks in which many
//! operators commute, are those of all plans.
//!
//! It stands on `reconstruct`, `prefix_plans`, `loopless`, `member_plans` and `selectors` for the engines, on
//! `explicit_space` and `bdd_space` for the spaces, on `plan_out` for the check, and on `small_tasks`, `task_gen` and
//! `task_draws` for the tasks.
#![tactic(auto)]

#[cfg(test)]
mod agreement;
mod choice;
#[cfg(test)]
mod classes;
mod costs;
mod engines;
mod first;
#[cfg(test)]
mod following;
mod listing;
#[cfg(test)]
mod loopless_lists;
#[cfg(test)]
mod middle;
#[cfg(test)]
mod prefix_lists;
#[cfg(test)]
mod prefixes;
mod stops;
#[cfg(test)]
mod widening;
