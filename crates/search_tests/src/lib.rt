//! Worked rows of the searches: ahead, back and from both ends, with their layers, ranks and cuts.
//!
//! The tests settle costs one after the other on small tasks, look at the layers, cut them, and refuse each call in
//! turn; and they go on from both ends and look at ranks.
//!
//! `first_cuts` lists the cuts of the plans of one cost by one call after the other, `all_cuts` by the iterator, and
//! `cuts_up_to` those of all costs. `cuts_once_settled`, `list_cuts`, `list_costs`, `list_costs_again` and
//! `list_answers` begin a search from both ends over any space, with any choice of the side that goes on, and tell
//! what came of it; `plan_cuts_of` lists the cuts of a task's plans without any search, from the plans themselves. The
//! tests compare what is told with rows that were worked out by hand, and, on tasks that are drawn, with the listed
//! plans, over the space of ordered sets and the space of decision diagrams; and they refuse one call of the space
//! after the other. There is no call from outside: all of it is for tests.
//!
//! It stands on `forward_search`, `backward_search` and `bidirectional` for the searches, on `cost_to_go` for ranks, on
//! `cost_layers` for layers, on `task_run` for plans by themselves, on `explicit_space` and `bdd_space` for the spaces,
//! and on `small_tasks` and `task_draws` for the tasks.
#![tactic(auto)]

#[cfg(test)]
mod backward;
#[cfg(test)]
mod both;
#[cfg(test)]
mod forward;
#[cfg(test)]
mod layers;
#[cfg(test)]
mod listing;
#[cfg(test)]
mod plans;
#[cfg(test)]
mod ranking;
#[cfg(test)]
mod telling;
