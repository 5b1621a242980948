//! All plans, the cheapest first, out of a queue of prefixes, with what is known of a prefix by where it ends.
//!
//! An entry of the queue is a prefix of plans. Its bound is what it costs and what is left at least: the least cost to
//! go of its last state, where a search from both ends has ranked that state, or else what follows from the least key
//! of what still waits for a rank. A longer prefix comes with all that the search knows then; of one whose last state
//! had no rank more is learned when the search has gone on, and each entry stands while it does. Ranks that were found
//! are kept by the numbers of states, since many prefixes come to one state. Where each plan that is left costs more
//! than 64 bits hold, the states that lead to the goal at all tell whether one goes on from a prefix. All of it is so
//! whatever an engine gives of the plans, and serves engines above as well.
//!
//! `PrefixPlans` takes the entry of the least bound, of these one of the greatest cost, and of these one whose last
//! state has the least number. Where its last state is ranked its children come, and it is a plan where the goal holds
//! there; else more is learned of it, or the search goes on until the state is ranked or the bound is no longer the
//! least. So the list goes on however wide costs are: each step of the search leaves fewer to do. Each turn that takes
//! a ranked entry comes nearer to a plan, since a cheapest way leads on to a lower number; so circles of cost 0 come as
//! longer prefixes, which wait.
//!
//! It stands on `cost_to_go` for ranks and bounds, on `prefix_tree` for prefixes, the states where they end and their
//! queue, on `cost_layers` for the states that lead to the goal, on `space_api` for the goal and membership of one
//! state, and on `lazy_plans` for the law that it keeps, for its shell, for what pends and for bounds of prefixes.
//!
//! The queue: best first by cost so far and exact cost to go, A* (P. E. Hart, N. J. Nilsson and B. Raphael, 1968), over
//! prefixes in place of states, so that each plan comes.
#![tactic(auto)]

mod beginning;
mod children;
mod engine;
mod expand;
mod front;
mod improving;
mod knowing;
mod leading;
mod left;
mod range;
mod ranks;
mod reach;
mod taking;
mod turn;
mod turns;
mod walk;

pub use engine::PrefixPlans;
pub use expand::find_moves_at;
pub use knowing::{go_on, is_outdated, top_of};
pub use left::Heuristic;
pub use range::is_left;
pub use ranks::Ranks;
pub use taking::Taken;
