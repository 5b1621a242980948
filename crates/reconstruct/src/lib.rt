//! Plans from the middle outwards, the cheapest first: the engine, its entries and their turns.
//!
//! `TopPlans` is an engine of lazy plans over any space and any choice of the side that goes on. It lists one cost
//! after the other: each cut of the cost is drawn once, and its plans grow from the cut outwards, first the prefix
//! backwards, then the suffix forwards. Every plan is given exactly once, the next one of a cost after at most two
//! turns more than it has operators. No set of states is lost, and none is kept that is not needed; the space is tidied
//! before each answer.
//!
//! `open_cut` gives the first entry of a cut, and `walk` takes entries from a `Queue`, last in first out, until one is
//! a plan. One call of the queue takes an entry and counts the turn, and nothing else takes one that stands for itself
//! alone, so the bound on `Steps` is one on turns. A prefix grows backwards out of a set, then a suffix forwards from
//! one state. Where each operator costs something and more than a few may lead on, the prefixes that a prefix grows
//! into are found one by one, the last one first, and it stands for those that are still to be found (`partial`): a
//! plan that isn't asked for costs no preimage. The suffix keeps that state's values and no set: its operators are
//! tried on the values, and a layer is asked whether it has the state to which one leads. What leads on from a state,
//! and whether a plan ends there, is remembered for the suffixes that come to it later (`Expansions`). Every operator
//! that leads on into a right layer makes a child, so no entry is a dead end; a child of less cost or a lower ring is
//! taken first, so a plan comes within two turns more than it has operators. Out of memory, it leaves what the queue
//! owes, and no set is lost.
//!
//! It stands on `bidirectional` for the search from both ends, on `cost_layers` for layers, on `plan_cuts` for the laws
//! of cuts and entries, on `lazy_plans` for the law that it keeps, and on `space_api` for sets and single states.
#![tactic(auto)]

mod after;
mod before;
mod beginning;
mod children;
mod drawing;
mod engine;
mod entries;
mod expand;
mod expansions;
mod going;
mod moves;
mod next_plan;
mod opening;
mod partial;
mod queue;
mod states;
mod turns;
mod walking;
mod ways;

pub use engine::TopPlans;
