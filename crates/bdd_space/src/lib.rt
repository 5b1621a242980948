//! A space over decision diagrams.
//!
//! `BddSpace::of` gives the space of a task: a set of its states is a decision diagram, and each call has exactly the
//! states that `Space` says of the task's transition system. Equal sets are one Id of the table, so to compare sets
//! costs one comparison; images are by the operators' relations, those of one cost joined up to a bound of nodes. A set
//! is the number of a place that keeps its Id: `forget` empties the place, and a later set takes it. `held` counts the
//! nodes of the table, and `tidy` throws away those that neither a valid set nor the space itself needs, by a rule that
//! the trait states. Out of memory is the one refusal, and then each valid set has the states that it had. The
//! operators that may lead into a set, or apply in it, are found by the values that occur in it. For who writes a set
//! down, `id` tells the root of its diagram, and `task`, `order` and `ops` lend what the diagram is over. Sources:
//! Bryant, "Graph-Based Algorithms for Boolean Function Manipulation" (1986); for search by sets of states, Edelkamp
//! and Reffel, "OBDDs in Heuristic Search" (1998), and Torralba, Alcázar, Kissmann and Edelkamp, "Efficient Symbolic
//! Search for Cost-optimal Planning" (2017). It stands on `space_api` for what a space is, on `bdd_table` and `bdd_ops`
//! for diagrams, on `var_order` for the bits of a state, on `bdd_sets` for diagrams of states and the values that occur
//! in a set, on `axiom_layers` for the goal's derived variables, on `trans_merge` for images, and on `task_system` for
//! the system of the task.
#![tactic(auto)]

mod building;
mod collecting;
mod diagram;
mod images;
mod operations;
mod queries;
mod slots;
mod space;
mod symbolic;

pub use symbolic::BddSpace;
