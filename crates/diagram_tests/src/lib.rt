//! Worked rows of decision diagrams: the unique table, the operations, images, the order of variables, sets of
//! states, axioms as sets, and transition relations: those of single operators, those of one cost joined, and all of
//! a task.
//!
//! There is no call: tests stand apart from the crates of which they are, so that those are proved once. It stands on
//! `bdd_table`, `bdd_ops`, `var_order`, `bdd_sets`, `axiom_layers`, `transitions`, `trans_merge` and `small_tasks`.
#![tactic(auto)]

#[cfg(test)]
mod axioms;
#[cfg(test)]
mod images;
#[cfg(test)]
mod merged;
#[cfg(test)]
mod operations;
#[cfg(test)]
mod operators;
#[cfg(test)]
mod order;
#[cfg(test)]
mod sets;
#[cfg(test)]
mod single;
#[cfg(test)]
mod states;
#[cfg(test)]
mod table;
