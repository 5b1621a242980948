//! The unique table of reduced ordered binary decision diagrams.
//!
//! A `Table` holds nodes, each once: a node has a level and two children on later levels, and its `Id` is its place.
//! An Id means a truth function of the levels. It promises that the table is always reduced, so that two Ids are
//! equal exactly where they mean the same for all bits (`Table::same`); that `Table::node` gives the one Id of a
//! node, and leaves the table as it was when out of memory; that `Table::collect` keeps exactly the nodes that
//! its roots reach; and that `mark` marks exactly these. Source: Bryant, "Graph-Based Algorithms for Boolean Function
//! Manipulation" (1986). It stands on `indexmap`, whose set gives a node its place in one look-up.
#![tactic(auto)]

mod hashing;
mod marks;
mod node;
mod rebuild;
mod table;

pub use marks::mark;
pub use node::Node;
pub use table::{FALSE, Id, TRUE, Table, TableFault};
