//! Operations on reduced ordered binary decision diagrams.
//!
//! `Ops` is a table with a cache of results. It promises that each call equals its operation for all bits; that after
//! every call, refused or not, each Id that was known means the same and the table is reduced (after a collection
//! that goes for its roots alone); and that a cache which finds no memory stays as it was while the call goes on. No
//! call recurses along the levels: an operation is a loop over a stack of the calls that wait for the results of
//! their halves. Results are kept in the operation cache (`lru`), and before it places for what is found again at once:
//! a result that took few steps has a place that its call tells, where a later one takes its stead. Sources: Bryant,
//! "Graph-Based Algorithms for Boolean Function Manipulation" (1986); for one cached call of two operands and for the
//! places, Brace, Rudell and Bryant, "Efficient
//! Implementation of a BDD Package" (1990); for images and preimages in one traversal, van Dijk and van de Pol, "Sylvan:
//! Multi-Core Decision Diagrams" (2015). It stands on `bdd_table` and on `lru`.
#![tactic(auto)]

mod apply;
mod filter;
mod images;
mod key;
mod levels;
mod ops;
mod parts;
mod quantify;
mod recent;
mod rename;
mod waiting;

pub use ops::{CACHE, Ops};
