//! Where the bits of a state stand among the levels of a diagram.
//!
//! An `Order` gives each base variable of a task as many bits as its values need, and each bit a place. A place has
//! two levels: one for the state, one for the state that an operator leads to. Different bits have different places,
//! and bits have levels of both kinds for each place; so bits say one state at most, and each state has bits
//! (`specs/Codes.antt`). No clause says which variable comes first. It stands on `symk_task`.
#![tactic(auto)]

mod block;
mod order;
mod ranks;

pub use block::Block;
pub use order::Order;
