//! The blocks of a plan text.

use symk_task::{List, Name, Plan};

/// What a block states.
#[derive(Drop)]
pub struct ReadBlock {
    /// The operators of the plan, each below 2^32; whether the task has so many is not looked at.
    pub ops: Plan,
    /// What stands between the parentheses of each step line.
    pub names: List<Name>,
    /// The number of the cost line.
    pub cost: u64,
    /// Whether the cost line says that each operator costs 1.
    pub unit: bool,
}

/// The blocks of a text, in order.
#[derive(Drop)]
pub struct Blocks {
    pub list: List<ReadBlock>,
}
