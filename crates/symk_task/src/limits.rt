//! How much a task can state.

/// The most variables.
pub const MOST_VARIABLES: u64 = 65_536;
/// The most values of a variable.
pub const MOST_VALUES: u64 = 65_536;
/// The greatest layer.
pub const LAST_LAYER: u64 = 65_535;
/// The most facts, conditions or effects of one list.
pub const MOST_FACTS: u64 = 65_536;
/// The most mutex groups, operators or rules.
pub const MOST_ITEMS: u64 = 1_000_000;
