//! Engines that give the plans that they are told, to try selectors on.
//!
//! Their system is `free`, of which every list of operators is a plan that costs nothing, so that a test chooses which
//! plans come, in which order, and at which call memory is refused. A `Script` has no plans but those that it is told;
//! of an `Endless` each list pends, and as an engine that keeps members it leaves out rearrangements. The tests of
//! `selectors` stand here. It stands on `lazy_plans` for the law, which they keep, on `selectors` for what is tried,
//! and on `indexmap` for the plans, each once.
#![tactic(auto)]

mod endless;
mod script;

pub use endless::Endless;
pub use script::Script;

#[cfg(test)]
mod tests;
