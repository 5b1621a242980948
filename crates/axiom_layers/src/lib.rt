//! The derived variables of a task as diagrams.
//!
//! `compile` makes of each derived variable the set of the states in which it is raised, that is, has its non-default
//! value: a diagram over the levels that an `Order` gives the bits of a state. It promises that by the bits of a
//! state, whichever the other levels are, the root of a variable is true exactly where the rules of the task raise
//! the variable in the state (`specs/Roots.antt`), and so that `Derived::fact_set` and `Derived::facts_set` are true
//! exactly where the facts hold. After every call, refused or not, each Id that was known means the same and the
//! table is reduced; out of memory is the only refusal. It stands on `task_run`, whose rules and values in one state
//! its proof lifts to all states at once, and on `bdd_sets`.
#![tactic(auto)]

mod compiling;
mod conditions;
mod derived;
mod facts;
mod layer;

pub use compiling::compile;
pub use derived::Derived;
