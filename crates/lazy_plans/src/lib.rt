//! Plans one by one: what an engine owes and gives, and the laws of selectors and of queues of prefixes.
//!
//! A `LazyPlans` hands out the plans of a mode, the cheapest first. It tells its system, its mode, the greatest cost
//! that is wanted if there is one, and which plans pend. One call gives a cheapest plan that pends, which then pends no
//! more, or says that none does, or why it stops; nothing else changes what pends. From this law alone it follows that
//! the list of plans given is right, and what its end says: `given_plans_are_right` and, from an earlier list on,
//! `earlier_plans_are_right` have these laws for contracts. `Steps` counts turns.
//!
//! An engine over a space keeps a `Shell`: the greatest cost that is wanted, how it ended (`Ending`), and a plan that was
//! found when the space could not be tidied. Such a plan is held in place of being handed out, and is owed still
//! (`specs/Shell.antt`); `proofs/Shells.antt` says what one call owes and gives, whatever the engine owes without it.
//!
//! The rest has no code: the laws of an `impl` can't cite the proofs of its own crate, so what selectors and queues
//! cite stands here, below them.
//!
//! A selector gives those plans of an engine that count as one with no plan of a set, which it keeps as keys.
//! `specs/SelectorsOwe.antt` says what it owes; `proofs/` says what one draw from the engine below does to it, and why
//! skipping ends: each plan that is skipped is a rearrangement of a key, of which fewer pend afterwards.
//!
//! A queue has prefixes of plans, and a plan of the mode pends where exactly one entry is a prefix of it
//! (`specs/Queue.antt`). A turn takes one entry out and puts its children in, that is the entry longer by one operator
//! each, but for those with which no plan of the mode goes on. The laws in `proofs/` serve all plans and loopless ones
//! alike: of runs and their states (`Traces`), children by operator after operator (`Growing`), and what pends after a
//! turn, whatever order the queue keeps (`Turns`), with the plan that is held (`specs/PrefixesOwe.antt`, `Owed`). For
//! loopless plans alone: a prefix passes no state twice (`Once`), so none is longer than the system has states, and
//! turns end (`specs/Weight.antt`, `Falls`).
//!
//! It stands on `task_system` for plans and right lists of a system, on `symk_task` for modes and for what counts as
//! one, and on `thiserror` for the error type.
#![tactic(auto)]

mod law;
mod laws;
mod shell;
mod steps;
mod stop;

pub use law::LazyPlans;
pub use laws::{earlier_plans_are_right, given_plans_are_right};
pub use shell::Shell;
pub use steps::Steps;
pub use stop::{Ending, Stop};
