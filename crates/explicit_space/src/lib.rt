//! A space over ordered sets of states.
//!
//! `ExplicitSpace::of` gives the space of a task: its sets are ordered sets of states, each at a place of its own,
//! and each call has exactly the states that `Space` says of the task's transition system. It judges states by
//! explicit runs, with the rules of the task sorted once and the values of each state found once a call. Time and
//! memory grow with the number of states of the sets at hand; `all` lists every state. A set's number is not used
//! again after it is given back. The space has no nodes: it holds 0 and needed 0 last, always, and `tidy` is Ok and
//! does nothing. Of the operators that may lead into a set, or apply in it, it names all. `FuseSpace::new` gives a
//! space over another that passes on so many calls that give a set or tidy, and answers Memory to each later one. The
//! nodes that it tells of are those of the other space. It stands on `space_api` for what a space is, on `task_run`
//! for steps and the goal, on `task_system` for the system of the task, and on `symk_task` for tasks and states.
#![tactic(auto)]

mod explicit;
mod facts;
mod fuse;
mod members;
mod states;
mod steps;

pub use explicit::ExplicitSpace;
pub use fuse::FuseSpace;
