//! Selectors: what is taken of the plans of any engine, and classes of an engine that keeps a member of each.
//!
//! `Unordered` gives the first plan of each class of rearrangements, and `After` the plans that an earlier list lacks;
//! both keep the law of an engine, so what is proved of lists of plans given holds of theirs. `Limited` is an iterator
//! over the first plans of an engine, which asks nothing after the last that is wanted. For other selectors `Keys` and
//! `note_class` tell which classes were met.
//!
//! An engine that leaves out plans, as one that goes on by stubborn sets does, keeps no law of all plans. `LazyMembers`
//! is the law that it can keep: of each class of rearrangements, but for those that it gave, a member pends. From it
//! `Classes` makes an engine of mode `Unordered` under the law of all engines, so that what is proved of lists of plans
//! given holds of its lists: what it owes are the plans of the system of whose classes none was given, whether or not
//! the engine below would give them. `Whole` is an engine of all plans of its mode, seen as one that keeps members.
//!
//! It stands on `lazy_plans` for the law of engines, for what a draw from the engine below does to it and for
//! rearrangements and their keys, and on `indexmap` for the sets of keys.
#![tactic(auto)]

mod after;
mod classes;
mod keys;
mod limited;
mod members;
mod unordered;
mod whole;

pub use after::After;
pub use classes::Classes;
pub use keys::Keys;
pub use lazy_plans::{LazyPlans, Steps, Stop};
pub use limited::Limited;
pub use members::LazyMembers;
pub use unordered::Unordered;
pub use whole::Whole;
