//! Operators as diagrams, and images and preimages of sets of states.
//!
//! `relation` makes of an operator the set of its steps: a diagram over the levels that an `Order` gives the bits of
//! a state, and the next levels of the variables that the operator's effects are on. It promises that the diagram
//! holds exactly for the bits of the steps of the task's meaning, where the operator applies and leads from one state
//! to the other; bits that the effects don't touch stay, and are left out of it; `same_bit` holds exactly where one
//! bit stays. `image` names exactly the states to which steps lead from the members of a set, and `preimage` exactly
//! those from which a step leads to a member; both name bits of states alone (`specs/Relations.antt`). After every
//! call, refused or not, each Id that was known means the same and the table is reduced; out of memory is the only
//! refusal. A relation keeps its levels, and an image or a preimage is one operation on diagrams, so that it makes
//! nothing but nodes. Sources: for images by relational products, Burch, Clarke, McMillan, Dill and Hwang, "Symbolic
//! Model Checking: 10^20 States and Beyond" (1992); in planning, Torralba, Alcázar, Kissmann and Edelkamp, "Efficient
//! Symbolic Search for Cost-optimal Planning" (2017). It stands on `axiom_layers`, `bdd_sets` and `bdd_ops`, and for
//! what an operator leads to on `task_run` and `task_system`.
#![tactic(auto)]

mod building;
mod conditions;
mod effects;
mod images;
mod moves;
mod relations;
mod touched;

pub use building::relation;
pub use effects::same_bit;
pub use images::{image, preimage};
pub use relations::Relation;
