//! The relations of all operators of a task, each by itself and joined by cost, up to a bound of nodes.
//!
//! Images cost least where relations are few but small. `merge` joins relations of one cost by halves, as long as a
//! joined one has at most so many nodes. It promises that each result is made of members that stand next to each other,
//! each member in exactly one result; that its steps are exactly those of its members, so that the images by the
//! results together are those by the members together, and so the preimages; that no result of two or more members has
//! more nodes than the bound; and that two halves which each came to one relation stay apart exactly where the joined
//! one has more nodes than the bound (`specs/Merging.antt`).
//!
//! `OperatorRelations::of` makes of each operator the relation of its steps, and of the operators of each cost
//! relations that are joined so; relations of different costs are never joined. It promises that each operator's
//! relation has exactly its steps, that the relations of a cost together have exactly the steps of the operators of
//! that cost, and that the costs are the different ones of the operators, rising (`specs/Relations.antt`); and that the
//! relations of a cost are the results of `merge` over copies of those of its operators, in their order
//! (`specs/Halves.antt`). `image_op` and `pre_op` name exactly the states that one operator leads to from a set, and
//! from which it leads into the set; `image_cost` and `pre_cost` those by the operators of a cost, and none where no
//! operator has it. An image makes nothing but nodes. `push_roots` and `take_roots` are for a collection of the table:
//! whoever collects puts the roots into its list and takes them back from there, moved, and then the relations are
//! those of the same task over the new nodes. They stay so as the table grows.
//!
//! After every call, refused or not, each Id that was known means the same and the table is reduced; out of memory is
//! the only refusal. Sources: Burch, Clarke and Long, "Symbolic Model Checking with Partitioned Transition Relations"
//! (1991); for planning, Torralba, Edelkamp and Kissmann, "Transition Trees for Cost-Optimal Symbolic Planning" (2013);
//! for parting the steps by cost, Torralba, Alcázar, Kissmann and Edelkamp, "Efficient Symbolic Search for Cost-optimal
//! Planning" (2017).
//!
//! It stands on `transitions` for the relation of one operator, on `bdd_ops` for operations on diagrams, on
//! `axiom_layers` for derived variables, and on `space_api` for the list of costs.
#![tactic(auto)]

mod costwise;
mod images;
mod joining;
mod members;
mod merging;
mod places;
mod relations;
mod roots;
mod single;
mod size;
mod widening;

pub use merging::merge;
pub use relations::OperatorRelations;
