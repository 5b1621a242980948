//! Sets of states by cost: layers in rings, the steps that make one layer, and what runs reach inside a set.
//!
//! A `Layers` keeps sets of a space: for each cost the rings that were added for it, in that order, and their union,
//! the layer of that cost. Beside them it keeps a bound below which its layers are known to be right, and whether a
//! cost past the range was left out. It takes each ring over from its caller and gives back the unions that it
//! replaces; a layer of one ring is that ring itself. A `Layer` is one layer by itself, which is made elsewhere and
//! taken over whole. A refused call leaves the layers as they were.
//!
//! The steps make one layer of a cost from cheaper ones, over any space and on either side. A layer begins at the
//! starts, for cost 0, and where arcs that cost something lead from a cheaper layer; from there it goes on by arcs of
//! cost 0, ring by ring, inside a room of states. The calls make such a layer by itself, with exactly its sets new,
//! tell the room, whether arcs lead past a cost, and which operator leads out of a set. `OpenCosts` is the open list;
//! it opens the costs that follow from a layer. A refused call leaves the valid sets and the open costs as they were;
//! out of memory is the one refusal.
//!
//! `reach` gives the states that runs reach inside a set, from the initial state or back from the goal. Each set that
//! was made on the way is given back, here and by the steps.
//!
//! It stands on `space_api` for sets, on `run_graph` for sides, for what a layer is and for what is reached inside, on
//! `plan_cuts` for the side across, on `task_system` for states, and on `symk_task` for `Memory`.
#![tactic(auto)]

mod arcs;
mod closing;
mod gathering;
mod layers;
mod leaving;
mod meeting;
mod open_costs;
mod reaching;
mod release;
mod rooms;

pub use arcs::{along, escapes};
pub use closing::close;
pub use gathering::{gather, make_layer, unite_along};
pub use layers::{Layer, Layers};
pub use leaving::{images_lead_out, leads_out, way_out};
pub use open_costs::OpenCosts;
pub use reaching::{other_side, reach};
pub use release::forget_layer;
pub use rooms::{Room, leave_room, room_of};
