//! One search by cost, for both directions and over every space of sets.
//!
//! A search settles costs from 0 on, the least open one each time: the layer of that cost, which begins where operators
//! lead from cheaper layers and goes on by operators of cost 0, and then the costs that it opens. Below its bound the
//! layers are right: they have the states of their cost, in rings by the number of operators of cost 0 at the end of a
//! list. It tells when no operator leads out of the layers' union, and its layers may be cut to the useful states. A
//! call that is refused leaves layers, bound and open costs as they were, and makes no set valid; from then on the
//! search answers that fault. A search can give all sets that it made back. It stands on `cost_layers` for the layers
//! and for the steps that make one, on `run_graph` for what right layers are, on `space_api` for sets, on `task_system`
//! for states, and on `symk_task` for `Memory`.
//!
//! The search by cost is that of E. W. Dijkstra (1959), over sets of states.
#![tactic(auto)]

mod backward;
mod costs;
mod directed;
mod direction;
mod forward;
mod next_layer;
mod release;
mod restrict;
mod search;

pub use costs::{cost_after, first_meeting, first_with_state};
pub use directed::Directed;
pub use direction::{Direction, FromGoal, FromInit};
pub use search::{Search, Step};
