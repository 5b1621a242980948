//! Prefixes of plans, opened once for each node: what pends, and what a turn changes of it.
//!
//! A node is a state and how often each operator was used on the way there. Prefixes that lead to one node join: what
//! goes on from the one goes on from the other, to rearrangements that cost the same and end in the same state. So an
//! engine that wants one plan of each class opens the first of them alone. It keeps the prefixes that it opened and a
//! queue of those that wait. Between two turns each operator of a set that is stubborn where an opened prefix ends goes
//! on from it to a prefix that is met, that is joined by one that was opened or waits, or from which no plan goes on. A
//! plan pends where it joins no prefix that was opened, and from an entry of the queue each plan that pends goes on,
//! rearranged. The laws say so, and what becomes of it where an entry is opened, left out, or put back. The lemmas that
//! an engine cites by name stand in `proofs/`: children by operator after operator (`Reaching`), turns (`Covering`),
//! what pends (`Pending`), and calls of several turns (`Calls`). It has no algorithm. It stands on `stubborn_sets` for
//! plans that begin inside a stubborn set, on `lazy_plans` for prefixes, queues and what rearrangements cost, on
//! `space_api` for lists of states, on `selectors` for what a call answers, and on `task_system` for plans.
#![tactic(auto)]

mod laws;

pub use laws::{
    calls_follow_turns, dear_is_out_of_range, dear_leaves_none, each_pends_at_first,
    empty_leaves_none, endings_stand, entries_may_be_put_back, hopeless_may_go, joined_may_go,
    opening_covers, opening_gives_the_plan, opening_keeps_all, pending_goes_on, pending_is_bounded,
    pending_is_told, refusal_keeps_all,
};
