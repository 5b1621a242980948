//! One plan of each class of rearrangements at least, the cheapest first, out of a queue of prefixes.
//!
//! It goes on as `prefix_plans` does: the entry of the least bound is taken, and its children come, or more is learned of
//! it, or a search from both ends goes on. But plans that are rearrangements of one another are wanted once, so it leaves
//! out prefixes. Of the moves from a state only those of a stubborn set of it are taken, unless none of them leads nearer
//! to a plan; then the others are taken too. The set of a state is made once, and kept by the state's number. And
//! prefixes join where they have the same operators, each as often, and lead to one state: of these the first that is
//! taken is opened, and the others are dropped. There are two queues: a prefix all of whose operators belong to one of
//! the last plans that were given waits in the late one, behind prefixes of the same bound in the other. For what it
//! leads to is often a rearrangement of that plan. What pends are the plans that join no prefix that was opened. Before
//! memory is refused nothing of them is lost, so no plan is held. It stands on `prefix_plans` for what is known of
//! prefixes by where they end, on `member_laws` for what pends, on `stubborn_sets` for the moves that are enough, on
//! `prefix_tree` for prefixes and their queue, and on `selectors` for the law that it keeps.
//!
//! Stubborn sets in search: A. Valmari (1989); M. Wehrle and M. Helmert (2012).
#![tactic(auto)]

mod beginning;
mod engine;
mod expand;
mod front;
mod given;
mod hints;
mod joining;
mod kept;
mod keys;
mod moves;
mod nearer;
mod opened;
mod turn;
mod walk;

pub use engine::MemberPlans;
