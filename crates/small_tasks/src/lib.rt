//! Small tasks, for tests.
//!
//! Each call of `tasks.rt` makes the task that its definition in `specs/Tasks.antt` states, and it fits. The files of
//! the same names under `examples/` state the same tasks. All else that a test wants it states as a `Draft`, of which
//! `specs/Drafts.antt` says the task. The constants of `draft_parts.rt` are what drafts have in common: variables,
//! effects without conditions, operators and rules. It stands on `symk_task`.
#![tactic(auto)]

mod draft_parts;
mod drafts;
mod parts;
mod stating;
mod tasks;

pub use draft_parts::{
    BASE, DERIVED, FIRST_0_TO_1, FIRST_0_TO_2, FIRST_1_TO_0, FIRST_1_TO_2, FOURTH_WHERE_NOT_THIRD,
    FURTHER, NEXT, ON, SECOND_0_TO_1, SECOND_TO_0, SECOND_WHERE_FIRST, THIRD_WHERE_SECOND, THREE,
};
pub use drafts::{
    Draft, EffectDraft, OperatorDraft, RuleDraft, VariableDraft, drafted, drafted_parts, stated,
};
pub use parts::{fact, name, none, one, two};
pub use tasks::{
    axioms, conditional_effects, goal_at_start, later_effect_reaches, later_effect_undoes,
    near_and_far, no_operator, no_plan, one_switch, past_64_bits, same_name_twice, switch_and_back,
    two_switches, zero_costs,
};
