//! What drafts have in common: variables, effects without conditions, operators and rules. The first variable is that
//! of number 0, and its values are numbered from 0 too.

use crate::drafts::{EffectDraft, OperatorDraft, RuleDraft, VariableDraft};

/// A base variable with two values.
pub const BASE: VariableDraft = VariableDraft {
    layer: None,
    values: 2,
};

/// A base variable with three values.
pub const THREE: VariableDraft = VariableDraft {
    layer: None,
    values: 3,
};

/// A derived variable of the first layer, with two values.
pub const DERIVED: VariableDraft = VariableDraft {
    layer: Some(0),
    values: 2,
};

/// A derived variable of the next layer, with two values.
pub const NEXT: VariableDraft = VariableDraft {
    layer: Some(1),
    values: 2,
};

/// The first variable goes from 0 to 1.
pub const FIRST_0_TO_1: EffectDraft = EffectDraft {
    conds: &[],
    var: 0,
    pre: Some(0),
    post: 1,
};

/// The first variable goes from 0 to 2.
pub const FIRST_0_TO_2: EffectDraft = EffectDraft {
    conds: &[],
    var: 0,
    pre: Some(0),
    post: 2,
};

/// The first variable goes from 1 to 0.
pub const FIRST_1_TO_0: EffectDraft = EffectDraft {
    conds: &[],
    var: 0,
    pre: Some(1),
    post: 0,
};

/// The first variable goes from 1 to 2.
pub const FIRST_1_TO_2: EffectDraft = EffectDraft {
    conds: &[],
    var: 0,
    pre: Some(1),
    post: 2,
};

/// The second variable goes from 0 to 1.
pub const SECOND_0_TO_1: EffectDraft = EffectDraft {
    conds: &[],
    var: 1,
    pre: Some(0),
    post: 1,
};

/// The operator without a name by which the first variable goes from 0 to 1, at cost 1.
pub const ON: OperatorDraft = OperatorDraft {
    name: b"",
    effects: &[FIRST_0_TO_1],
    cost: 1,
};

/// The operator `one` by which the first variable goes further, from 1 to 2, at cost 1.
pub const FURTHER: OperatorDraft = OperatorDraft {
    name: b"one",
    effects: &[FIRST_1_TO_2],
    cost: 1,
};

/// The second variable is 1 where the first is.
pub const SECOND_WHERE_FIRST: RuleDraft = RuleDraft {
    conds: &[(0, 1)],
    var: 1,
    new: 1,
};

/// The second variable is 0, with no condition.
pub const SECOND_TO_0: RuleDraft = RuleDraft {
    conds: &[],
    var: 1,
    new: 0,
};

/// The third variable is 1 where the second is.
pub const THIRD_WHERE_SECOND: RuleDraft = RuleDraft {
    conds: &[(1, 1)],
    var: 2,
    new: 1,
};

/// The fourth variable is 1 where the third is 0.
pub const FOURTH_WHERE_NOT_THIRD: RuleDraft = RuleDraft {
    conds: &[(2, 0)],
    var: 3,
    new: 1,
};
