//! The operators.

ghost use Rattle.std.specs.Prelude.{◌≡◌, ◌<◌, ◌^◌, ◌++◌, ◌∷◌, [], OnOk, length, map, flat_map, decimal};
ghost use Rattle.sas_writer.specs.Spelling.{text_of, effect_line};
ghost use Rattle.sas_writer.specs.TaskLines.{operator_lines, operators_lines, HasSmallCosts};

use crate::facts::{push_conditions, push_facts};
use crate::lines::{
    push_cost, push_end, push_name, push_number_and_space, push_number_line, push_or_minus_one,
    push_word,
};
use symk_task::{Effect, List, Memory, Operator};
use symk_text::{Text, push_bytes, push_number};

/// Appends how many operators there are, and each.
#[tactic(auto, using(crate::proofs::Growth::text_of_append), unfolding(crate::specs::TaskLines::operators_lines))]
pub fn push_operators(text: &mut Text, operators: &List<Operator>) -> Result<(), Memory>
    ensures lines { OnOk result (text.new ≡ text.old ++ text_of (operators_lines operators.now)) }
    ensures costs { OnOk result (HasSmallCosts operators.now) }
{
    let operators = operators.as_slice();
    push_number_line(text, operators.len() as u64)?;
    push_each_operator(text, operators)
}

fn push_each_operator(text: &mut Text, operators: &[Operator]) -> Result<(), Memory>
    ensures lines { OnOk result (text.new ≡ text.old ++ text_of (flat_map operator_lines operators.now)) }
    ensures costs { OnOk result (HasSmallCosts operators.now) }
{
    for operator in operators {
        push_operator(text, operator)?;
    }
    Ok(())
}

#[tactic(auto, using(crate::proofs::Growth::text_of_append), unfolding(crate::specs::TaskLines::operator_lines))]
fn push_operator(text: &mut Text, operator: &Operator) -> Result<(), Memory>
    ensures lines { OnOk result (text.new ≡ text.old ++ text_of (operator_lines operator.now)) }
    ensures cost { OnOk result (operator.now.cost < 2 ^ 64) }
{
    push_word(text, b"begin_operator")?;
    push_name(text, &operator.name)?;
    push_facts(text, &operator.prevail)?;
    push_effects(text, &operator.effects)?;
    push_cost(text, operator.cost)?;
    push_word(text, b"end_operator")
}

/// Appends how many effects there are, and a line for each.
fn push_effects(text: &mut Text, effects: &List<Effect>) -> Result<(), Memory>
    ensures { OnOk result (text.new ≡ text.old ++ text_of (decimal (length effects.now) ∷ map effect_line
        effects.now)) }
{
    let effects = effects.as_slice();
    push_number_line(text, effects.len() as u64)?;
    push_each_effect(text, effects)
}

fn push_each_effect(text: &mut Text, effects: &[Effect]) -> Result<(), Memory>
    ensures { OnOk result (text.new ≡ text.old ++ text_of (map effect_line effects.now)) }
{
    for effect in effects {
        push_effect(text, effect)?;
        push_end(text)?;
    }
    Ok(())
}

#[tactic(auto, unfolding(crate::specs::Spelling::effect_line))]
fn push_effect(text: &mut Text, effect: &Effect) -> Result<(), Memory>
    ensures { OnOk result (text.new ≡ text.old ++ effect_line effect.now) }
{
    let conds = effect.conds.as_slice();
    push_number_and_space(text, conds.len() as u64)?;
    push_conditions(text, conds)?;
    push_number_and_space(text, u64::from(effect.var))?;
    push_or_minus_one(text, effect.pre)?;
    push_bytes(text, b" ")?;
    push_number(text, u64::from(effect.post))
}
