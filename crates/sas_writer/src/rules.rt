//! The rules.

ghost use Rattle.std.specs.Prelude.{◌≡◌, ◌++◌, ◌∷◌, [], OnOk, flat_map};
ghost use Rattle.sas_writer.specs.Spelling.{text_of};
ghost use Rattle.sas_writer.specs.TaskLines.{head_line, rule_lines, rules_lines};

use crate::facts::push_facts;
use crate::lines::{push_end, push_number_and_space, push_number_line, push_word};
use symk_task::{List, Memory, Rule};
use symk_text::{Text, push_number};

/// Appends how many rules there are, and each.
#[tactic(auto, using(crate::proofs::Growth::text_of_append), unfolding(crate::specs::TaskLines::rules_lines))]
pub fn push_rules(text: &mut Text, rules: &List<Rule>) -> Result<(), Memory>
    ensures { OnOk result (text.new ≡ text.old ++ text_of (rules_lines rules.now)) }
{
    let rules = rules.as_slice();
    push_number_line(text, rules.len() as u64)?;
    push_each_rule(text, rules)
}

fn push_each_rule(text: &mut Text, rules: &[Rule]) -> Result<(), Memory>
    ensures { OnOk result (text.new ≡ text.old ++ text_of (flat_map rule_lines rules.now)) }
{
    for rule in rules {
        push_rule(text, rule)?;
    }
    Ok(())
}

#[tactic(auto, using(crate::proofs::Growth::text_of_append), unfolding(crate::specs::TaskLines::rule_lines))]
fn push_rule(text: &mut Text, rule: &Rule) -> Result<(), Memory>
    ensures { OnOk result (text.new ≡ text.old ++ text_of (rule_lines rule.now)) }
{
    push_word(text, b"begin_rule")?;
    push_facts(text, &rule.conds)?;
    push_head(text, rule)?;
    push_word(text, b"end_rule")
}

/// Appends the line of the variable, the value that it had and the value that it gets.
#[tactic(auto, unfolding(crate::specs::TaskLines::head_line))]
fn push_head(text: &mut Text, rule: &Rule) -> Result<(), Memory>
    ensures { OnOk result (text.new ≡ text.old ++ text_of (head_line rule.now ∷ [])) }
{
    push_number_and_space(text, u64::from(rule.var))?;
    push_number_and_space(text, u64::from(1u32.saturating_sub(rule.new)))?;
    push_number(text, u64::from(rule.new))?;
    push_end(text)
}
