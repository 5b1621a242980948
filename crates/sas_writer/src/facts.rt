//! Lists of facts.

ghost use Rattle.std.specs.Prelude.{◌≡◌, ◌++◌, ◌∷◌, [], OnOk, map, flat_map};
ghost use Rattle.sas_writer.specs.Spelling.{text_of, fact_line, condition};
ghost use Rattle.sas_writer.specs.TaskLines.{facts_lines};

use crate::lines::{push_end, push_number_and_space, push_number_line};
use symk_task::{Fact, List, Memory};
use symk_text::{Text, push_bytes, push_number};

/// Appends how many facts there are, and a line for each.
#[tactic(auto, using(crate::proofs::Growth::text_of_append), unfolding(crate::specs::TaskLines::facts_lines))]
pub fn push_facts(text: &mut Text, facts: &List<Fact>) -> Result<(), Memory>
    ensures { OnOk result (text.new ≡ text.old ++ text_of (facts_lines facts.now)) }
{
    let facts = facts.as_slice();
    push_number_line(text, facts.len() as u64)?;
    push_each_fact(text, facts)
}

fn push_each_fact(text: &mut Text, facts: &[Fact]) -> Result<(), Memory>
    ensures { OnOk result (text.new ≡ text.old ++ text_of (map fact_line facts.now)) }
{
    for fact in facts {
        push_fact(text, *fact)?;
        push_end(text)?;
    }
    Ok(())
}

/// Appends the facts as conditions of an effect, a space after each.
pub fn push_conditions(text: &mut Text, facts: &[Fact]) -> Result<(), Memory>
    ensures { OnOk result (text.new ≡ text.old ++ flat_map condition facts.now) }
{
    for fact in facts {
        push_fact(text, *fact)?;
        push_bytes(text, b" ")?;
    }
    Ok(())
}

fn push_fact(text: &mut Text, fact: Fact) -> Result<(), Memory>
    ensures { OnOk result (text.new ≡ text.old ++ fact_line fact) }
{
    push_number_and_space(text, u64::from(fact.var))?;
    push_number(text, u64::from(fact.val))
}
