//! The variables.

ghost use Rattle.std.specs.Prelude.{◌≡◌, ◌++◌, ◌∷◌, [], OnOk, length, map, flat_map, decimal};
ghost use Rattle.sas_writer.specs.Spelling.{text_of, name_line, or_minus_one};
ghost use Rattle.sas_writer.specs.TaskLines.{variable_lines, variables_lines};

use crate::lines::{push_end, push_name, push_number_line, push_or_minus_one, push_word};
use symk_task::{List, Memory, Name, Variable};
use symk_text::Text;

/// Appends how many variables there are, and each.
#[tactic(auto, using(crate::proofs::Growth::text_of_append), unfolding(crate::specs::TaskLines::variables_lines))]
pub fn push_variables(text: &mut Text, variables: &List<Variable>) -> Result<(), Memory>
    ensures { OnOk result (text.new ≡ text.old ++ text_of (variables_lines variables.now)) }
{
    let variables = variables.as_slice();
    push_number_line(text, variables.len() as u64)?;
    push_each_variable(text, variables)
}

fn push_each_variable(text: &mut Text, variables: &[Variable]) -> Result<(), Memory>
    ensures { OnOk result (text.new ≡ text.old ++ text_of (flat_map variable_lines variables.now)) }
{
    for variable in variables {
        push_variable(text, variable)?;
    }
    Ok(())
}

#[tactic(auto, using(crate::proofs::Growth::text_of_append), unfolding(crate::specs::TaskLines::variable_lines))]
fn push_variable(text: &mut Text, variable: &Variable) -> Result<(), Memory>
    ensures { OnOk result (text.new ≡ text.old ++ text_of (variable_lines variable.now)) }
{
    push_word(text, b"begin_variable")?;
    push_name(text, &variable.name)?;
    push_layer(text, variable.layer)?;
    push_values(text, &variable.values)?;
    push_word(text, b"end_variable")
}

fn push_layer(text: &mut Text, layer: Option<u32>) -> Result<(), Memory>
    ensures { OnOk result (text.new ≡ text.old ++ text_of (or_minus_one layer ∷ [])) }
{
    push_or_minus_one(text, layer)?;
    push_end(text)
}

/// Appends how many values there are, and the name of each.
fn push_values(text: &mut Text, values: &List<Name>) -> Result<(), Memory>
    ensures { OnOk result (text.new ≡ text.old ++ text_of (decimal (length values.now) ∷ map name_line values.now)) }
{
    let values = values.as_slice();
    push_number_line(text, values.len() as u64)?;
    push_names(text, values)
}

fn push_names(text: &mut Text, names: &[Name]) -> Result<(), Memory>
    ensures { OnOk result (text.new ≡ text.old ++ text_of (map name_line names.now)) }
{
    for name in names {
        push_name(text, name)?;
    }
    Ok(())
}
