//! The head, the mutex groups, the initial state and the goal.

ghost use Rattle.std.specs.Prelude.{◌≡◌, ◌++◌, OnOk, map, flat_map, decimal};
ghost use Rattle.sas_writer.specs.Spelling.{text_of};
ghost use Rattle.sas_writer.specs.TaskLines.{head_lines, mutex_lines, mutexes_lines, state_lines, goal_lines};

use crate::facts::push_facts;
use crate::lines::{push_number_line, push_word};
use symk_task::{Fact, List, Memory};
use symk_text::Text;

/// Appends the version and the metric.
#[tactic(auto, unfolding(crate::specs::TaskLines::head_lines))]
pub fn push_head(text: &mut Text, metric: u8) -> Result<(), Memory>
    ensures { OnOk result (text.new ≡ text.old ++ text_of (head_lines metric)) }
{
    push_word(text, b"begin_version")?;
    push_word(text, b"3")?;
    push_word(text, b"end_version")?;
    push_word(text, b"begin_metric")?;
    push_number_line(text, u64::from(metric))?;
    push_word(text, b"end_metric")
}

/// Appends how many mutex groups there are, and each.
#[tactic(auto, using(crate::proofs::Growth::text_of_append), unfolding(crate::specs::TaskLines::mutexes_lines))]
pub fn push_mutexes(text: &mut Text, mutexes: &List<List<Fact>>) -> Result<(), Memory>
    ensures { OnOk result (text.new ≡ text.old ++ text_of (mutexes_lines mutexes.now)) }
{
    let mutexes = mutexes.as_slice();
    push_number_line(text, mutexes.len() as u64)?;
    push_each_mutex(text, mutexes)
}

fn push_each_mutex(text: &mut Text, mutexes: &[List<Fact>]) -> Result<(), Memory>
    ensures { OnOk result (text.new ≡ text.old ++ text_of (flat_map mutex_lines mutexes.now)) }
{
    for mutex in mutexes {
        push_mutex(text, mutex)?;
    }
    Ok(())
}

#[tactic(auto, using(crate::proofs::Growth::text_of_append), unfolding(crate::specs::TaskLines::mutex_lines))]
fn push_mutex(text: &mut Text, facts: &List<Fact>) -> Result<(), Memory>
    ensures { OnOk result (text.new ≡ text.old ++ text_of (mutex_lines facts.now)) }
{
    push_word(text, b"begin_mutex_group")?;
    push_facts(text, facts)?;
    push_word(text, b"end_mutex_group")
}

/// Appends the initial state.
#[tactic(auto, using(crate::proofs::Growth::text_of_append), unfolding(crate::specs::TaskLines::state_lines))]
pub fn push_state(text: &mut Text, values: &List<u32>) -> Result<(), Memory>
    ensures { OnOk result (text.new ≡ text.old ++ text_of (state_lines values.now)) }
{
    push_word(text, b"begin_state")?;
    push_values(text, values)?;
    push_word(text, b"end_state")
}

fn push_values(text: &mut Text, values: &List<u32>) -> Result<(), Memory>
    ensures { OnOk result (text.new ≡ text.old ++ text_of (map decimal values.now)) }
{
    for value in values.as_slice() {
        push_number_line(text, u64::from(*value))?;
    }
    Ok(())
}

/// Appends the goal.
#[tactic(auto, using(crate::proofs::Growth::text_of_append), unfolding(crate::specs::TaskLines::goal_lines))]
pub fn push_goal(text: &mut Text, facts: &List<Fact>) -> Result<(), Memory>
    ensures { OnOk result (text.new ≡ text.old ++ text_of (goal_lines facts.now)) }
{
    push_word(text, b"begin_goal")?;
    push_facts(text, facts)?;
    push_word(text, b"end_goal")
}
