//! Whether two operators meet well at a variable.

ghost use Rattle.std.specs.Prelude.{◌≡◌, ◌<◌, ◌↔◌, ℕ, IsTrue, All, slice_get};
ghost use Rattle.std.specs.Option.{option_map};
ghost use Rattle.symk_task.specs.Variables.{range};
ghost use Rattle.stubborn_sets.specs.Reading.{AreLocal};
ghost use Rattle.symk_task.specs.Fits.{Fits};
ghost use Rattle.stubborn_sets.specs.Meeting.{MeetAt, MeetEach, Meet, MeetOnAll};

use crate::reading::{allows_value, are_local, ignores, untouched, value_after};
use symk_task::{Effect, Operator, TaskParts};

/// Whether both operators, where the variable has the value, do the same to it in either order, let each other apply,
/// and leave it where the other's effects elsewhere depend on it.
fn meet_at(parts: &TaskParts, one: &Operator, other: &Operator, var: u32, val: u32) -> bool
    ensures { IsTrue result ↔ MeetAt parts.now one.now other.now var val }
{
    let by_one = value_after(one.effects.as_slice(), var, val);
    let by_other = value_after(other.effects.as_slice(), var, val);
    allows_value(other, var, by_one)
        && allows_value(one, var, by_other)
        && value_after(other.effects.as_slice(), var, by_one)
            == value_after(one.effects.as_slice(), var, by_other)
        && (by_one == val || ignores(parts, other, var))
        && (by_other == val || ignores(parts, one, var))
}

/// Whether they do so at each value that both allow.
fn meet_each(parts: &TaskParts, one: &Operator, other: &Operator, var: u32, range: u32) -> bool
    ensures { IsTrue result → MeetEach parts.now one.now other.now var range }
{
    for val in 0..range {
        if allows_value(one, var, val)
            && allows_value(other, var, val)
            && !meet_at(parts, one, other, var, val)
        {
            return false;
        }
    }
    true
}

/// How many values the variable has.
fn range_of(parts: &TaskParts, var: u32) -> Option<u32>
    requires { Fits parts.now }
    ensures { result ≡ option_map range (slice_get parts.now.variables var) }
{
    let variable = parts.variables.as_slice().get(var as usize)?;
    Some(variable.values.len() as u32)
}

/// Whether what both operators do to the variable depends on its own value alone.
fn are_both_local(one: &Operator, other: &Operator, var: u32) -> bool
    ensures { IsTrue result ↔ (AreLocal var one.now.effects × AreLocal var other.now.effects) }
{
    are_local(one.effects.as_slice(), var) && are_local(other.effects.as_slice(), var)
}

/// Whether one of the operators doesn't touch the variable, or what both do to it depends on its own value alone, and
/// they meet well at each value.
fn meet(parts: &TaskParts, one: &Operator, other: &Operator, var: u32) -> bool
    requires { Fits parts.now }
    ensures { IsTrue result → Meet parts.now one.now other.now var }
{
    if untouched(parts, one, var) || untouched(parts, other, var) {
        return true;
    }
    match range_of(parts, var) {
        Some(range) => {
            are_both_local(one, other, var) && meet_each(parts, one, other, var, range)
        }
        None => false,
    }
}

/// Whether the operators meet well at each variable that one of the effects is on.
pub(crate) fn meet_on_all(
    parts: &TaskParts,
    one: &Operator,
    other: &Operator,
    effects: &[Effect],
) -> bool
    requires { Fits parts.now }
    ensures { IsTrue result → MeetOnAll parts.now one.now other.now effects.now }
{
    effects
        .iter()
        .all(|effect| meet(parts, one, other, effect.var))
}
