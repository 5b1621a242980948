//! The members in which a fact holds.

ghost use Rattle.std.specs.Prelude.{◌≡◌, ◌<◌, ◌≤◌, ◌↔◌, count_by, take, length, slice_index, IsTrue, IfOk};
ghost use Rattle.symk_task.specs.Variables.{is_base, IsBase};
ghost use Rattle.symk_task.specs.Steps.{Holds};
ghost use Rattle.explicit_space.specs.Members.{has_explicit_state, AreStates, HasThoseStates};

use crate::members::insert_if;
use std::alloc::Global;
use std::collections::BTreeSet;
use symk_task::{Fact, Memory, State, Task, Variable};

/// The place of a base variable's value in a state: how many base variables stand before it.
fn place_of(variables: &[Variable], var: u32) -> usize
    requires { var < length variables.now }
    ensures { result ≡ count_by is_base (take var variables.now) }
{
    let mut place = 0;
    'variables: for i in 0..var as usize {
        if variables[i].layer.is_none() {
            place += 1;
        }
    }
    place
}

/// Whether the state has the value at the place.
fn has_value(state: &State, place: usize, value: u32) -> bool
    requires { place < length state.now }
    ensures { IsTrue result ↔ (slice_index state.now place ≡ value) }
{
    state.as_slice()[place] == value
}

/// The members where the fact of a base variable holds.
pub(crate) fn fact_states(
    alloc: Global,
    task: &Task,
    fact: Fact,
    members: &BTreeSet<State>,
) -> Result<BTreeSet<State>, Memory>
    requires fact { IsBase task.now fact.var }
    requires states { AreStates task.now members.now }
    ensures { IfOk result (λ set. HasThoseStates set (λ s. IsTrue (has_explicit_state members.now s)
        × Holds task.now s fact)) }
{
    let place = place_of(task.parts().variables.as_slice(), fact.var);
    let mut set = BTreeSet::new(alloc);
    for member in members {
        insert_if(alloc, member, has_value(member, place, fact.val), &mut set)?;
    }
    Ok(set)
}
