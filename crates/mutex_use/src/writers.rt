//! Which operators have an effect on a variable, and which touch a group.

ghost use Rattle.std.specs.Prelude.{◌≡◌, ◌<◌, ◌⊎◌, ◌↔◌, ◌++◌, ◌∷◌, [], ℕ, IsTrue, IfOk, OnOk, All, Contains, length, replicate, slice_set};
ghost use Rattle.std.specs.Ordering.{nat_cmp};
ghost use Rattle.std.specs.BTreeSet.{contains};
ghost use Rattle.mutex_use.specs.Groups.{mutex_group_at};
ghost use Rattle.mutex_use.specs.Writers.{writers_at, AreWriters, NotesWriter, IsVariableOf, IsNotedIn, HaveTouching};

use crate::groups::facts_of;
use std::alloc::Global;
use std::collections::BTreeSet;
use symk_task::{Effect, Fact, List, Memory, Task};

/// No operator, for each of so many variables.
fn no_writers(alloc: Global, variables: usize) -> Result<Vec<List<u32>>, Memory>
    ensures { IfOk result (λ writers. writers.items ≡ replicate variables []) }
{
    let mut writers = Vec::new(alloc);
    for _i in 0..variables {
        writers.push(List::of(Vec::new(alloc)))?;
    }
    Ok(writers)
}

/// Notes the operator for the variable.
fn note(writers: &mut [List<u32>], op: u32, var: u32) -> Result<(), Memory>
    requires { var < length writers.old }
    ensures { OnOk result (writers.new ≡ slice_set writers.old var (writers_at writers.old var ++ op ∷ [])) }
{
    writers[var as usize].push(op)
}

/// Notes the operator for the variable of each effect.
fn note_effects(writers: &mut [List<u32>], op: u32, effects: &[Effect]) -> Result<(), Memory>
    requires { All (λ effect. effect.var < length writers.old) effects.now }
    ensures { OnOk result (NotesWriter writers.old op effects.now writers.new) }
{
    'effects: for i in 0..effects.len() {
        note(writers, op, effects[i].var)?;
    }
    Ok(())
}

/// For each variable the operators that have an effect on it.
pub(crate) fn writers_of(alloc: Global, task: &Task) -> Result<Vec<List<u32>>, Memory>
    ensures { IfOk result (λ writers. AreWriters task.now (length task.now.operators) writers.items) }
{
    let parts = task.parts();
    let operators = parts.operators.as_slice();
    let mut writers = no_writers(alloc, parts.variables.len())?;
    'operators: for i in 0..operators.len() {
        note_effects(&mut writers, i as u32, operators[i].effects.as_slice())?;
    }
    Ok(writers)
}

/// The members of the set, rising.
fn members(alloc: Global, set: &BTreeSet<u32>) -> Result<Vec<u32>, Memory>
    ensures { IfOk result (λ numbers. numbers.items ≡ set.now.keys) }
{
    set.iter().copied().collect(alloc)
}

/// The variables of the facts, each once.
fn variables_of(alloc: Global, facts: &[Fact]) -> Result<Vec<u32>, Memory>
    ensures { IfOk result (λ variables. (var : ℕ) →
        Contains variables.items var ↔ IsVariableOf facts.now var) }
{
    let mut set = BTreeSet::new(alloc);
    'facts: for i in 0..facts.len() {
        set.insert(facts[i].var)?;
    }
    members(alloc, &set)
}

/// Adds the numbers to the set.
fn insert_all(set: &mut BTreeSet<u32>, numbers: &[u32]) -> Result<(), Memory>
    ensures { OnOk result ((n : ℕ) →
        IsTrue (contains nat_cmp set.new n) ↔ (IsTrue (contains nat_cmp set.old n) ⊎ Contains numbers.now n)) }
{
    'numbers: for i in 0..numbers.len() {
        set.insert(numbers[i])?;
    }
    Ok(())
}

/// The operators that are noted for the variable.
fn writers_at(writers: &[List<u32>], var: u32) -> &[u32]
    ensures { result.now ≡ writers_at writers.now var }
{
    match writers.get(var as usize) {
        Some(operators) => operators.as_slice(),
        None => &[],
    }
}

/// The operators that are noted for one of the variables.
fn writers_in(
    alloc: Global,
    writers: &[List<u32>],
    variables: &[u32],
) -> Result<BTreeSet<u32>, Memory>
    ensures { IfOk result (λ set. (op : ℕ) →
        IsTrue (contains nat_cmp set op) ↔ IsNotedIn writers.now variables.now op) }
{
    let mut operators = BTreeSet::new(alloc);
    'variables: for i in 0..variables.len() {
        insert_all(&mut operators, writers_at(writers, variables[i]))?;
    }
    Ok(operators)
}

/// The operators that have an effect on a variable of the group, each once.
pub(crate) fn touching(
    alloc: Global,
    task: &Task,
    writers: &[List<u32>],
    group: u32,
) -> Result<Vec<u32>, Memory>
    requires writers { AreWriters task.now (length task.now.operators) writers.now }
    requires group { group < length task.now.mutexes }
    ensures { IfOk result (λ operators. HaveTouching task.now (mutex_group_at task.now group) operators.items) }
{
    let variables = variables_of(alloc, facts_of(task, group))?;
    let operators = writers_in(alloc, writers, &variables)?;
    members(alloc, &operators)
}
