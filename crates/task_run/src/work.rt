//! Rules that are to be looked at, and rules that wait.

ghost use Rattle.std.specs.Prelude.{◌≡◌, ◌<◌, ◌≤◌, ℕ, [], ◌∷◌, ◌++◌, length, All, IfOk, OnOk, slice_set, slice_index_or, replicate, Any, ◌⊎◌};
ghost use Rattle.task_run.specs.declared.counting.Counting.{Counting};
ghost use Rattle.task_run.specs.Counted.{IsLayer};
ghost use Rattle.task_run.specs.Work.{StandsInList, waiting_at};

use crate::counting::Counting;
use std::alloc::Global;
use symk_task::{List, Memory};

/// The rules to look at; for each variable those that wait for it; for each rule the place of the condition at which
/// the last look stopped.
#[derive(Drop)]
pub(crate) struct Work {
    pub stack: Vec<u32>,
    pub waiting: Vec<List<u32>>,
    pub places: Vec<usize>,
}

impl Work {
    /// Nothing to look at, for so many variables and rules.
    pub fn of(alloc: Global, variables: usize, rules: usize) -> Result<Work, Memory>
        ensures stack { IfOk result (λ work. work.stack.items ≡ []) }
        ensures waiting { IfOk result (λ work. work.waiting.items ≡ replicate variables []) }
        ensures places { IfOk result (λ work. work.places.items ≡ replicate rules 0) }
    {
        Ok(Work {
            stack: Vec::new(alloc),
            waiting: none_waiting(alloc, variables)?,
            places: vec![in alloc; 0; rules]?,
        })
    }

    /// The rule waits for the variable, the next look at it begins at the place.
    pub fn wait(&mut self, rule: u32, place: usize, var: u32) -> Result<(), Memory>
        requires rule { rule < length self.old.places.items }
        requires var { var < length self.old.waiting.items }
        ensures waiting { OnOk result (self.new.waiting.items ≡ slice_set self.old.waiting.items var
            (waiting_at self.old.waiting.items var ++ rule ∷ [])) }
        ensures stack { self.new.stack.items ≡ self.old.stack.items }
        ensures places { self.new.places.items ≡ slice_set self.old.places.items rule place }
    {
        self.places[rule as usize] = place;
        self.waiting[var as usize].push(rule)
    }

    /// The rules that wait for the variable are looked at again.
    pub fn wake(&mut self, alloc: Global, var: u32) -> Result<(), Memory>
        requires { var < length self.old.waiting.items }
        ensures waiting { OnOk result (self.new.waiting.items ≡ slice_set self.old.waiting.items var []) }
        ensures stack { OnOk result (self.new.stack.items ≡ self.old.stack.items ++ waiting_at
            self.old.waiting.items var) }
        ensures places { self.new.places.items ≡ self.old.places.items }
    {
        let none = List::of(Vec::new(alloc));
        let woken = std::mem::replace(&mut self.waiting[var as usize], none);
        self.stack.extend_from_slice(woken.as_slice())?;
        Ok(())
    }

    /// The rules of the layer, which begin at the place, are looked at. Where they end.
    pub fn stack_layer(
        &mut self,
        rules: &[Counting],
        layer: u32,
        from: usize,
    ) -> Result<usize, Memory>
        requires { from ≤ length rules.now }
        ensures layer { IfOk result (λ end. IsLayer rules.now layer from end) }
        ensures stacked { IfOk result (λ end. (k : ℕ) (d : Counting) → from ≤ k → k < end
            → StandsInList self.new.stack.items (slice_index_or rules.now k d).rule) }
        ensures only { IfOk result (λ end. (x : ℕ) → StandsInList self.new.stack.items x
            → StandsInList self.old.stack.items x ⊎ Any (λ counting. counting.rule ≡ x) rules.now) }
        ensures waiting { self.new.waiting.items ≡ self.old.waiting.items }
        ensures places { self.new.places.items ≡ self.old.places.items }
    {
        let mut end = from;
        'same: while end < rules.len() && rules[end].layer == layer {
            self.stack.push(rules[end].rule)?;
            end += 1;
        }
        Ok(end)
    }
}

/// No rule waits for any of so many variables.
fn none_waiting(alloc: Global, variables: usize) -> Result<Vec<List<u32>>, Memory>
    ensures { IfOk result (λ waiting. waiting.items ≡ replicate variables []) }
{
    let mut waiting = Vec::new(alloc);
    for _i in 0..variables {
        waiting.push(List::of(Vec::new(alloc)))?;
    }
    Ok(waiting)
}
