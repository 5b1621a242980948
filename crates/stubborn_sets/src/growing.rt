//! A set that grows.

/// A set of numbers that grows: of operators, or of variables.
#[derive(Drop)]
pub(crate) struct Growing {
    /// A mark for each number that is in it.
    pub(crate) marks: Vec<bool>,
    /// Those in it whose needs were not added yet.
    pub(crate) waiting: Vec<u32>,
}

ghost use Rattle.std.specs.Prelude.{◌≡◌, ◌<◌, [], All, IsTrue, IfOk, OnOk, length, replicate, false};
ghost use Rattle.stubborn_sets.specs.Closing.{has_mark};
ghost use Rattle.stubborn_sets.specs.Growing.{AddsNumbers};

use crate::depending::is_marked;
use std::alloc::Global;
use symk_task::Memory;

impl Growing {
    /// The empty set of numbers below this one.
    pub(crate) fn new(alloc: Global, below: usize) -> Result<Growing, Memory>
        ensures marks { IfOk result (λ set. set.marks.items ≡ replicate below false) }
        ensures waiting { IfOk result (λ set. set.waiting.items ≡ []) }
    {
        Ok(Growing {
            marks: vec![in alloc; false; below]?,
            waiting: Vec::new(alloc),
        })
    }

    /// Adds the number, unless it is in the set.
    pub(crate) fn add(&mut self, number: u32) -> Result<(), Memory>
        requires { number < length self.old.marks.items }
        ensures adds { OnOk result (AddsNumbers self.old self.new) }
        ensures has { OnOk result (IsTrue (has_mark self.new.marks.items number)) }
    {
        if self.marks[number as usize] {
            return Ok(());
        }
        self.marks[number as usize] = true;
        self.waiting.push(number)?;
        Ok(())
    }

    /// Adds the numbers that are not in the set.
    pub(crate) fn add_all(&mut self, numbers: &[u32]) -> Result<(), Memory>
        requires { All (λ number. number < length self.old.marks.items) numbers.now }
        ensures adds { OnOk result (AddsNumbers self.old self.new) }
        ensures has { OnOk result (All (λ number. IsTrue (has_mark self.new.marks.items number)) numbers.now) }
    {
        for number in numbers {
            self.add(*number)?;
        }
        Ok(())
    }

    /// How many of those that wait, but for so many that have waited longest, are marked by `marks`.
    pub(crate) fn count_new(&self, from: usize, marks: &[bool]) -> usize {
        match self.waiting.get(from..) {
            Some(new) => new
                .iter()
                .filter(|number| is_marked(marks, **number))
                .count(),
            None => 0,
        }
    }
}
