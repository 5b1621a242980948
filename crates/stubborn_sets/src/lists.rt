//! Lists by number.

/// Lists of operators or of rules, by number: empty where nothing was put into one.
#[derive(Drop)]
pub(crate) struct Lists {
    lists: Vec<Vec<u32>>,
}

ghost use Rattle.std.specs.Prelude.{◌≡◌, ℕ, [], OnOk, Contains};
ghost use Rattle.stubborn_sets.specs.Kept.{list_at, list_in, AddsOne};

use std::alloc::Global;
use symk_task::Memory;

/// The list of this number, empty where there is none.
pub(crate) fn list_of(lists: &[Vec<u32>], number: usize) -> &[u32]
    ensures { result.now ≡ list_in lists.now number }
{
    if number >= lists.len() {
        return &[];
    }
    lists[number].as_slice()
}

impl Lists {
    pub(crate) fn new(alloc: Global) -> Lists
        ensures { (i : ℕ) → list_at result i ≡ [] }
    {
        Lists {
            lists: Vec::new(alloc),
        }
    }

    /// The list of this number.
    pub(crate) fn at(&self, number: usize) -> &[u32]
        ensures { result.now ≡ list_at self.now number }
    {
        list_of(&self.lists, number)
    }

    /// Puts the operator, or the rule, last into the list of this number.
    pub(crate) fn add(&mut self, alloc: Global, number: usize, op: u32) -> Result<(), Memory>
        ensures has { OnOk result (Contains (list_at self.new number) op) }
        ensures adds { OnOk result (AddsOne (list_at self.old) (list_at self.new) op) }
    {
        'places: while self.lists.len() <= number {
            self.lists.push(Vec::new(alloc))?;
        }
        self.lists[number].push(op)?;
        Ok(())
    }
}
