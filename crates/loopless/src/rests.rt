//! What is known for good of what is left from states to the goal, by their numbers.

/// What is left from a state to the goal.
#[derive(Clone, Copy, Debug, PartialEq, Eq, PartialOrd, Ord)]
pub enum Rest {
    /// No list of operators to the goal costs less.
    Costs(u64),
    /// No list of operators leads to the goal.
    Nowhere,
}

/// What is left from states, by their numbers, since many prefixes come to one state.
#[derive(Drop)]
pub struct Rests {
    /// The last states may have no place here.
    pub(crate) kept: Vec<Option<Rest>>,
}

ghost use Rattle.std.specs.Prelude.{◌≡◌, ◌≤◌, ℕ, IsTrue, None};
ghost use Rattle.loopless.specs.Rests.{rest_at, PutsRest};

use std::alloc::Global;

impl Rests {
    /// Nothing is known.
    pub fn new(alloc: Global) -> Rests
        ensures { (i : ℕ) → rest_at result i ≡ None }
    {
        Rests {
            kept: Vec::new(alloc),
        }
    }

    /// What is left from the state of this number, if it is known.
    pub fn at(&self, number: usize) -> Option<Rest>
        ensures { result ≡ rest_at self.now number }
    {
        match self.kept.get(number) {
            Some(rest) => *rest,
            None => None,
        }
    }

    /// Whether of no state more is known than of those of these many first numbers.
    pub fn is_within(&self, states: usize) -> bool
        ensures { IsTrue result → (i : ℕ) → states ≤ i → rest_at self.now i ≡ None }
    {
        self.kept.len() <= states
    }

    /// Keeps what is left from the state of this number. Out of memory only means that it is looked for again.
    pub fn keep(&mut self, number: usize, rest: Rest)
        ensures { PutsRest self.old self.new number rest }
    {
        'places: while self.kept.len() <= number {
            if self.kept.push(None).is_err() {
                return;
            }
        }
        self.kept[number] = Some(rest);
    }
}
