//! Entries of a queue of prefixes.

ghost use Rattle.std.specs.Prelude.{◌≡◌, IfOk};
ghost use Rattle.prefix_tree.specs.Entries.{entry_alone};

use std::alloc::{AllocError, Global};
use std::cmp::Reverse;

/// A prefix in the queue. The greatest entry is handed out first.
#[derive(Clone, Copy, Debug, PartialEq, Eq, PartialOrd, Ord)]
pub struct Entry {
    /// No plan that goes on from the prefix costs less.
    pub bound: Reverse<u128>,
    /// What the prefix costs.
    pub cost: u128,
    /// The ring of a search back in which its last state stands, where that search counts them.
    pub ring: Reverse<usize>,
    /// Its place in the tree.
    pub node: usize,
    /// Nothing more can be learned of its bound.
    pub settled: bool,
    /// Its last state is a goal state.
    pub at_goal: bool,
}

/// The entry alone, or none. It fails only out of memory.
pub fn one_or_none(alloc: Global, entry: Option<Entry>) -> Result<Vec<Entry>, AllocError>
    ensures { IfOk result (λ entries. entries.items ≡ entry_alone entry) }
{
    let mut entries = Vec::new(alloc);
    match entry {
        None => Ok(entries),
        Some(entry) => {
            entries.push(entry)?;
            Ok(entries)
        }
    }
}
