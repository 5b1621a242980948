//! A queue of entries, last in first out.

use crate::entries::{Entry, Partial};
use std::marker::Model;

/// The entries that wait for their turn. `take` takes one, and counts it; `part` takes only a prefix whose children
/// are still to be found.
#[derive(Drop)]
pub(crate) struct Queue<T> {
    entries: Vec<Entry<T>>,
}

impl<T> Model for Queue<T> {
    ghost Value = { List (Entry T) };

    ghost view = { λ q. q.entries.items };
}

ghost use Rattle.std.specs.Prelude.{MatchOption, ◌≡◌, ◌==◌, ◌+◌, ◌<◌, List, [], ◌∷◌, ◌++◌, length, IfOk, OnOk, OnErr, IfErr};
ghost use Rattle.reconstruct.specs.Turned.{IsLast, EndsSingle, EndsPartial, TakesEntry};
ghost use Rattle.reconstruct.specs.declared.entries.Entry.{Entry};

use lazy_plans::Steps;
use std::alloc::{AllocFailed, Global};
use std::sync::ledger::Ledger;
use symk_task::Memory;

impl<T> Queue<T> {
    /// No entry waits.
    pub fn new(alloc: Global) -> Queue<T>
        ensures { result ≡ [] }
    {
        Queue {
            entries: Vec::new(alloc),
        }
    }

    /// Whether no entry waits.
    pub fn is_empty(&self) -> bool
        ensures { result ≡ (length self.now == 0) }
    {
        self.entries.is_empty()
    }

    /// Puts the entry last. Out of memory, it leaves the queue, and the entry comes back.
    pub fn push(&mut self, entry: Entry<T>) -> Result<(), AllocFailed<Entry<T>>>
        ensures ok { OnOk result (self.new ≡ self.old ++ entry ∷ []) }
        ensures err { OnErr result (self.new ≡ self.old) }
        ensures value_returned { IfErr result (λ y. y.value ≡ entry) }
    {
        self.entries.push(entry)
    }

    /// The entry that is taken next.
    pub(crate) fn last(&self) -> &Entry<T>
        requires { 0 < length self.now }
        ensures { IsLast self.now result.now }
    {
        &self.entries[self.entries.len() - 1]
    }

    /// The entry that is taken next, where it is a prefix whose children are still to be found.
    pub(crate) fn partial(&self) -> Option<&Partial<T>>
        ensures { MatchOption result (EndsSingle self.now) (λ p. IsLast self.now (Entry.Partial p.now)) }
    {
        if self.entries.is_empty() {
            return None;
        }
        match self.last() {
            Entry::Partial(partial) => Some(partial),
            _ => None,
        }
    }

    /// Partial expansion: takes the last entry, a prefix whose children are still to be found, and puts what was found
    /// of them in its place. That is no turn: it isn't counted.
    ///
    /// Out of memory, it takes nothing.
    pub(crate) fn part(&mut self, found: &mut Vec<Entry<T>>) -> Result<Entry<T>, Memory>
        requires { EndsPartial self.old }
        ensures ok { IfOk result (TakesEntry self.old self.new found.old.items) }
        ensures err { OnErr result (self.new ≡ self.old) }
        ensures found { OnErr result (found.new.items ≡ found.old.items) }
    {
        let last = self.entries.len() - 1;
        self.entries.append(found)?;
        Ok(self.entries.remove(last))
    }

    /// One turn: takes the last entry, and puts what follows it in its place. It is counted: `steps` has one more.
    ///
    /// Out of memory, it takes nothing and counts nothing.
    pub(crate) fn take<L: Ledger>(
        &mut self,
        next: &mut Vec<Entry<T>>,
        steps: &mut Steps<L>,
    ) -> Result<Entry<T>, Memory>
        requires { 0 < length self.old }
        ensures ok { IfOk result (TakesEntry self.old self.new next.old.items) }
        ensures err { OnErr result (self.new ≡ self.old) }
        ensures next { OnErr result (next.new.items ≡ next.old.items) }
        ensures counted { OnOk result (steps.new ≡ steps.old + 1) }
        ensures uncounted { OnErr result (steps.new ≡ steps.old) }
    {
        let last = self.entries.len() - 1;
        self.entries.append(next)?;
        steps.tick();
        Ok(self.entries.remove(last))
    }
}
