//! Small types over `Vec`, which contracts see as lists.

ghost use Rattle.std.specs.Prelude.{◌≡◌, ◌==◌, ◌<◌, ℕ, List, [], ◌∷◌, ◌++◌, length, IfOk, OnOk, OnErr, slice_get, slice_set, Some};

use std::alloc::{AllocError, Global};
use std::marker::Model;

/// Out of memory.
pub type Memory = AllocError;

/// A list.
#[derive(Debug, Drop)]
pub struct List<T> {
    items: Vec<T>,
}

impl<T> Model for List<T> {
    ghost Value = { List T };

    ghost view = { λ a. a.items.items };
}

impl<T> List<T> {
    /// The list of these items.
    pub fn of(items: Vec<T>) -> List<T>
        ensures { result ≡ items.items }
    {
        List { items }
    }

    /// The items.
    pub fn into_vec(self) -> Vec<T>
        ensures { result.items ≡ self }
    {
        self.items
    }

    /// The items, lent.
    pub fn as_slice(&self) -> &[T]
        ensures { result.now ≡ self.now }
    {
        &self.items
    }

    /// The number of items.
    pub fn len(&self) -> usize
        ensures { result ≡ length self.now }
    {
        self.items.len()
    }

    /// Whether there are no items.
    pub fn is_empty(&self) -> bool
        ensures { result ≡ (length self.now == 0) }
    {
        self.items.is_empty()
    }

    /// Adds the item at the end. Out of memory, it leaves the list as it was.
    pub fn push(&mut self, item: T) -> Result<(), Memory>
    where
        T: Drop,
        ensures ok { OnOk result (self.new ≡ self.old ++ item ∷ []) }
        ensures err { OnErr result (self.new ≡ self.old) }
    {
        self.items.push(item)?;
        Ok(())
    }
}

/// The bytes of a name.
#[derive(Debug, Drop)]
pub struct Name {
    bytes: Vec<u8>,
}

impl Model for Name {
    ghost Value = { List ℕ };

    ghost view = { λ a. a.bytes.items };
}

impl Name {
    /// The name of these bytes.
    pub fn of(bytes: Vec<u8>) -> Name
        ensures { result ≡ bytes.items }
    {
        Name { bytes }
    }

    /// The bytes, lent.
    pub fn as_slice(&self) -> &[u8]
        ensures { result.now ≡ self.now }
    {
        &self.bytes
    }

    /// An equal name.
    pub fn copy(&self, alloc: Global) -> Result<Name, Memory>
        ensures { IfOk result (λ n. n ≡ self.now) }
    {
        Ok(Name {
            bytes: Vec::from_slice(alloc, &self.bytes)?,
        })
    }
}

/// A value for each base variable, in the order of the task file.
#[derive(Debug, Drop)]
pub struct State {
    values: Vec<u32>,
}

impl Model for State {
    ghost Value = { List ℕ };

    ghost view = { λ a. a.values.items };
}

impl State {
    /// The state of these values.
    pub fn of(values: Vec<u32>) -> State
        ensures { result ≡ values.items }
    {
        State { values }
    }

    /// The values, lent.
    pub fn as_slice(&self) -> &[u32]
        ensures { result.now ≡ self.now }
    {
        &self.values
    }

    /// Puts the value at a place.
    pub fn set(&mut self, at: usize, value: u32)
        requires { at < length self.old }
        ensures { self.new ≡ slice_set self.old at value }
    {
        self.values[at] = value;
    }

    /// An equal state.
    pub fn copy(&self, alloc: Global) -> Result<State, Memory>
        ensures { IfOk result (λ n. n ≡ self.now) }
    {
        Ok(State {
            values: Vec::from_slice(alloc, &self.values)?,
        })
    }
}

/// A list of operator numbers.
#[derive(Debug, Drop)]
pub struct Plan {
    operators: Vec<u32>,
}

impl Model for Plan {
    ghost Value = { List ℕ };

    ghost view = { λ a. a.operators.items };
}

impl Plan {
    /// The plan of these operators.
    pub fn of(operators: Vec<u32>) -> Plan
        ensures { result ≡ operators.items }
    {
        Plan { operators }
    }

    /// The operator numbers, lent.
    pub fn as_slice(&self) -> &[u32]
        ensures { result.now ≡ self.now }
    {
        &self.operators
    }

    /// Adds the operator at the end. Out of memory, it leaves the plan as it was.
    pub fn push(&mut self, operator: u32) -> Result<(), Memory>
        ensures ok { OnOk result (self.new ≡ self.old ++ operator ∷ []) }
        ensures err { OnErr result (self.new ≡ self.old) }
    {
        self.operators.push(operator)?;
        Ok(())
    }

    /// An equal plan.
    pub fn copy(&self, alloc: Global) -> Result<Plan, Memory>
        ensures { IfOk result (λ n. n ≡ self.now) }
    {
        Ok(Plan {
            operators: Vec::from_slice(alloc, &self.operators)?,
        })
    }
}
