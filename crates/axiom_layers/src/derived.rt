//! The roots of the derived variables.

ghost use Rattle.std.specs.Prelude.{◌≡◌, ◌<◌, length, slice_index, slice_set};

use bdd_table::Id;
use std::marker::Model;

/// Axioms compiled away: for each variable of a task an Id, of a derived variable the states in which it is raised.
#[derive(Drop)]
pub struct Derived {
    roots: Vec<Id>,
}

impl Model for Derived {
    ghost use Rattle.std.specs.Prelude.{List, ℕ};

    ghost Value = { List ℕ };

    ghost view = { λ d. d.roots.items };
}

impl Derived {
    /// These roots, one for each variable.
    pub(crate) fn of(roots: Vec<Id>) -> Derived
        ensures { result ≡ roots.items }
    {
        Derived { roots }
    }

    /// The states in which the derived variable is raised.
    pub fn root(&self, var: u32) -> Id
        requires { var < length self.now }
        ensures { result ≡ slice_index self.now var }
    {
        self.roots[var as usize]
    }

    /// Gives the variable another root, as after a collection that moved it.
    pub fn set_root(&mut self, var: u32, root: Id)
        requires { var < length self.old }
        ensures { self.new ≡ slice_set self.old var root }
    {
        self.roots[var as usize] = root;
    }

    /// The roots of all variables, in the order of the file.
    pub fn roots(&self) -> &[Id]
        ensures { result.now ≡ self.now }
    {
        &self.roots
    }
}
