//! Reading a text line by line, against a grammar of rows: the grammar, single lines, and the lines left to read.
//!
//! A format is a list of rows for each value; a line spells a row or it doesn't. `specs/Rows.antt` says what a text of
//! a value is, which line is the first that offends, and what is wanted there. `specs/Reading.antt` has readings,
//! functions from the lines that are left to a value and the lines after it, and the ways to join them.
//! `proofs/Exact.antt` and `proofs/Joining.antt` show that such a reading meets its format exactly, if its parts do: it
//! takes what the rows spell, and where it stops, no text can go on.
//!
//! `Rest` are the lines that are left, `first_line` takes one of them, and `stopped_at` says that it isn't what is wanted.
//! A line is read from its front: `after` takes fixed bytes, `first_number` a number, `number_then` and `number_after`
//! both, and `is_numbered` compares the number. Each is equal to its definition in `specs/Fields.antt`, and `proofs/`
//! ties these to `IsNumber` and `IsNumbered`, which say how a number may be spelled.
//!
//! It stands on `symk_text` for lines and numbers.
#![tactic(auto)]

ghost use Rattle.std.specs.Prelude.{◌≡◌, length};
ghost use Rattle.line_grammar.specs.declared.Stopped.TheVariants.{Memory};

mod fields;
mod rest;

pub use fields::{after, first_number, is_numbered, number_after, number_then};
pub use rest::{Rest, first_line, stopped_at};
use std::alloc::{AllocError, AllocFailed};

/// What was wanted, and how many lines were left there, the offending one included.
#[derive(Clone, Copy, Debug)]
pub struct Offence<S> {
    pub wanted: S,
    pub left: usize,
}

impl<S> Offence<S> {
    /// The offence at the first of the lines that are left.
    pub fn at<L>(wanted: S, lines: &[L]) -> Offence<S>
        ensures { result ≡ record { wanted = wanted; left = length lines.now } }
    {
        Offence {
            wanted,
            left: lines.len(),
        }
    }
}

/// Why reading ended early.
#[derive(Debug, Drop)]
pub enum Stopped<S> {
    /// Out of memory.
    Memory,
    /// A line is not what is wanted there, or is missing.
    Offence(Offence<S>),
}

impl<S> From<AllocError> for Stopped<S> {
    ghost from_gives = { λ _ e. e ≡ Memory };

    fn from(_e: AllocError) -> Stopped<S> {
        Stopped::Memory
    }
}

impl<S, T: Drop> From<AllocFailed<T>> for Stopped<S> {
    ghost from_gives = { λ _ e. e ≡ Memory };

    fn from(_e: AllocFailed<T>) -> Stopped<S> {
        Stopped::Memory
    }
}
