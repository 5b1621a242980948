//! The lines that are left to read.

ghost use Rattle.std.specs.Prelude.{◌≡◌, ◌==◌, ℕ, List, [], ◌∷◌, length, drop, MatchOption};
ghost use Rattle.line_grammar.specs.declared.Stopped.TheVariants as stopped;
ghost use Rattle.symk_text.specs.Lines.{IsLine};

use crate::{Offence, Stopped};
use std::marker::Model;
use symk_text::Line;

/// The lines that are left to read.
#[derive(Drop)]
pub struct Rest<'a> {
    lines: &'a [Line<'a>],
}

impl<'a> Model for Rest<'a> {
    ghost Value = { List (List ℕ) };

    ghost view = { λ a. a.lines.now };
}

impl<'a> Rest<'a> {
    /// All of these lines, from the first on.
    pub fn of(lines: &'a [Line<'a>]) -> Rest<'a>
        ensures { result ≡ lines.now }
    {
        Rest { lines }
    }

    /// How many lines are left.
    pub fn len(&self) -> usize
        ensures { result ≡ length self.now }
    {
        self.lines.len()
    }

    /// The first line, if one is left.
    pub fn first(&self) -> Option<&[u8]>
        ensures { MatchOption result (self.now ≡ []) (λ line. self.now ≡ line.now ∷ drop 1 self.now) }
    {
        match self.lines {
            [line, ..] => Some(line.as_slice()),
            [] => None,
        }
    }

    /// Whether no line is left.
    pub fn is_empty(&self) -> bool
        ensures { result ≡ (length self.now == 0) }
    {
        self.lines.is_empty()
    }
}

/// The first line, and the lines after it.
pub fn first_line(rest: Rest<'_>) -> Option<(&[u8], Rest<'_>)>
    ensures { MatchOption result (rest.entry ≡ []) (λ x. (rest.entry ≡ x.0.now ∷ x.1) × IsLine x.0.now) }
{
    match rest.lines {
        [line, after @ ..] => Some((line.as_slice(), Rest { lines: after })),
        [] => None,
    }
}

/// The first of so many lines that are left isn't what is wanted, or is missing.
pub fn stopped_at<S>(wanted: S, left: usize) -> Stopped<S>
    ensures { result ≡ stopped.Offence (record { wanted = wanted; left = left }) }
{
    Stopped::Offence(Offence { wanted, left })
}
