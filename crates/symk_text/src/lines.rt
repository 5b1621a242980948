//! The lines of a text.

ghost use Rattle.std.specs.Prelude.{◌≡◌, ℕ, List, IfOk, All};
ghost use Rattle.symk_text.specs.Lines.{IsLine, lines, without_return};

use crate::Memory;
use std::alloc::Global;
use std::marker::Model;

/// A line, lent from the text, without its end. It has no LF.
#[derive(Drop)]
pub struct Line<'a> {
    bytes: &'a [u8],
}

impl<'a> Model for Line<'a> {
    ghost Value = { List ℕ };

    ghost view = { λ a. a.bytes.now };

    ghost invariant = { λ a. IsLine a.bytes.now };
}

impl<'a> Line<'a> {
    fn of(bytes: &'a [u8]) -> Line<'a>
        requires { IsLine bytes.now }
        ensures { result ≡ bytes.now }
    {
        Line { bytes }
    }

    /// The bytes of the line.
    pub fn as_slice(&self) -> &'a [u8]
        ensures value { result.now ≡ self.now }
        ensures line { IsLine result.now }
    {
        self.bytes
    }
}

/// The lines of a text, in order. None of them has an LF.
#[derive(Drop)]
pub struct Lines<'a> {
    items: Vec<Line<'a>>,
}

impl<'a> Model for Lines<'a> {
    ghost Value = { List (List ℕ) };

    ghost view = { λ a. a.items.items };

    ghost invariant = { λ a. All IsLine a.items.items };
}

impl<'a> Lines<'a> {
    /// The lines, from the first on.
    pub fn as_slice(&self) -> &[Line<'a>]
        ensures value { result.now ≡ self.now }
        ensures each { All IsLine result.now }
    {
        &self.items
    }
}

/// Cuts a text into its lines: at each LF byte, a last piece without one being a line if it isn't empty, and one CR at
/// the end of a line is dropped.
pub fn lines_of<'a>(alloc: Global, bytes: &'a [u8]) -> Result<Lines<'a>, Memory>
    ensures { IfOk result (λ found. found ≡ lines bytes.now) }
{
    let mut items = Vec::new(alloc);
    let mut from = 0;
    for at in 0..bytes.len() {
        if bytes[at] == b'\n' {
            items.push(Line::of(without_return(&bytes[from..at])))?;
            from = at + 1;
        }
    }
    let last = &bytes[from..];
    if !last.is_empty() {
        items.push(Line::of(without_return(last)))?;
    }
    Ok(Lines { items })
}

fn without_return(piece: &[u8]) -> &[u8]
    ensures { result.now ≡ without_return piece.now }
{
    match piece {
        [front @ .., b'\r'] => front,
        _ => piece,
    }
}
