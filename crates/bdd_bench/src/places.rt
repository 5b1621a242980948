//! Places of bits, each at a level for the state that is and at the next for the state that comes.

ghost use Rattle.std.specs.Prelude.{◌<◌};

use crate::calls::{conj, disj, literal};
use bdd_ops::Ops;
use bdd_table::{Id, TRUE, TableFault};

/// A place of a bit: at level `2 p` in the state that is, at `2 p + 1` in the one that comes.
pub type Place = u16;

/// Which of two states.
#[derive(Clone, Copy, PartialEq, Eq)]
pub enum Side {
    Now,
    Next,
}

/// The level of the place.
pub fn level(side: Side, place: Place) -> u32
    ensures { result < 4294967295 }
{
    match side {
        Side::Now => 2 * u32::from(place),
        Side::Next => 2 * u32::from(place) + 1,
    }
}

/// Where the places from `first` on have these bits of a number, the lowest first.
pub fn value(
    ops: &mut Ops,
    side: Side,
    first: Place,
    width: u16,
    number: u32,
) -> Result<Id, TableFault> {
    let mut all = TRUE;
    let mut left = number;
    for bit in 0..width {
        let literal = literal(ops, level(side, first.wrapping_add(bit)), left % 2 == 1)?;
        all = conj(ops, all, literal)?;
        left /= 2;
    }
    Ok(all)
}

/// Where two levels are alike.
pub fn alike(ops: &mut Ops, a: u32, b: u32) -> Result<Id, TableFault> {
    let a_on = literal(ops, a, true)?;
    let b_on = literal(ops, b, true)?;
    let both_on = conj(ops, a_on, b_on)?;
    let a_off = literal(ops, a, false)?;
    let b_off = literal(ops, b, false)?;
    let both_off = conj(ops, a_off, b_off)?;
    disj(ops, both_on, both_off)
}
