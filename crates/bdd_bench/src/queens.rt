//! As many queens as a board has rows, none of which attacks another.

use crate::calls::{conj, disj, literal};
use crate::work::Made;
use bdd_ops::Ops;
use bdd_table::{FALSE, Id, TRUE, TableFault};

/// The level of a square.
fn square(n: u16, row: u16, column: u16) -> u32 {
    u32::from(row)
        .wrapping_mul(u32::from(n))
        .wrapping_add(u32::from(column))
}

/// No queen there, where one is here.
fn forbid(ops: &mut Ops, here: u32, there: u32) -> Result<Id, TableFault> {
    let off_here = literal(ops, here, false)?;
    let off_there = literal(ops, there, false)?;
    disj(ops, off_here, off_there)
}

/// A queen on the square attacks none.
fn square_is_safe(ops: &mut Ops, n: u16, row: u16, column: u16) -> Result<Id, TableFault> {
    let here = square(n, row, column);
    let mut safe = TRUE;
    for other in 0..n {
        if other != column {
            let rule = forbid(ops, here, square(n, row, other))?;
            safe = conj(ops, safe, rule)?;
        }
    }
    for other in 0..n {
        if other != row {
            safe = row_is_safe(ops, n, row, column, other, safe)?;
        }
    }
    Ok(safe)
}

/// A queen on the square attacks none in another row.
fn row_is_safe(
    ops: &mut Ops,
    n: u16,
    row: u16,
    column: u16,
    other: u16,
    safe: Id,
) -> Result<Id, TableFault> {
    let here = square(n, row, column);
    let away = if other > row {
        other - row
    } else {
        row - other
    };
    let rule = forbid(ops, here, square(n, other, column))?;
    let mut safe = conj(ops, safe, rule)?;
    if column >= away {
        let rule = forbid(ops, here, square(n, other, column - away))?;
        safe = conj(ops, safe, rule)?;
    }
    if away < n && column < n - away {
        let rule = forbid(ops, here, square(n, other, column + away))?;
        safe = conj(ops, safe, rule)?;
    }
    Ok(safe)
}

/// A queen stands in the row.
fn row_is_taken(ops: &mut Ops, n: u16, row: u16) -> Result<Id, TableFault> {
    let mut taken = FALSE;
    for column in 0..n {
        let here = literal(ops, square(n, row, column), true)?;
        taken = disj(ops, taken, here)?;
    }
    Ok(taken)
}

/// The boards on which the queens of a row attack none, of these.
fn place_row(ops: &mut Ops, n: u16, row: u16, boards: Id) -> Result<Id, TableFault> {
    let mut boards = boards;
    for column in 0..n {
        let safe = square_is_safe(ops, n, row, column)?;
        boards = conj(ops, boards, safe)?;
    }
    Ok(boards)
}

/// The boards of n rows and columns on which n queens stand and none attacks another.
pub fn queens(ops: &mut Ops, n: u16) -> Result<Made, TableFault> {
    let mut boards = TRUE;
    for row in 0..n {
        let taken = row_is_taken(ops, n, row)?;
        boards = conj(ops, boards, taken)?;
    }
    for row in 0..n {
        boards = place_row(ops, n, row, boards)?;
    }
    Ok(Made {
        rounds: u32::from(n),
        ..Made::of(boards)
    })
}
