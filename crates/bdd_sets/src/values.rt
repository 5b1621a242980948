//! Where bits spell a value, or one at most as large.

ghost use Rattle.std.specs.Prelude.{◌≡◌, ℕ, ◌+◌, ◌*◌, ◌<◌, ◌≤◌, ◌==◌, ◌&&◌, ◌||◌, nat_le, not, length, IfOk, if◌then◌else◌};
ghost use Rattle.bdd_table.specs.Diagram.{Bits, means, Keeps, IsReduced};
ghost use Rattle.var_order.specs.Codes.{number};
ghost use Rattle.bdd_sets.specs.Splits.{IsSplit};

use bdd_ops::Ops;
use bdd_table::{FALSE, Id, TRUE, TableFault};

/// The bit of the value that has so many bits below it, and what is left of the value without it.
fn split(below: u32, value: u32) -> (bool, u32)
    requires { below < 32 }
    ensures { IsSplit below value (result.0) (result.1) }
{
    let power = 1 << below;
    if power <= value {
        (true, value - power)
    } else {
        (false, value)
    }
}

/// Where the bits from a place on, the highest first, spell the value. `next` is 0 for the state, 1 for the next one.
pub fn value_is(
    ops: &mut Ops,
    next: u32,
    place: u32,
    width: u32,
    value: u32,
) -> Result<Id, TableFault>
    requires next { next ≤ 1 }
    requires width { width ≤ 32 }
    requires place { 0 < width → place + width < 2147483648 }
    ensures known { IfOk result (λ id. id < length ops.new) }
    ensures meaning { IfOk result (λ id. (b : Bits) → means ops.new id b ≡ (number b next place width == value)) }
    ensures kept { Keeps ops.old ops.new }
    ensures reduced { IsReduced ops.new }
{
    let _ = ops.table();
    if width == 0 {
        return Ok(if value == 0 { TRUE } else { FALSE });
    }
    let (bit, left) = split(width - 1, value);
    let rest = value_is(ops, next, place + 1, width - 1, left)?;
    let first = ops.literal(2 * place + next, bit)?;
    ops.conj(first, rest)
}

/// Where the bits from a place on, the highest first, spell a number that is at most so large.
pub fn value_at_most(
    ops: &mut Ops,
    next: u32,
    place: u32,
    width: u32,
    most: u32,
) -> Result<Id, TableFault>
    requires next { next ≤ 1 }
    requires width { width ≤ 32 }
    requires place { 0 < width → place + width < 2147483648 }
    ensures known { IfOk result (λ id. id < length ops.new) }
    ensures meaning { IfOk result (λ id. (b : Bits) → means ops.new id b ≡ nat_le (number b next place width) most) }
    ensures kept { Keeps ops.old ops.new }
    ensures reduced { IsReduced ops.new }
{
    let _ = ops.table();
    if width == 0 {
        return Ok(TRUE);
    }
    let (bit, left) = split(width - 1, most);
    let rest = value_at_most(ops, next, place + 1, width - 1, left)?;
    let off = ops.literal(2 * place + next, false)?;
    bounded(ops, bit, off, rest)
}

/// Where one of both holds if the bit of the bound is 1, else where both do.
fn bounded(ops: &mut Ops, bit: bool, off: Id, rest: Id) -> Result<Id, TableFault>
    requires off { off < length ops.old }
    requires rest { rest < length ops.old }
    ensures known { IfOk result (λ id. id < length ops.new) }
    ensures meaning { IfOk result (λ id. (b : Bits) → means ops.new id b ≡ (if bit then means ops.old off b ||
        means ops.old rest b else (means ops.old off b && means ops.old rest b))) }
    ensures kept { Keeps ops.old ops.new }
    ensures reduced { IsReduced ops.new }
{
    if bit {
        ops.disj(off, rest)
    } else {
        ops.conj(off, rest)
    }
}
