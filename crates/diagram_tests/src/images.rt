//! Drawn rows: images and preimages beside what they are by definition, point by point.
//!
//! There are three bits, at the levels 0, 2 and 4 now and 1, 3 and 5 next. A number has the bits of all six levels.

ghost use Rattle.std.specs.Prelude.{ℕ, ◌<◌, length, All, IfOk};

use bdd_ops::Ops;
use bdd_table::{FALSE, Id, TRUE, Table, TableFault};
use std::process::Abort;
use std::test::Fail;

/// How many numbers there are of six bits.
const NUMBERS: u64 = 64;

/// The number with all bits.
const ALL: u64 = 63;

/// A number that the seed draws, and the next seed (Marsaglia, "Xorshift RNGs", 2003).
fn drawn(seed: &mut u64) -> u64 {
    let mut x = *seed;
    x ^= x << 13;
    x ^= x >> 7;
    x ^= x << 17;
    *seed = x;
    x >> 20
}

/// Whether the number has the bit of the level.
fn has(number: u64, level: u32) -> bool {
    number.wrapping_shr(level) % 2 == 1
}

/// The Id, or false if the table doesn't have it.
fn known(ops: &Ops, id: Id) -> Id
    ensures { result < length ops.now }
{
    if id < ops.table().held() + 2 {
        id
    } else {
        FALSE
    }
}

/// A drawn cube: some levels are true, some false, and the others left out.
fn cube(ops: &mut Ops, seed: &mut u64) -> Result<Id, TableFault>
    ensures { IfOk result (λ id. id < length ops.new) }
{
    let named = drawn(seed);
    let positive = drawn(seed);
    let mut all = TRUE;
    for level in 0..6u32 {
        if has(named, level) {
            let literal = ops.literal(level, has(positive, level))?;
            let others = known(ops, all);
            all = ops.conj(others, literal)?;
        }
    }
    Ok(known(ops, all))
}

/// A drawn diagram: where one of four cubes holds.
fn diagram(ops: &mut Ops, seed: &mut u64) -> Result<Id, TableFault>
    ensures { IfOk result (λ id. id < length ops.new) }
{
    let mut all = FALSE;
    for _ in 0..4u32 {
        let cube = cube(ops, seed)?;
        let others = known(ops, all);
        all = ops.disj(others, cube)?;
    }
    Ok(known(ops, all))
}

/// Whether the diagram holds for the bits of the number.
fn holds(ops: &Ops, id: Id, number: u64) -> bool {
    let mut id = id;
    for level in 0..6u32 {
        let node = ops.table().get(known(ops, id));
        if node.level == level {
            id = if has(number, level) {
                node.hi as usize
            } else {
                node.lo as usize
            };
        }
    }
    id == TRUE
}

/// The number with the bits of the levels.
fn number_of(levels: &[u32]) -> u64 {
    let mut number = 0;
    for level in levels {
        number |= 1u64.wrapping_shl(*level);
    }
    number
}

/// Whether the number has the bits of some state after a step: both hold for some bits before it, which at the next
/// levels of the touched bits are those that the number has at their levels now, at these levels any, and at all
/// others those of the number.
fn is_after(ops: &Ops, touched: u64, f: Id, g: Id, number: u64) -> bool {
    let next = touched << 1;
    let stays = (number & (ALL ^ (touched | next))) | ((number & touched) << 1);
    for free in 0..NUMBERS {
        let before = stays | (free & touched);
        if holds(ops, f, before) && holds(ops, g, before) {
            return true;
        }
    }
    false
}

/// Whether the number has the bits of some state before a step: for some bits at the next levels of the touched bits
/// the second holds, and so does the first for the bits that those have, at their levels now and next.
fn is_before(ops: &Ops, touched: u64, f: Id, g: Id, number: u64) -> bool {
    let next = touched << 1;
    let stays = number & (ALL ^ next);
    for free in 0..NUMBERS {
        let after = free & next;
        let moved = (number & (ALL ^ (touched | next))) | after | (after >> 1);
        if holds(ops, f, moved) && holds(ops, g, stays | after) {
            return true;
        }
    }
    false
}

/// The images and preimages of two drawn diagrams, where the bits of these levels are touched.
fn check_drawn(
    rt: &impl Abort,
    ops: &mut Ops,
    seed: &mut u64,
    levels: &[u32],
) -> Result<(), TableFault>
    requires { All (λ level. level < 4294967294) levels.now }
{
    let first = diagram(ops, seed)?;
    let g = diagram(ops, seed)?;
    let f = known(ops, first);
    let image = ops.image_step(levels, f, g)?;
    let (f, g) = (known(ops, f), known(ops, g));
    let preimage = ops.preimage_step(levels, f, g)?;
    check_points(rt, ops, number_of(levels), (f, g), (image, preimage));
    Ok(())
}

/// The image and the preimage of two diagrams hold where they should.
fn check_points(rt: &impl Abort, ops: &Ops, touched: u64, of: (Id, Id), steps: (Id, Id)) {
    for number in 0..NUMBERS {
        let after = is_after(ops, touched, of.0, of.1, number);
        assert_eq!(rt; holds(ops, steps.0, number), after);
        let before = is_before(ops, touched, of.0, of.1, number);
        assert_eq!(rt; holds(ops, steps.1, number), before);
    }
}

#[test]
fn steps_are_as_defined(rt: HostRuntime) -> Result<(), Fail> {
    let mut ops = Ops::new(Table::new(rt.alloc())?, 1024)?;
    let mut seed = 88_172_645_463_325_252;
    for _ in 0..20u32 {
        check_drawn(&rt, &mut ops, &mut seed, &[])?;
        check_drawn(&rt, &mut ops, &mut seed, &[2])?;
        check_drawn(&rt, &mut ops, &mut seed, &[0, 4])?;
        check_drawn(&rt, &mut ops, &mut seed, &[4, 0, 2, 0])?;
    }
    Ok(())
}
