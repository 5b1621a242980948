//! What is left of a diagram below the bits of one value.

use bdd_table::Id;

/// The one value that all codes of a diagram have in a block, and what is left of the diagram below it.
#[derive(Clone, Copy)]
pub struct OneValue {
    pub value: u32,
    pub end: Id,
}

ghost use Rattle.std.specs.Prelude.{◌≡◌, ◌+◌, ◌*◌, ◌<◌, ◌≤◌, true, length, IfSome, if◌then◌else◌};
ghost use Rattle.bdd_table.specs.Diagram.{Bits, means};
ghost use Rattle.bdd_sets.specs.Marks.{block_value};

use bdd_table::{FALSE, Table};
use var_order::Block;

/// The child that the bit chooses, if the node is of this level; else the node itself.
fn child_at(table: &Table, id: Id, level: u32, bit: bool) -> Id
    requires { id < length table.now }
    ensures known { result < length table.now }
    ensures same { (b : Bits) → b level ≡ bit → means table.now result b ≡ means table.now id b }
{
    let _ = table.held();
    if table.level(id) != level {
        id
    } else if bit {
        table.hi(id)
    } else {
        table.lo(id)
    }
}

/// Cofactor: what is left of the diagram where the bits of the block spell the value.
pub fn follow(table: &Table, root: Id, block: Block, value: u32) -> Id
    requires root { root < length table.now }
    requires width { block.width ≤ 32 }
    requires place { 0 < block.width → block.first + block.width < 2147483648 }
    ensures known { result < length table.now }
    ensures same { (b : Bits) → block_value block b ≡ value → means table.now result b ≡ means table.now root b }
{
    let mut id = root;
    'bits: for bit in 0..block.width {
        let is_set = (value >> (block.width - 1 - bit)) & 1 == 1;
        id = child_at(table, id, 2 * (block.first + bit), is_set);
    }
    id
}

/// The child of a node of this level whose other child is false, and whether the level is true there.
fn only_child(table: &Table, id: Id, level: u32) -> Option<(bool, Id)>
    requires { id < length table.now }
    ensures known { IfSome result (λ r. r.1 < length table.now) }
    ensures only { IfSome result (λ r. (b : Bits) → means table.now id b ≡ true
        → (b level ≡ r.0) × (means table.now r.1 b ≡ true)) }
{
    let _ = table.held();
    if table.level(id) != level {
        return None;
    }
    let lo = table.lo(id);
    let hi = table.hi(id);
    if lo == FALSE {
        Some((true, hi))
    } else if hi == FALSE {
        Some((false, lo))
    } else {
        None
    }
}

/// The value with one bit more at its end.
fn with_bit(value: u32, bit: bool) -> u32
    requires { value < 2147483648 }
    ensures { result ≡ 2 * value + (if bit then 1 else 0) }
{
    if bit { 2 * value + 1 } else { 2 * value }
}

/// The value that all codes of the diagram have in the block, where a node tells each of its bits.
pub fn one_value(table: &Table, root: Id, block: Block) -> Option<OneValue>
    requires root { root < length table.now }
    requires width { block.width ≤ 32 }
    requires place { 0 < block.width → block.first + block.width < 2147483648 }
    ensures known { IfSome result (λ f. f.end < length table.now) }
    ensures one { IfSome result (λ f. (b : Bits) → means table.now root b ≡ true
        → (block_value block b ≡ f.value) × (means table.now f.end b ≡ true)) }
{
    let mut id = root;
    let mut value = 0;
    'bits: for bit in 0..block.width {
        let (is_set, child) = only_child(table, id, 2 * (block.first + bit))?;
        value = with_bit(value, is_set);
        id = child;
    }
    Some(OneValue { value, end: id })
}
