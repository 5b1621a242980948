//! The bits of one value.

/// The bits of one value of a state.
#[derive(Clone, Copy, Debug, PartialEq, Eq)]
pub struct Block {
    /// The place of the highest bit. The others follow it.
    pub first: u32,
    /// The number of bits: 0 to 16.
    pub width: u32,
    /// The number of values that the variable has: 1 to 65,536. The value is below it.
    pub values: u32,
}
