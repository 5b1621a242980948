//! Lines, numbers and texts that grow: what every reader and writer of the workspace stands on.
//!
//! `lines_of` cuts bytes into lines exactly as the formats ask, `number` reads the digits at a place,
//! and `push_number` and `push_bytes` append to a text, which stays as it was where memory is refused.
//! Numbers are printed with `itoa`.
#![tactic(auto)]

mod lines;
mod numbers;
mod text;

pub use lines::{Line, Lines, lines_of};
pub use numbers::number;
pub use text::{Text, push_bytes, push_number};

/// Out of memory.
pub type Memory = std::alloc::AllocError;
