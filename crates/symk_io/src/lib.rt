//! The outside of the program: files to read by name, and a sink to write to.
//!
//! `Files` and `Sink` say what is known of each: the texts, the bytes taken and the flushes, where the outside tells
//! them, and a count of its failures, without a rise of which no call answers that it failed. `read_all` reads a
//! whole text within a limit, `put` writes a whole piece and flushes it once. Both name the cause of each refusal,
//! and say what was moved before it.
//!
//! `MemFiles` and `MemSink` stand for the outside in tests, failing where they are told to; `NoFaultFiles` and
//! `NoFaultSink` never fail. `HostFiles` and `HostSink` are the trusted edge to the system, of whose bytes no clause
//! speaks. It stands on std, and on `thiserror` for the error types.
#![tactic(auto)]

mod fault;
mod files;
mod host;
mod mem_files;
mod memory;
mod no_fault;
mod sink;

pub use fault::{IoFault, ReadStop};
pub use files::{Files, read_all};
pub use host::{HostFiles, HostSink};
pub use mem_files::{MemFile, MemText};
pub use memory::{MemFiles, MemSink};
pub use no_fault::{NoFaultFiles, NoFaultSink};
pub use sink::{Sink, put};
