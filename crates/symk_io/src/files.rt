//! Files by name, and reading one whole.

ghost use Rattle.std.specs.Prelude.{◌≡◌, ◌<◌, ◌≤◌, length, IfOk, IsErrOf};
ghost use Rattle.symk_io.specs.Causes.{HasCause, Rose};
ghost use Rattle.symk_io.specs.View.{FilesView, Tells, Opens, Reads, Bytes};
ghost use Rattle.symk_io.specs.Told.{IsTextOf, IsNamed, Opened, MayOpen};

use crate::{IoFault, ReadStop};
use std::alloc::Global;

/// Files that are found by name and read from front to end, one at a time.
///
/// They may tell their texts, and then they also tell what is left of the file opened last and the names that
/// `open_file` answered `Ok` or `Failed` for, in order. No call changes the texts, or whether they are told. `Failed`
/// comes only where `faults` rose in that call, or stood at the last `u64`; no other answer moves `faults`.
pub trait Files {
    /// The texts, where they are told, and how often a call has failed.
    ghost view: { Self → FilesView };

    /// Opens the file of that name: its whole text is left to read. After an error what was left still is.
    fn open_file(&mut self, name: &str) -> Result<(), IoFault>
        ensures told { Tells (Opens name.now result) (view self.old).told (view self.new).told }
        ensures cause { HasCause (view self.old).faults (view self.new).faults result };

    /// Reads from the front of what is left, and answers how many bytes stand at the front of `buf`: at least one
    /// while something is left and `buf` isn't empty. Before any `open_file` nothing is left. After an error nothing
    /// was given.
    fn read(&mut self, buf: &mut [u8]) -> Result<usize, IoFault>
        ensures bound { IfOk result (λ n. n ≤ length buf.new) }
        ensures told { Tells (Reads buf.new result) (view self.old).told (view self.new).told }
        ensures cause { HasCause (view self.old).faults (view self.new).faults result };

    /// How often a call has failed; it never falls, and stays at the last `u64`.
    fn faults(&self) -> u64
        ensures { result ≡ (view self.now).faults };
}

/// Opens the file of that name and reads it to its end, of at most `limit` bytes.
///
/// It is `TooLong` where more than `limit` bytes came, whatever comes after them, and `Unreadable` only where a call
/// failed.
pub fn read_all<F: Files>(
    alloc: Global,
    files: &mut F,
    name: &str,
    limit: u64,
) -> Result<Vec<u8>, ReadStop>
    // What is read is the text, where it is told, and is within the limit; a text past the limit is the other answer.
    ensures whole { IfOk result (λ text. IsTextOf (F.view files.old).told name.now text.items) }
    ensures within { IfOk result (λ text. length text.items ≤ limit) }
    ensures long { IsErrOf result ReadStop.TooLong → (text : Bytes) × (limit < length text)
        × IsTextOf (F.view files.old).told name.now text }
    // Where texts are told, both come only for a name that has one.
    ensures named { (IsErrOf result ReadStop.Unreadable → ⊥) → (IsErrOf result ReadStop.Memory → ⊥)
        → IsNamed (F.view files.old).told name.now }
    // A fault is named only where it was counted, and all other answers leave the count.
    ensures unreadable { IsErrOf result ReadStop.Unreadable → Rose (F.view files.old).faults (F.view files.new).faults }
    ensures later { (F.view files.old).faults ≤ (F.view files.new).faults }
    ensures quiet { (IsErrOf result ReadStop.Unreadable → ⊥) → (F.view files.new).faults ≡ (F.view files.old).faults }
    // The name is the only one opened, and is opened unless out of memory.
    ensures opened { (IsErrOf result ReadStop.Memory → ⊥) → Tells (Opened name.now) (F.view files.old).told
        (F.view files.new).told }
    ensures names { Tells (MayOpen name.now) (F.view files.old).told (F.view files.new).told }
{
    if let Err(e) = files.open_file(name) {
        return Err(stop_of(e));
    }
    let mut bytes = Vec::new(alloc);
    let mut buf = [0u8; 4096];
    'turns: while bytes.len() as u64 <= limit {
        match files.read(&mut buf) {
            Ok(0) => return Ok(bytes),
            Ok(n) => bytes.extend_from_slice(&buf[..n])?,
            Err(e) => return Err(stop_of(e)),
        }
    }
    Err(ReadStop::TooLong)
}

/// A failed call makes a text unreadable.
fn stop_of(fault: IoFault) -> ReadStop
    ensures failed { result ≡ ReadStop.Unreadable → fault ≡ IoFault.Failed }
    ensures memory { result ≡ ReadStop.Memory → fault ≡ IoFault.Memory }
    ensures others { result ≡ ReadStop.TooLong → ⊥ }
{
    match fault {
        IoFault::Failed => ReadStop::Unreadable,
        IoFault::Memory => ReadStop::Memory,
    }
}
