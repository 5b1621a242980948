//! The trusted edge: the files and the output of the system, of which nothing is told.

ghost use Rattle.std.specs.Prelude.{◌≡◌, ◌↔◌, ◌<◌, ◌≤◌, length, option_and_then, IfOk, IsSome, None, OnErr, OnOk, Ok};
ghost use Rattle.std.specs.IoError.{error_kind};
ghost use Rattle.std.specs.declared.io.ErrorKind.TheVariants.{OutOfMemory};
ghost use Rattle.std.specs.Io.KnownBytes.{Keeps, ReadConsumes, WriteAppends};
ghost use Rattle.symk_io.specs.Causes.{Counted, HasCause};

use crate::{Files, IoFault, Sink};
use std::io::{Error, ErrorKind, Read, Write};
use std::rt::Files as System;

/// A failure is counted, and out of memory, which is std's own kind of that name and no other, is not.
fn fault_of(error: Error, faults: &mut u64) -> IoFault
    ensures kind { (result ≡ IoFault.Memory) ↔ (error_kind error ≡ OutOfMemory) }
    ensures counted { Counted faults.old faults.new result }
{
    if error.kind() == ErrorKind::OutOfMemory {
        return IoFault::Memory;
    }
    *faults = faults.saturating_add(1);
    IoFault::Failed
}

/// The files of the system, under their paths. No clause says which bytes they hold.
///
/// Each failure of the system is counted, but out of memory. Before any `open_file` there is nothing to read.
#[derive(Drop)]
pub struct HostFiles<R: System + Drop> {
    system: R,
    file: Option<R::File>,
    faults: u64,
}

impl<R: System + Drop> HostFiles<R> {
    /// No file is open yet, and no failure counted.
    pub fn new(system: R) -> HostFiles<R>
        ensures open { result.file ≡ None }
        ensures faults { result.faults ≡ 0 }
    {
        HostFiles {
            system,
            file: None,
            faults: 0,
        }
    }
}

impl<R: System + Drop> Files for HostFiles<R> {
    ghost view = { λ h. record { told = None; faults = h.faults } };

    fn open_file(&mut self, name: &str) -> Result<(), IoFault>
        ensures cause { HasCause self.old.faults self.new.faults result }
        ensures open { OnOk result (IsSome self.new.file) }
        ensures err { OnErr result (self.new.file ≡ self.old.file) }
    {
        match std::fs::open(&self.system, name) {
            Ok(file) => {
                self.file = Some(file);
                Ok(())
            }
            Err(error) => Err(fault_of(error, &mut self.faults)),
        }
    }

    fn read(&mut self, buf: &mut [u8]) -> Result<usize, IoFault>
        ensures bound { IfOk result (λ n. n ≤ length buf.new) }
        ensures cause { HasCause self.old.faults self.new.faults result }
        // Nothing is left where no file is open; what the open one is known to have left loses what was given.
        ensures closed { self.old.file ≡ None → result ≡ Ok 0 }
        ensures given { ReadConsumes (option_and_then (λ f. R.File.remaining f) self.old.file)
            (option_and_then (λ f. R.File.remaining f) self.new.file) result buf.new }
    {
        let Some(file) = &mut self.file else {
            return Ok(0);
        };
        match file.read(buf) {
            Ok(n) => Ok(n),
            Err(error) => Err(fault_of(error, &mut self.faults)),
        }
    }

    fn faults(&self) -> u64 {
        self.faults
    }
}

/// A writer of the system, as standard output. It tells nothing of its bytes and flushes: no clause says which reach
/// the system.
///
/// Each failure of the writer is counted, but out of memory; to take nothing of a piece is a failure.
#[derive(Drop)]
pub struct HostSink<W: Write + Drop> {
    out: W,
    faults: u64,
}

impl<W: Write + Drop> HostSink<W> {
    /// A sink over this writer; no failure is counted yet.
    pub fn new(out: W) -> HostSink<W>
        ensures out { result.out ≡ out }
        ensures faults { result.faults ≡ 0 }
    {
        HostSink { out, faults: 0 }
    }
}

impl<W: Write + Drop> Sink for HostSink<W> {
    ghost view = { λ h. record { taken = None; flushed = None; flushes = None; faults = h.faults } };

    #[tactic(auto, using(crate::proofs::Kept::kept_by_none))]
    fn write(&mut self, piece: &[u8]) -> Result<usize, IoFault>
        requires { 0 < length piece.now }
        ensures some { IfOk result (λ n. 1 ≤ n) }
        ensures bound { IfOk result (λ n. n ≤ length piece.now) }
        ensures cause { HasCause self.old.faults self.new.faults result }
        // What the writer is known to hold, if anything is, grows by what was taken.
        ensures handed { WriteAppends (W.contents self.old.out) (W.contents self.new.out) result piece.now }
    {
        match self.out.write(piece) {
            Ok(0) => {
                self.faults = self.faults.saturating_add(1);
                Err(IoFault::Failed)
            }
            Ok(n) => Ok(n),
            Err(error) => Err(fault_of(error, &mut self.faults)),
        }
    }

    fn flush(&mut self) -> Result<(), IoFault>
        ensures cause { HasCause self.old.faults self.new.faults result }
        ensures kept { Keeps (W.contents self.old.out) (W.contents self.new.out) }
    {
        match self.out.flush() {
            Ok(()) => Ok(()),
            Err(error) => Err(fault_of(error, &mut self.faults)),
        }
    }

    fn faults(&self) -> u64 {
        self.faults
    }
}
