//! Files and a sink in memory, which fail at the calls that they are told to.

ghost use Rattle.std.specs.Prelude.{◌≡◌, ◌^◌, ◌-◌, ◌<◌, ◌≤◌, ◌+◌, length, min, max, IfOk, OnErr, OnOk, [], Some};
ghost use Rattle.symk_io.specs.Causes.{Counted};
ghost use Rattle.symk_io.specs.Failing.{fails_next, next_call, HasMade, FailsAsListed, NeverOtherwise};

use crate::mem_files::Shelf;
use crate::{Files, IoFault, MemFile, Sink};
use std::alloc::Global;

/// Which calls fail, by their numbers from 1, how many were made, and how many failed.
#[derive(Drop)]
struct Failing {
    calls: Vec<u64>,
    made: u64,
    faults: u64,
}

impl Failing {
    /// No call was made yet.
    fn new(calls: Vec<u64>) -> Failing
        ensures { result ≡ record { calls = calls; made = 0; faults = 0 } }
    {
        Failing {
            calls,
            made: 0,
            faults: 0,
        }
    }

    /// Counts a call, and says whether it is to fail.
    fn count_call(&mut self) -> bool
        ensures fails { result ≡ fails_next self.old }
        ensures counted { self.new ≡ record self.old { made = next_call self.old.made } }
    {
        self.made = self.made.saturating_add(1);
        self.calls.contains(&self.made)
    }

    /// Counts a failure, and answers it.
    fn fail(&mut self) -> IoFault
        ensures fault { result ≡ IoFault.Failed }
        ensures cause { Counted self.old.faults self.new.faults result }
        ensures counted { self.new ≡ record self.old { faults = min (self.old.faults + 1) (2 ^ 64 - 1) } }
    {
        self.faults = self.faults.saturating_add(1);
        IoFault::Failed
    }
}

/// Files in memory, which tell all their texts and fail at the calls that they are told to.
///
/// Calls of `open_file` and `read` are counted together from 1, whatever they answer; a call whose number is listed
/// fails. Besides, `open_file` fails for a name that isn't there. Each failure raises `faults` by one.
#[derive(Drop)]
pub struct MemFiles {
    shelf: Shelf,
    failing: Failing,
}

impl MemFiles {
    ghost use Rattle.symk_io.specs.MemView.{files_view, StartsWith};

    /// These files, of which none is open yet, and the numbers of the calls that fail, in any order.
    pub fn new(files: Vec<MemFile>, failing: Vec<u64>) -> MemFiles
        ensures start { StartsWith files.items (files_view result) }
        ensures calls { HasMade failing.items 0 result.failing }
    {
        MemFiles {
            shelf: Shelf::new(files),
            failing: Failing::new(failing),
        }
    }

    /// How many calls of `open_file` and `read` were made.
    pub fn calls(&self) -> u64
        ensures { result ≡ self.now.failing.made }
    {
        self.failing.made
    }
}

impl Files for MemFiles {
    ghost use Rattle.symk_io.specs.Causes.{HasCause};
    ghost use Rattle.symk_io.specs.Memory.{text_in};
    ghost use Rattle.symk_io.specs.MemView.{files_view};
    ghost use Rattle.symk_io.specs.View.{Tells, Opens, Reads};

    ghost view = { files_view };

    fn open_file(&mut self, name: &str) -> Result<(), IoFault>
        ensures told { Tells (Opens name.now result) (files_view self.old).told (files_view self.new).told }
        ensures cause { HasCause (files_view self.old).faults (files_view self.new).faults result }
        // A call that is listed fails, and another one only where the name isn't there.
        ensures listed { FailsAsListed (text_in self.old.shelf.files.items name.now ≡ None) self.old.failing
            self.new.failing result }
    {
        let fails = self.failing.count_call();
        self.shelf.note(name)?;
        if fails || !self.shelf.open(name) {
            return Err(self.failing.fail());
        }
        Ok(())
    }

    fn read(&mut self, buf: &mut [u8]) -> Result<usize, IoFault>
        ensures bound { IfOk result (λ n. n ≤ length buf.new) }
        ensures told { Tells (Reads buf.new result) (files_view self.old).told (files_view self.new).told }
        ensures cause { HasCause (files_view self.old).faults (files_view self.new).faults result }
        // A call that is listed fails, and no other.
        ensures listed { FailsAsListed NeverOtherwise self.old.failing self.new.failing result }
    {
        if self.failing.count_call() {
            return Err(self.failing.fail());
        }
        Ok(self.shelf.read(buf))
    }

    fn faults(&self) -> u64 {
        self.failing.faults
    }
}

/// A sink in memory, which tells the bytes that it took and its flushes, and fails at the calls that it is told to.
///
/// Calls of `write` and `flush` are counted together from 1, whatever they answer; a call whose number is listed
/// fails, takes nothing and raises `faults` by one. Any other `write` takes as much as it may, or finds no memory;
/// any other `flush` goes well, or finds none to be counted, past the last `u64`.
#[derive(Drop)]
pub struct MemSink {
    bytes: Vec<u8>,
    flushed: usize,
    flushes: u64,
    failing: Failing,
    most: usize,
}

impl MemSink {
    ghost use Rattle.symk_io.specs.MemView.{sink_view};

    /// A sink that has taken nothing, the numbers of the calls that fail, in any order, and the greatest number of
    /// bytes that a `write` takes, at least 1 (0 counts as 1).
    pub fn new(alloc: Global, failing: Vec<u64>, most: usize) -> MemSink
        ensures start { sink_view result ≡ record { taken = Some []; flushed = Some 0; flushes = Some 0; faults = 0 } }
        ensures calls { HasMade failing.items 0 result.failing }
        ensures most { result.most ≡ max most 1 }
    {
        MemSink {
            bytes: Vec::new(alloc),
            flushed: 0,
            flushes: 0,
            failing: Failing::new(failing),
            most: most.max(1),
        }
    }

    /// The bytes taken so far.
    pub fn bytes(&self) -> &[u8]
        ensures { (sink_view self.now).taken ≡ Some result.now }
    {
        &self.bytes
    }

    /// How many flushes went well.
    pub fn flushes(&self) -> u64
        ensures { (sink_view self.now).flushes ≡ Some result }
    {
        self.flushes
    }

    /// How many calls of `write` and `flush` were made.
    pub fn calls(&self) -> u64
        ensures { result ≡ self.now.failing.made }
    {
        self.failing.made
    }
}

impl Sink for MemSink {
    ghost use Rattle.symk_io.specs.Causes.{HasCause};
    ghost use Rattle.symk_io.specs.MemView.{sink_view};
    ghost use Rattle.symk_io.specs.View.{IsFlushed, FlushesOnce, Tells, Writes};

    ghost view = { sink_view };

    fn write(&mut self, piece: &[u8]) -> Result<usize, IoFault>
        requires { 0 < length piece.now }
        ensures some { IfOk result (λ n. 1 ≤ n) }
        ensures bound { IfOk result (λ n. n ≤ length piece.now) }
        ensures taken { Tells (Writes piece.now result) (sink_view self.old).taken (sink_view self.new).taken }
        ensures flushed { (sink_view self.new).flushed ≡ (sink_view self.old).flushed }
        ensures flushes { (sink_view self.new).flushes ≡ (sink_view self.old).flushes }
        ensures cause { HasCause (sink_view self.old).faults (sink_view self.new).faults result }
        // As much as it may take; a call that is listed fails, and no other.
        ensures full { IfOk result (λ n. n ≡ min (max self.old.most 1) (length piece.now)) }
        ensures most { self.new.most ≡ self.old.most }
        ensures listed { FailsAsListed NeverOtherwise self.old.failing self.new.failing result }
    {
        if self.failing.count_call() {
            return Err(self.failing.fail());
        }
        let n = self.most.max(1).min(piece.len());
        self.bytes.extend_from_slice(&piece[..n])?;
        Ok(n)
    }

    fn flush(&mut self) -> Result<(), IoFault>
        ensures taken { Tells (λ old new. new ≡ old) (sink_view self.old).taken (sink_view self.new).taken }
        ensures flushed { OnOk result (IsFlushed (sink_view self.new)) }
        ensures err { OnErr result ((sink_view self.new).flushed ≡ (sink_view self.old).flushed) }
        ensures flushes { Tells (FlushesOnce result) (sink_view self.old).flushes (sink_view self.new).flushes }
        ensures cause { HasCause (sink_view self.old).faults (sink_view self.new).faults result }
        // A call that is listed fails, and no other.
        ensures most { self.new.most ≡ self.old.most }
        ensures listed { FailsAsListed NeverOtherwise self.old.failing self.new.failing result }
    {
        if self.failing.count_call() {
            return Err(self.failing.fail());
        }
        self.flushes = self.flushes.checked_add(1).ok_or(IoFault::Memory)?;
        self.flushed = self.bytes.len();
        Ok(())
    }

    fn faults(&self) -> u64 {
        self.failing.faults
    }
}
