//! Files and a sink in memory that never fail.

ghost use Rattle.std.specs.Prelude.{◌≡◌, [], Some};

use crate::mem_files::Shelf;
use crate::{Files, IoFault, MemFile, Sink};
use std::alloc::Global;

/// Files in memory that never fail, and tell all their texts. A name that isn't there has the empty text.
#[derive(Drop)]
pub struct NoFaultFiles {
    shelf: Shelf,
}

impl NoFaultFiles {
    ghost use Rattle.symk_io.specs.NoFault.{files_view, StartsWith};

    /// These files, of which none is open yet.
    pub fn new(files: Vec<MemFile>) -> NoFaultFiles
        ensures { StartsWith files.items (files_view result) }
    {
        NoFaultFiles {
            shelf: Shelf::new(files),
        }
    }
}

impl Files for NoFaultFiles {
    ghost use Rattle.symk_io.specs.NoFault.{files_view};

    ghost view = { files_view };

    fn open_file(&mut self, name: &str) -> Result<(), IoFault> {
        self.shelf.note(name)?;
        if !self.shelf.open(name) {
            self.shelf.close();
        }
        Ok(())
    }

    fn read(&mut self, buf: &mut [u8]) -> Result<usize, IoFault> {
        Ok(self.shelf.read(buf))
    }

    fn faults(&self) -> u64 {
        0
    }
}

/// A sink in memory that never fails, takes each piece whole, and tells the bytes that it took and its flushes.
///
/// A flush past the last `u64` finds no memory to be counted.
#[derive(Drop)]
pub struct NoFaultSink {
    bytes: Vec<u8>,
    flushed: usize,
    flushes: u64,
}

impl NoFaultSink {
    ghost use Rattle.symk_io.specs.NoFault.{sink_view};

    /// A sink that has taken nothing.
    pub fn new(alloc: Global) -> NoFaultSink
        ensures { sink_view result ≡ record { taken = Some []; flushed = Some 0; flushes = Some 0; faults = 0 } }
    {
        NoFaultSink {
            bytes: Vec::new(alloc),
            flushed: 0,
            flushes: 0,
        }
    }

    /// The bytes taken so far.
    pub fn bytes(&self) -> &[u8]
        ensures { (sink_view self.now).taken ≡ Some result.now }
    {
        &self.bytes
    }

    /// How many flushes went well.
    pub fn flushes(&self) -> u64
        ensures { (sink_view self.now).flushes ≡ Some result }
    {
        self.flushes
    }
}

impl Sink for NoFaultSink {
    ghost use Rattle.symk_io.specs.NoFault.{sink_view};

    ghost view = { sink_view };

    fn write(&mut self, piece: &[u8]) -> Result<usize, IoFault> {
        self.bytes.extend_from_slice(piece)?;
        Ok(piece.len())
    }

    fn flush(&mut self) -> Result<(), IoFault> {
        self.flushes = self.flushes.checked_add(1).ok_or(IoFault::Memory)?;
        self.flushed = self.bytes.len();
        Ok(())
    }

    fn faults(&self) -> u64 {
        0
    }
}
