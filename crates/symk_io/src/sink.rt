//! Where the bytes go, and writing a whole piece.

ghost use Rattle.std.specs.Prelude.{◌≡◌, ◌<◌, ◌≤◌, length, IfOk, OnErr, OnOk};
ghost use Rattle.symk_io.specs.Causes.{HasCause};
ghost use Rattle.symk_io.specs.View.{IsFlushed, FlushesOnce, SinkView, Tells, Writes, Grew, GrewByPart, Bytes};

use crate::IoFault;

/// A place for bytes.
///
/// It may tell the bytes that it took so far, and how many flushes went well; no call changes whether it does.
/// `Failed` comes only where `faults` rose in that call, or stood at the last `u64`; no other answer moves `faults`.
/// After an error the call took nothing, and no flush went well in it.
pub trait Sink {
    /// The bytes taken, how many of them were flushed, and in how many flushes, where they are told, and how often a
    /// call has failed.
    ghost view: { Self → SinkView };

    /// Takes at least one byte from the front of a piece that isn't empty, and answers how many it took. A sink that
    /// takes none answers `Failed`.
    fn write(&mut self, piece: &[u8]) -> Result<usize, IoFault>
        requires { 0 < length piece.now }
        ensures some { IfOk result (λ n. 1 ≤ n) }
        ensures bound { IfOk result (λ n. n ≤ length piece.now) }
        ensures taken { Tells (Writes piece.now result) (view self.old).taken (view self.new).taken }
        ensures flushed { (view self.new).flushed ≡ (view self.old).flushed }
        ensures flushes { (view self.new).flushes ≡ (view self.old).flushes }
        ensures cause { HasCause (view self.old).faults (view self.new).faults result };

    /// Sends on what was taken so far.
    fn flush(&mut self) -> Result<(), IoFault>
        ensures taken { Tells (λ old new. new ≡ old) (view self.old).taken (view self.new).taken }
        ensures flushed { OnOk result (IsFlushed (view self.new)) }
        ensures err { OnErr result ((view self.new).flushed ≡ (view self.old).flushed) }
        ensures flushes { Tells (FlushesOnce result) (view self.old).flushes (view self.new).flushes }
        ensures cause { HasCause (view self.old).faults (view self.new).faults result };

    /// How often a call has failed; it never falls, and stays at the last `u64`.
    fn faults(&self) -> u64
        ensures { result ≡ (view self.now).faults };
}

/// Writes the whole piece, in as many calls as the sink needs, and then flushes once; an empty piece is only flushed.
///
/// After an error the sink took a front of the piece and no flush went well, and it wasn't written to again. `put`
/// itself takes no memory.
pub fn put<K: Sink>(sink: &mut K, piece: &[u8]) -> Result<(), IoFault>
    ensures ok { OnOk result (Tells (Grew piece.now) (K.view sink.old).taken (K.view sink.new).taken) }
    ensures err { OnErr result (Tells (GrewByPart piece.now) (K.view sink.old).taken (K.view sink.new).taken) }
    ensures flushed { OnOk result (IsFlushed (K.view sink.new)) }
    // One flush goes well, and after an error none.
    ensures flushes { Tells (FlushesOnce result) (K.view sink.old).flushes (K.view sink.new).flushes }
    ensures cause { HasCause (K.view sink.old).faults (K.view sink.new).faults result }
{
    let mut at = 0;
    'turns: while at < piece.len() {
        match sink.write(&piece[at..]) {
            Ok(n) => at += n,
            Err(fault) => return Err(fault),
        }
    }
    sink.flush()
}
