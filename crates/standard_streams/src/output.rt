ghost use Rattle.std.specs.Prelude.{◌≡◌, [], Bool, IfOk, IsTrue, List, OnOk, Some, ℕ};
ghost use Rattle.std.specs.Io.Buffered.{writer_buffer, writer_inner};
ghost use Rattle.standard_streams.specs.Writes.{held_by};

use crate::writes::write_on;
use disk_model::{Failed, Sink};
use std::alloc::Global;
use std::io;
use std::io::{BufWriter, Printer, Write};

/// A stream that is written. One that tells says which bytes it holds.
pub trait KnownOutput: Write {
    /// Whether streams of this type tell the bytes that they hold.
    ghost tells: { Bool };

    /// The bytes that it holds, where they are told.
    ghost held: { Self → List ℕ };

    /// They are those that were written.
    ghost told: { (stream : Self) → IsTrue tells → Self.Write.contents stream ≡ Some (held stream) };
}

/// The system's standard output. It tells nothing.
impl<'r> KnownOutput for Printer<'r, HostRuntime> {
    ghost use Rattle.std.specs.Prelude.{[], false};

    ghost tells = { false };

    ghost held = { λ stream. [] };

    ghost told = { λ stream tells. absurd (cc tells) };
}

/// Bytes in memory. They tell.
impl KnownOutput for Vec<u8> {
    ghost use Rattle.std.specs.Prelude.{refl, true};

    ghost tells = { true };

    ghost held = { λ stream. stream.items };

    ghost told = { λ stream tells. refl };
}

/// A stream as a sink of bytes. It collects what is put, and writes it 8,192 bytes at a time; what is left is written by
/// `finish`. A failure is told by the call in which a write failed. It tells what its stream tells.
#[derive(Drop)]
pub struct OutputSink<W: KnownOutput + Drop> {
    out: BufWriter<W>,
    faults: u64,
}

impl<W: KnownOutput + Drop> OutputSink<W> {
    /// A stream, before the first put. It fails where no memory is found to collect in.
    pub fn new(alloc: Global, stream: W) -> io::Result<OutputSink<W>>
        ensures stream { IfOk result (λ sink. writer_inner sink.out ≡ stream) }
        ensures none { IfOk result (λ sink. writer_buffer sink.out ≡ []) }
        ensures faults { IfOk result (λ sink. sink.faults ≡ 0) }
    {
        let out = BufWriter::new(alloc, stream)?;
        Ok(OutputSink { out, faults: 0 })
    }

    /// The stream, which holds all that was put but for what is still collected.
    pub fn stream(&self) -> &W
        ensures { result.now ≡ writer_inner self.now.out }
    {
        self.out.get_ref()
    }

    /// Writes what was put and isn't written yet. After `Failed` some of it may not be.
    pub fn finish(&mut self) -> Result<(), Failed>
        ensures kept { IsTrue W.tells → held_by W.held self.new.out ≡ held_by W.held self.old.out }
        ensures written { IsTrue W.tells → OnOk result
            (W.held (writer_inner self.new.out) ≡ held_by W.held self.old.out) }
    {
        match self.out.flush() {
            Ok(()) => Ok(()),
            Err(_) => Err(Failed),
        }
    }
}

impl<W: KnownOutput + Drop> Sink for OutputSink<W> {
    ghost use Rattle.standard_streams.specs.Writes.{held_by};

    ghost tells = { W.tells };

    ghost seen = { λ s. record { held = held_by W.held s.out; faults = s.faults } };

    fn put(&mut self, bytes: &[u8]) -> Result<(), Failed> {
        match write_on(&mut self.out, bytes) {
            Ok(()) => Ok(()),
            Err(_) => {
                self.faults = self.faults.saturating_add(1);
                Err(Failed)
            }
        }
    }
}
