ghost use Rattle.std.specs.Prelude.{◌≡◌, Bool, IsTrue, List, Some, ℕ};

use disk_model::{Failed, Source};
use std::collections::VecDeque;
use std::io;
use std::io::Read;

/// A stream that is read. One that tells says which bytes are left.
pub trait KnownInput: Read {
    /// Whether streams of this type tell the bytes that are left.
    ghost tells: { Bool };

    /// The bytes that are left, where they are told.
    ghost left: { Self → List ℕ };

    /// They are those that reads will give.
    ghost told: { (stream : Self) → IsTrue tells → Self.Read.remaining stream ≡ Some (left stream) };
}

/// The system's standard input. It tells nothing.
#[derive(Drop)]
pub struct StandardInput {
    rt: HostRuntime,
}

impl StandardInput {
    /// Standard input, before the first read.
    pub fn new(rt: HostRuntime) -> StandardInput {
        StandardInput { rt }
    }
}

impl Read for StandardInput {
    fn read(&mut self, into: &mut [u8]) -> io::Result<usize> {
        self.rt.reader().read(into)
    }
}

impl KnownInput for StandardInput {
    ghost use Rattle.std.specs.Prelude.{[], false};

    ghost tells = { false };

    ghost left = { λ stream. [] };

    ghost told = { λ stream tells. absurd (cc tells) };
}

/// Bytes in memory. They tell.
impl KnownInput for VecDeque<u8> {
    ghost use Rattle.std.specs.Prelude.{refl, true};

    ghost tells = { true };

    ghost left = { λ stream. stream.items };

    ghost told = { λ stream tells. refl };
}

/// A stream as a source of bytes. It tells what its stream tells.
#[derive(Drop)]
pub struct InputSource<I> {
    input: I,
    faults: u64,
}

impl<I: KnownInput + Drop> InputSource<I> {
    /// A stream, before the first take.
    pub fn new(input: I) -> InputSource<I>
        ensures input { result.input ≡ input }
        ensures faults { result.faults ≡ 0 }
    {
        InputSource { input, faults: 0 }
    }
}

impl<I: KnownInput + Drop> Source for InputSource<I> {
    ghost tells = { I.tells };

    ghost seen = { λ s. record { left = I.left s.input; faults = s.faults } };

    fn take(&mut self, into: &mut [u8]) -> Result<usize, Failed> {
        match self.input.read(into) {
            Ok(count) => Ok(count),
            Err(_) => {
                self.faults = self.faults.saturating_add(1);
                Err(Failed)
            }
        }
    }
}
