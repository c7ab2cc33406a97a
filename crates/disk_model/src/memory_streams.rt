ghost use Rattle.std.specs.Prelude.{◌≡◌, ◌≢◌, ◌<◌, ◌≤◌, ◌+◌, ◌-◌, ◌++◌, [], true, Some, None, min, take, drop, length, IfOk, OnOk, OnErr};
ghost use Rattle.std.specs.Bool.{OnTrue, OnFalse};
ghost use Rattle.disk_model.specs.Causes.{HasCause};
ghost use Rattle.disk_model.specs.Memory.{one_more};
ghost use Rattle.disk_model.specs.Streams.{Puts, one_fewer, sink_seen};

use crate::{Failed, Sink, Source};
use std::alloc::{AllocError, Global};
use std::marker::Model;

/// A source in memory, which tells. The take with a given number, from 0, fails, and no other.
#[derive(Drop)]
pub struct MemSource {
    bytes: Vec<u8>,
    taken: usize,
    fails_in: Option<u64>,
    faults: u64,
}

impl Model for MemSource {
    ghost use Rattle.std.specs.Prelude.{◌≤◌, drop, length};
    ghost use Rattle.disk_model.specs.Streams.{SourceState};

    ghost Value = { SourceState };

    ghost view = { λ s. record {
      bytes = drop s.taken s.bytes.items;
      fails_in = s.fails_in;
      faults = s.faults;
    } };

    ghost invariant = { λ s. s.taken ≤ length s.bytes.items };
}

// Counts a take, and says whether it is the one that fails.
fn count_take(fails_in: &mut Option<u64>) -> bool
    ensures fails { OnTrue result (fails_in.old ≡ Some 0) }
    ensures passes { OnFalse result (fails_in.old ≢ Some 0) }
    ensures counted { fails_in.new ≡ one_fewer fails_in.old }
{
    match *fails_in {
        Some(0) => {
            *fails_in = None;
            true
        }
        Some(more) => {
            *fails_in = Some(more - 1);
            false
        }
        None => false,
    }
}

impl MemSource {
    /// A source of these bytes whose take with the number `fails_at` fails; with `None`, none does.
    pub fn new(bytes: Vec<u8>, fails_at: Option<u64>) -> MemSource
        ensures { result ≡ record { bytes = bytes.items; fails_in = fails_at; faults = 0 } }
    {
        MemSource {
            bytes,
            taken: 0,
            fails_in: fails_at,
            faults: 0,
        }
    }
}

impl Source for MemSource {
    ghost use Rattle.std.specs.Prelude.{true};
    ghost use Rattle.disk_model.specs.Streams.{source_seen};

    ghost tells = { true };

    ghost seen = { source_seen };

    fn take(&mut self, into: &mut [u8]) -> Result<usize, Failed>
        requires { 0 < length into.old }
        ensures count { IfOk result (λ n. n ≤ length into.new) }
        ensures given { IfOk result (λ n. self.old.bytes ≡ take n into.new ++ self.new.bytes) }
        ensures end { IfOk result (λ n. n ≡ 0 → self.old.bytes ≡ []) }
        ensures kept { OnErr result (self.new.bytes ≡ self.old.bytes) }
        ensures cause { HasCause self.old.faults self.new.faults result }

        // The exact effect. What it doesn't fill of `into` stays as it was.
        ensures fails_at { OnErr result (self.old.fails_in ≡ Some 0) }
        ensures passes { OnOk result (self.old.fails_in ≢ Some 0) }
        ensures exact_ok { IfOk result (λ n. (n ≡ min (length into.old) (length self.old.bytes))
            × (self.new ≡ record {
              bytes = drop n self.old.bytes;
              fails_in = one_fewer self.old.fails_in;
              faults = self.old.faults;
            })) }
        ensures exact_err { OnErr result (self.new
            ≡ record
            { bytes = self.old.bytes; fails_in = None; faults = one_more self.old.faults }) }
        ensures rest { IfOk result (λ n. drop n into.new ≡ drop n into.old) }
        ensures untouched { OnErr result (into.new ≡ into.old) }
    {
        if count_take(&mut self.fails_in) {
            self.faults = self.faults.saturating_add(1);
            return Err(Failed);
        }
        let count = into.len().min(self.bytes.len() - self.taken);
        into[..count].copy_from_slice(&self.bytes[self.taken..self.taken + count]);
        self.taken += count;
        Ok(count)
    }
}

/// A sink in memory of fixed room, which tells. A put fails exactly where it would go past that room, and fills it.
#[derive(Drop)]
pub struct MemSink {
    bytes: Vec<u8>,
    room: usize,
    faults: u64,
}

impl Model for MemSink {
    ghost use Rattle.std.specs.Prelude.{◌≤◌, length, vec_capacity};
    ghost use Rattle.disk_model.specs.Streams.{SinkState};

    ghost Value = { SinkState };

    ghost view = { λ s. record { bytes = s.bytes.items; room = s.room; faults = s.faults } };

    ghost invariant = { λ s. (length s.bytes.items ≤ s.room) × (s.room ≤ vec_capacity s.bytes) };
}

impl MemSink {
    /// An empty sink with room for so many bytes.
    pub fn new(alloc: Global, room: usize) -> Result<MemSink, AllocError>
        ensures { IfOk result (λ s. s ≡ record { bytes = []; room = room; faults = 0 }) }
    {
        Ok(MemSink {
            bytes: Vec::with_capacity(alloc, room)?,
            room,
            faults: 0,
        })
    }

    /// The bytes that it holds.
    pub fn bytes(&self) -> &[u8]
        ensures { result.now ≡ self.now.bytes }
    {
        &self.bytes
    }
}

impl Sink for MemSink {
    ghost use Rattle.std.specs.Prelude.{true};
    ghost use Rattle.disk_model.specs.Streams.{sink_seen};

    ghost tells = { true };

    ghost seen = { sink_seen };

    fn put(&mut self, bytes: &[u8]) -> Result<(), Failed>
        ensures puts { Puts true bytes.now (sink_seen self.old) (sink_seen self.new) result }

        // The exact effect.
        ensures fits { OnOk result (length self.old.bytes + length bytes.now ≤ self.old.room) }
        ensures past { OnErr result (self.old.room < length self.old.bytes + length bytes.now) }
        ensures exact_ok { OnOk result (self.new ≡ record {
          bytes = self.old.bytes ++ bytes.now;
          room = self.old.room;
          faults = self.old.faults;
        }) }
        ensures exact_err { OnErr result (self.new ≡ record {
          bytes = self.old.bytes ++ take (self.old.room - length self.old.bytes) bytes.now;
          room = self.old.room;
          faults = one_more self.old.faults;
        }) }
    {
        let count = bytes.len().min(self.room - self.bytes.len());
        for byte in &bytes[..count] {
            self.bytes.push_reserved(*byte);
        }
        if count < bytes.len() {
            self.faults = self.faults.saturating_add(1);
            return Err(Failed);
        }
        Ok(())
    }
}
