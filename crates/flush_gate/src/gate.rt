ghost use Rattle.std.specs.Prelude.{◌≡◌, ℕ, ◌+◌, ◌-◌, ◌<◌, ◌^◌, ◌↔◌, ◌∷◌, ◌++◌, [], length, slice_index, slice_set, IsTrue, IfOk, IfSome, IfNone};
ghost use Rattle.flush_gate.specs.Flushes.{opening, HasRoom, AreOlderDone, OldestWaits, Leaves};
ghost use Rattle.flush_gate.specs.declared.waiters.Waiting.{Waiting};

use crate::Waiting;
use blk_base::Writer;
use std::alloc::{AllocError, Global};
use std::collections::VecDeque;
use std::marker::Model;

/// Knows which flushes wait for writes that were answered before them.
///
/// Each write belongs to the generation in which it was answered, and each flush begins the next generation. So a flush
/// covers the writes of all older generations.
#[derive(Drop)]
pub struct Gate {
    // The oldest generation that has a count: all writes before it are done.
    oldest: u64,
    // For each generation from there to the one of now, how many of its writes are under way.
    counts: VecDeque<u64>,
    // The flushes of all of these generations but the first.
    waiting: VecDeque<Waiting>,
    room: u32,
}

impl Model for Gate {
    ghost use Rattle.std.specs.Prelude.{ℕ, ◌≡◌, ◌+◌, ◌≤◌, ◌^◌, ◌++◌, replicate};
    ghost use Rattle.std.specs.VecDeque.{deque_len, deque_capacity};
    ghost use Rattle.flush_gate.specs.Flushes.{Flushes, AreFrom};

    ghost Value = { Flushes };

    ghost view = { λ g. record {
      room = g.room;
      under_way = replicate g.oldest 0 ++ g.counts.items;
      waiting = g.waiting.items;
    } };

    ghost invariant = { λ g. record {
      each : deque_len g.counts ≡ deque_len g.waiting + 1;
      numbers : g.oldest + deque_len g.counts ≤ 2 ^ 64;
      flushes : AreFrom (g.oldest + 1) g.waiting.items;
      filled : deque_len g.waiting ≤ g.room;
      room : g.room ≤ deque_capacity g.waiting;
      counts_room : g.room + 1 ≤ deque_capacity g.counts;
    } };
}

impl Gate {
    /// A gate for at most `room` flushes at a time, in generation 0.
    pub fn new(alloc: Global, room: u32) -> Result<Gate, AllocError>
        ensures { IfOk result (λ gate. gate ≡ opening room) }
    {
        let waiting = VecDeque::with_capacity(alloc, room as usize)?;
        let mut counts = VecDeque::with_capacity(alloc, room as usize + 1)?;
        counts.push_back_reserved(0);
        Ok(Gate {
            oldest: 0,
            counts,
            waiting,
            room,
        })
    }

    /// Whether there is room for one more flush, and a number for its generation.
    pub fn has_room(&self) -> bool
        ensures { IsTrue result ↔ HasRoom self.now }
    {
        self.waiting.len() < self.room as usize
            && self.counts.len() as u64 <= u64::MAX - self.oldest
    }

    /// A flush begins. It gives its generation, which is the one of now from here on.
    pub fn begin(&mut self, request: Writer) -> u64
        requires { HasRoom self.old }
        ensures generation { result ≡ length self.old.under_way }
        ensures waits { self.new ≡ record self.old {
          under_way = self.old.under_way ++ 0 ∷ [];
          waiting = self.old.waiting ++ record { request = request; generation = result } ∷ [];
        } }
    {
        let generation = self.oldest + self.counts.len() as u64;
        self.counts.push_back_reserved(0);
        self.waiting.push_back_reserved(Waiting {
            request,
            generation,
        });
        generation
    }

    /// The generation of a write that is answered now, which is under way until it is reported as done. There is room in
    /// the generation's count.
    pub fn answered(&mut self) -> u64
        requires { slice_index self.old.under_way (length self.old.under_way - 1) < 2 ^ 64 - 1 }
        ensures generation { result + 1 ≡ length self.old.under_way }
        ensures counted { self.new ≡ record self.old {
          under_way = slice_set self.old.under_way result
              (slice_index self.old.under_way result + 1);
        } }
    {
        let newest = self.counts.len() - 1;
        self.counts[newest] += 1;
        self.oldest + newest as u64
    }

    /// Whether a write of this generation is under way.
    pub fn is_under_way(&self, generation: u64) -> bool
        ensures { IsTrue result ↔ (0 < slice_index self.now.under_way generation) }
    {
        if generation < self.oldest {
            return false;
        }
        let place = generation - self.oldest;
        place < self.counts.len() as u64 && self.counts[place as usize] > 0
    }

    /// A write of this generation is done: counts and map are updated. It is reported at most as often as `answered` gave
    /// the generation.
    pub fn done(&mut self, generation: u64)
        requires { 0 < slice_index self.old.under_way generation }
        ensures { self.new ≡ record self.old {
          under_way = slice_set self.old.under_way generation
              (slice_index self.old.under_way generation - 1);
        } }
    {
        let place = (generation - self.oldest) as usize;
        self.counts[place] -= 1;
    }

    /// Whether all writes of older generations are done.
    pub fn older_done(&self, generation: u64) -> bool
        ensures { IsTrue result ↔ AreOlderDone self.now generation }
    {
        for place in 0..self.counts.len() {
            if self.oldest + (place as u64) < generation && self.counts[place] != 0 {
                return false;
            }
        }
        true
    }

    /// The oldest flush, if it is complete. It waits no longer. `None` exactly where the oldest flush still waits for an
    /// older write, or there is none.
    pub fn complete(&mut self) -> Option<Writer>
        ensures some { IfSome result (λ request.
            (generation : ℕ)
            × Leaves self.old self.new (record { request = request; generation = generation })) }
        ensures none { IfNone result (OldestWaits self.old × (self.new ≡ self.old)) }
    {
        let older = self.counts[0];
        if older != 0 {
            return None;
        }
        let flush = self.waiting.pop_front()?;
        let _ = self.counts.pop_front();
        self.oldest += 1;
        Some(flush.request)
    }
}
