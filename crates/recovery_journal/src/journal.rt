ghost use Rattle.std.specs.Prelude.{◌≡◌, ◌+◌, ◌<◌, ◌≤◌, ◌^◌, ◌∷◌, ◌++◌, [], ◌⊎◌, length, IfOk, IfErr, IfSome, IfNone, OnOk, OnErr, IsTrue, ◌↔◌, Some, None, All};
ghost use Rattle.blk_base.specs.Limits.{IsGeometry};
ghost use Rattle.journal_codec.specs.Grammar.{HoldsEntry, HoldsBlock};
ghost use Rattle.recovery_journal.specs.Log.{opening, head_of, first_point, unhanded, IsHead, HasRoom, HasNoRoom, IsWriting, Seals, HandsOut, NoneCommitted, IsBehind, IsNamed, Advances};

use crate::Place;
use crate::new_entry::enter;
use crate::watermarks::{count_durable, first_sequence, leave_out, sequence_of};
use blk_base::{CommittedEntry, Entry, Geometry, Half, JOURNAL_ENTRIES, Point, raise, repeated};
use journal_codec::{Entries, JournalBlock};
use std::alloc::{AllocError, Global};
use std::collections::VecDeque;
use std::marker::Model;
use std::mem::replace;

/// The recovery journal of a session, and what each zone still needs of it.
#[derive(Drop)]
pub struct Journal {
    nonce: u64,
    // How many blocks the ring has.
    size: u64,
    // The sequence of the block being filled, and its entries.
    sequence: u64,
    filling: Entries<JOURNAL_ENTRIES>,
    // The entries of sealed blocks that some zone still needs, of which the first `handed` were handed out.
    entries: VecDeque<CommittedEntry>,
    handed: usize,
    // The blocks below this sequence are committed.
    committed: u64,
    // Each zone's part of every entry below its watermark is durable.
    watermarks: Vec<Point>,
}

impl Model for Journal {
    ghost use Rattle.std.specs.Prelude.{◌*◌, ◌≤◌};
    ghost use Rattle.std.specs.VecDeque.{deque_capacity};
    ghost use Rattle.recovery_journal.specs.Log.{Log};

    ghost Value = { Log };

    ghost use Rattle.blk_base.specs.declared.sizes.TheConstants.{JOURNAL_ENTRIES};
    ghost use Rattle.recovery_journal.specs.Kept.{IsKept};
    ghost use Rattle.recovery_journal.specs.Viewed.{log_of};

    ghost view = { log_of };

    ghost invariant = { λ j. record {
      kept : IsKept (log_of j);
      room : j.size * JOURNAL_ENTRIES ≤ deque_capacity j.entries;
    } };
}

impl Journal {
    /// An empty journal whose first block has the sequence `start`, 1 to 2^55 − 1, for so many zones, at least one. Takes
    /// the room for the entries of a full ring.
    pub fn new(
        alloc: Global,
        geometry: &Geometry,
        start: u64,
        zones: u32,
    ) -> Result<Journal, AllocError>
        requires geometry { IsGeometry geometry.now }
        requires start { (1 ≤ start) × (start < 2 ^ 55) }
        requires zones { 0 < zones }
        ensures { IfOk result (λ journal. journal ≡ opening geometry.now start zones) }
    {
        let first = Point::of(start, 0, Half::Increment);
        let watermarks = repeated(alloc, first, zones as usize)?;
        let entries = VecDeque::with_capacity(alloc, geometry.journal as usize * JOURNAL_ENTRIES)?;
        Ok(Journal {
            nonce: geometry.nonce,
            size: u64::from(geometry.journal),
            sequence: start,
            filling: Entries::new(),
            entries,
            handed: 0,
            committed: start,
            watermarks,
        })
    }

    /// The sequence of the block being filled.
    pub fn sequence(&self) -> u64
        ensures { result ≡ self.now.sequence }
    {
        self.sequence
    }

    /// The sequence of the sealed block that isn't committed yet, which is the one before the block being filled; `None`
    /// exactly where there is none.
    pub fn writing(&self) -> Option<u64>
        ensures some { IfSome result (λ sequence.
            (sequence ≡ self.now.committed) × (sequence + 1 ≡ self.now.sequence)) }
        ensures none { IfNone result (self.now.committed ≡ self.now.sequence) }
    {
        if self.committed < self.sequence {
            Some(self.committed)
        } else {
            None
        }
    }

    /// Whether the block being filled has a slot in the ring whose block nobody needs: whether the head is at least its
    /// sequence + 2 − J.
    pub fn has_slot(&self) -> bool
        ensures { IsTrue result ↔ (self.now.sequence + 2 ≤ head_of self.now + self.now.size) }
    {
        self.sequence + 2 <= self.head() + self.size
    }

    // It takes any entry: that each is of the format, so that the block is, is for the crate above to know.
    /// Adds an entry to the block being filled, whose sequence is below 2^55, and gives the entry's place. The entry comes
    /// back exactly where that block holds 192 or has no slot (`has_slot`).
    pub fn append(&mut self, entry: Entry) -> Result<Place, Entry>
        requires sequence { self.old.sequence < 2 ^ 55 }
        ensures place { IfOk result (λ place.
            place ≡ record { sequence = self.old.sequence; entry = length self.old.filling }) }
        ensures added { OnOk result
            (self.new ≡ record self.old { filling = self.old.filling ++ entry ∷ [] }) }
        ensures room { OnOk result (HasRoom self.old) }
        ensures back { IfErr result (λ back. (back ≡ entry) × (self.new ≡ self.old)) }
        ensures full { OnErr result (HasNoRoom self.old) }
    {
        if self.filling.is_full() || !self.has_slot() {
            return Err(entry);
        }
        let place = Place {
            sequence: self.sequence,
            entry: self.filling.len() as u16,
        };
        self.filling.push(entry);
        Ok(place)
    }

    /// Seals the block being filled, to be written between two flushes; the next one is filled from here on. `None`
    /// exactly where no entry waits or a sealed block isn't committed yet. The format holds the block if it holds each of
    /// its entries.
    pub fn seal(&mut self) -> Option<JournalBlock>
        ensures some { IfSome result (Seals self.old self.new) }
        ensures ring { IfSome result (λ block. block.sequence + 2 ≤ block.head + self.old.size) }
        ensures held { All HoldsEntry self.old.filling →
            IfSome result (λ block. HoldsBlock block.sequence block.head block.entries) }
        ensures head { head_of self.new ≡ head_of self.old }
        ensures none { IfNone result
            (((self.old.filling ≡ []) ⊎ IsWriting self.old) × (self.new ≡ self.old)) }
    {
        if self.filling.is_empty() || self.committed < self.sequence {
            return None;
        }
        let sequence = self.sequence;
        let head = self.head();
        enter(&mut self.entries, sequence, self.filling.as_slice());
        self.sequence += 1;
        Some(JournalBlock {
            nonce: self.nonce,
            sequence,
            head,
            entries: replace(&mut self.filling, Entries::new()),
        })
    }

    /// The sealed block, which has this sequence, is durable.
    pub fn committed(&mut self, sequence: u64)
        requires sealed { IsWriting self.old }
        requires sequence { sequence ≡ self.old.committed }
        ensures { self.new ≡ record self.old { committed = sequence + 1 } }
    {
        prove_eq!(sequence, self.committed);
        self.committed += 1;
    }

    /// The next committed entry, of a block with a sequence of at least 1. Entries come in the order of their points, each
    /// once; `None` exactly where no committed one is left. While no sealed block waits to be committed, that is where all
    /// entries were handed out.
    pub fn next_committed(&mut self) -> Option<CommittedEntry>
        ensures some { IfSome result (HandsOut self.old self.new) }
        ensures named { IfSome result IsNamed }
        ensures none { IfNone result (NoneCommitted self.old × (self.new ≡ self.old)) }
        ensures all { IfNone result
            (self.old.committed ≡ self.old.sequence → self.old.handed ≡ length self.old.entries) }
    {
        if self.handed == self.entries.len() {
            return None;
        }
        let entry = self.entries[self.handed];
        if sequence_of(entry.point) >= self.committed {
            return None;
        }
        self.handed += 1;
        Some(entry)
    }

    /// The point of the first entry that wasn't handed out; where there is none, the first point of the block being
    /// filled. Every entry below it was handed out, so it is the watermark of a zone that has no part of any of them. The
    /// sequence of the block being filled is below 2^55.
    pub fn first_unhanded(&self) -> Point
        requires { self.now.sequence < 2 ^ 55 }
        ensures value { result.0 ≡ first_point (unhanded self.now) self.now.sequence }
        ensures behind { IsBehind self.now result }
    {
        match self.entries.get(self.handed) {
            Some(entry) => entry.point,
            None => Point::of(self.sequence, 0, Half::Increment),
        }
    }

    /// The zone's part of every entry below `point` is durable. Each of these entries was handed out. The point is that of
    /// the half that adds, so that an entry below it is so with both its halves. A report that says less than an earlier
    /// one changes nothing.
    pub fn watermark(&mut self, zone: u32, point: Point)
        requires zone { zone < length self.old.watermarks }
        requires handed { IsBehind self.old point }
        ensures advances { Advances self.old self.new zone point }
        ensures head { head_of self.old ≤ head_of self.new }
    {
        raise(&mut self.watermarks, zone as usize, point);
        let durable = count_durable(&self.entries, &self.watermarks);
        leave_out(&mut self.entries, durable);
        self.handed -= durable;
    }

    /// The least sequence that some zone still needs; where there is none, that of the block being filled. It never falls:
    /// no call gives a journal with a lower one.
    pub fn head(&self) -> u64
        ensures value { result ≡ head_of self.now }
        ensures least { IsHead self.now result }
    {
        first_sequence(&self.entries, self.sequence)
    }
}
