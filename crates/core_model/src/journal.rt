ghost use Rattle.std.specs.Prelude.{◌↔◌, IsTrue, ◌≡◌, ◌+◌, ◌<◌, ◌≤◌, ◌^◌, [], ◌∷◌, ◌++◌, IfOk, IfErr, IfSome, IfNone, OnOk, OnErr, true, false, length, reverse};
ghost use Rattle.blk_base.specs.Limits.{IsGeometry};
ghost use Rattle.core_model.specs.JournalRules as rules;
ghost use Rattle.core_model.specs.JournalRules.{HasNext, IsSealable};
ghost use Rattle.core_model.specs.SessionLimits.{most_entries, most_items};
ghost use Rattle.core_model.specs.Start.{first_log};
ghost use Rattle.data_vio.specs.declared.items.Stage.TheVariants.{Commit, Cover};

use data_vio::{
    BLOCK_ENTRIES, BoxedVio, ENTRY_ROOM, Fifo, LANE_ROOM, Logged, Phase, Register, SealedBlock,
    Sizes, Stage,
};
use recovery_journal::Journal;
use std::alloc::{AllocError, Global};
use std::marker::Model;
use std::mem::replace;

/// The zone of the recovery journal: its log, and the requests whose entries it has.
#[derive(Drop)]
pub struct JournalZone {
    // The stop notice has come.
    notified: bool,
    // A block is under way, sealed or to be sealed.
    busy: bool,
    // A sealed block failed, and no entry is handed in any more.
    broken: bool,
    // The entries of the block being filled, and of those that are sealed.
    log: Journal,
    // The requests whose entries are in the block being filled, the oldest first.
    filling: Fifo<BoxedVio, BLOCK_ENTRIES>,
    // The room of the block that goes round, while none does.
    spare: Option<Fifo<BoxedVio, BLOCK_ENTRIES>>,
    // Who waits until the next block is filled.
    waiting: Fifo<BoxedVio, LANE_ROOM>,
    // The entries that were handed in, and those that are committed.
    entered: Register<Logged, ENTRY_ROOM>,
    committed: Register<Logged, ENTRY_ROOM>,
}

impl Model for JournalZone {
    ghost use Rattle.std.specs.Prelude.{◌≡◌, ◌≤◌, [], false, Some, length};
    ghost use Rattle.core_model.specs.JournalData.{JournalZone as JournalData};

    ghost Value = { JournalData };

    ghost view = { λ j. record {
      notified = j.notified;
      busy = j.busy;
      broken = j.broken;
      log = j.log;
      filling = j.filling;
      waiting = j.waiting;
      entered = j.entered;
      committed = j.committed;
    } };

    ghost invariant = { λ j. record {
      spare : j.busy ≡ false → j.spare ≡ Some [];
      few : length j.filling ≤ length j.log.filling;
    } };
}

// The log of a session: it has no entry.
// Long to prove: what it promises is put together of the views of its parts.
fn first_log(alloc: Global, sizes: &Sizes) -> Result<Journal, AllocError>
    requires geometry { IsGeometry sizes.now.geometry }
    requires start { (1 ≤ sizes.now.start) × (sizes.now.start < 2 ^ 54) }
    requires physical { 0 < sizes.now.physical }
    ensures { IfOk result (λ log. log ≡ first_log sizes.now) }
{
    let zones = u32::from(sizes.zones) + u32::from(sizes.physical);
    Journal::new(alloc, &sizes.geometry, sizes.start, zones)
}

// The block that was sealed last is durable.
fn make_durable(log: &mut Journal)
    ensures { log.new ≡ record log.old { committed = log.old.sequence } }
{
    if let Some(sequence) = log.writing() {
        log.committed(sequence);
    }
}

impl JournalZone {
    /// The journal at the start of a session: nothing was handed in. Its log goes on behind the blocks of the opened image,
    /// which all stay needed. It takes all its room.
    pub fn new(alloc: Global, sizes: &Sizes) -> Result<JournalZone, AllocError>
        requires geometry { IsGeometry sizes.now.geometry }
        requires start { (1 ≤ sizes.now.start) × (sizes.now.start < 2 ^ 54) }
        requires physical { 0 < sizes.now.physical }
        ensures { IfOk result (λ zone. zone ≡ record {
          notified = false;
          busy = false;
          broken = false;
          log = first_log sizes.now;
          filling = [];
          waiting = [];
          entered = [];
          committed = [];
        }) }
    {
        let log = first_log(alloc, sizes)?;
        let filling = Fifo::new(alloc)?;
        let spare = Fifo::new(alloc)?;
        let waiting = Fifo::new(alloc)?;
        let entered = Register::new(alloc)?;
        let committed = Register::new(alloc)?;
        Ok(JournalZone {
            notified: false,
            busy: false,
            broken: false,
            log,
            filling,
            spare: Some(spare),
            waiting,
            entered,
            committed,
        })
    }

    /// Whether no entry is handed in any more.
    pub fn is_closed(&self) -> bool
        ensures { result ≡ rules.is_closed self.now }
    {
        self.notified || self.broken
    }

    /// Whether a block is under way, sealed or to be sealed.
    pub fn is_busy(&self) -> bool
        ensures { result ≡ self.now.busy }
    {
        self.busy
    }

    /// Whether the block being filled has a slot in the ring.
    pub fn has_block(&self) -> bool
        ensures { result ≡ rules.has_block self.now }
    {
        self.log.has_slot()
    }

    /// Whether the block being filled has no entry.
    pub fn is_unfilled(&self) -> bool
        ensures { IsTrue result ↔ (self.now.filling ≡ []) }
    {
        self.filling.is_empty()
    }

    /// The entries that were handed in, the oldest first.
    pub fn entered(&self) -> &[Logged]
        ensures { self.now.entered ≡ reverse result.now }
    {
        self.entered.as_slice()
    }

    /// A request waits for the next block.
    pub fn wait(&mut self, vio: BoxedVio)
        requires { length self.old.waiting ≤ most_items }
        ensures { self.new ≡ record self.old { waiting = self.old.waiting ++ vio ∷ [] } }
    {
        self.waiting.push(vio);
    }

    /// The entry of a request is handed in: it stands in the block being filled. The request comes back where that block has
    /// no slot in the ring, or no room for one more entry.
    pub fn enter(&mut self, vio: BoxedVio) -> Result<(), BoxedVio>
        requires sequence { self.old.log.sequence < 2 ^ 55 }
        requires few { length self.old.entered ≤ most_entries }
        ensures entered { OnOk result (self.new ≡ rules.entered_by vio self.old) }
        ensures room { OnOk result
            ((rules.has_block self.old ≡ true) × (rules.has_room self.old ≡ true)) }
        ensures back { IfErr result (λ back. (back ≡ vio) × (self.new ≡ self.old)) }
        ensures full { OnErr result
            (rules.has_block self.old ≡ true → rules.has_room self.old ≡ false) }
    {
        if self.log.append(vio.entry()).is_err() {
            return Err(vio);
        }
        self.entered.push(vio.logged());
        self.filling.push(vio.turn(Phase::Pending));
        Ok(())
    }

    /// A block goes round that is to be sealed.
    pub fn begin(&mut self) -> SealedBlock
        requires { self.old.busy ≡ false }
        ensures zone { self.new ≡ record self.old { busy = true } }
        ensures block { result ≡ rules.next_block self.old Commit [] }
    {
        let Some(vios) = self.spare.take() else {
            unreachable!();
        };
        self.busy = true;
        SealedBlock {
            stage: Stage::Commit,
            sequence: self.log.sequence(),
            head: self.log.head(),
            vios,
        }
    }

    /// The entry of a request is committed, which is the next one of the log: the block that was sealed last is durable.
    pub fn commit(&mut self, vio: &BoxedVio)
        requires room { length self.old.committed ≤ most_entries }
        requires next { HasNext self.old.log }
        ensures { self.new ≡ rules.committed_by vio.now self.old }
    {
        make_durable(&mut self.log);
        let Some(_) = self.log.next_committed() else {
            unreachable!();
        };
        self.committed.push(vio.logged());
    }

    /// The block being filled is sealed. The next one is filled in the room of a block whose entries are all committed.
    pub fn seal(&mut self, block: SealedBlock) -> SealedBlock
        requires done { block.vios ≡ [] }
        requires due { IsSealable self.old.log }
        ensures block { result ≡ rules.next_block self.old Cover self.old.filling }
        ensures zone { self.new
            ≡ record self.old { log = rules.sealed_log self.old.log; filling = [] } }
    {
        let Some(sealed) = self.log.seal() else {
            unreachable!();
        };
        SealedBlock {
            stage: Stage::Cover,
            sequence: sealed.sequence,
            head: sealed.head,
            vios: replace(&mut self.filling, block.vios),
        }
    }

    /// No block goes round any more: the entries of this one are all committed.
    pub fn rest(&mut self, block: SealedBlock)
        requires { block.vios ≡ [] }
        ensures { self.new ≡ record self.old { busy = false } }
    {
        self.spare = Some(block.vios);
        self.busy = false;
    }

    /// None does, since this one failed.
    pub fn fail(&mut self, block: SealedBlock)
        requires { block.vios ≡ [] }
        ensures { self.new ≡ record self.old { busy = false; broken = true } }
    {
        self.rest(block);
        self.broken = true;
    }

    /// The stop notice has come.
    pub fn hear_stop(&mut self)
        ensures { self.new ≡ record self.old { notified = true } }
    {
        self.notified = true;
    }

    /// The oldest request of the block being filled, which leaves it.
    pub fn pop_filling(&mut self) -> Option<BoxedVio>
        ensures some { IfSome result (λ vio.
            self.old ≡ record self.new { filling = vio ∷ self.new.filling }) }
        ensures none { IfNone result ((self.old.filling ≡ []) × (self.new ≡ self.old)) }
    {
        self.filling.pop()
    }

    /// The oldest that waits, which waits no longer.
    pub fn pop_waiting(&mut self) -> Option<BoxedVio>
        ensures some { IfSome result (λ vio.
            self.old ≡ record self.new { waiting = vio ∷ self.new.waiting }) }
        ensures none { IfNone result ((self.old.waiting ≡ []) × (self.new ≡ self.old)) }
    {
        self.waiting.pop()
    }
}
