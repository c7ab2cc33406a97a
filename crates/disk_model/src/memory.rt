ghost use Rattle.std.specs.Prelude.{◌≡◌, ◌<◌, ◌≤◌, ◌^◌, ◌++◌, [], ◌∷◌, true, false, reverse, replicate, length, slice_set, IfOk, OnOk, OnErr};
ghost use Rattle.std.specs.Bool.{OnTrue, OnFalse};
ghost use Rattle.blk_base.specs.Sectors.{zero_block};
ghost use Rattle.disk_model.specs.declared.call.Call.TheVariants.{Read, Write, Flush};
ghost use Rattle.disk_model.specs.Causes.{Rose, HasCause};
ghost use Rattle.disk_model.specs.Fuses.{burnt, HasNotCut};
ghost use Rattle.disk_model.specs.Images.{IsMixOf};
ghost use Rattle.disk_model.specs.Log.{Blocks, block_at, settled};
ghost use Rattle.disk_model.specs.Memory.{fresh, after_failed_write, seen_of, Succeeds, Fails};
ghost use Rattle.disk_model.specs.Picks.{IsPicked, counted_log};
ghost use Rattle.disk_model.specs.Ram.{begun};
ghost use Rattle.disk_model.specs.Seen.{Stays};
ghost use Rattle.disk_model.specs.LogSteps.{FailedInLog};

use crate::faults::take_course;
use crate::picks::{counted, pick_blocks};
use crate::{Call, CallKind, Disk, Failed, FaultAt, Fuse, RamDisk};
use blk_base::{Block, Pbn};
use std::alloc::{AllocError, Global};
use std::marker::Model;

/// A device in memory, which tells and is honest. A call fails exactly where a planned fault names it, where its fuse is
/// spent, or where it finds no memory for its place in the log. In the last two cases it has no effect.
#[derive(Drop)]
pub struct MemDisk {
    opening: Vec<Block>,
    blocks: Vec<Block>,
    calls: Vec<Call>,
    plan: Vec<FaultAt>,
    fuse: Fuse,
    faults: u64,
    unkept: u64,
}

impl Model for MemDisk {
    ghost use Rattle.std.specs.Prelude.{reverse};
    ghost use Rattle.disk_model.specs.Memory.{Memory, HoldsSettled};

    ghost Value = { Memory };

    ghost view = { λ d. record {
      opening = d.opening.items;
      log = reverse d.calls.items;
      blocks = d.blocks.items;
      plan = d.plan.items;
      fuse = d.fuse;
      faults = d.faults;
      unkept = d.unkept;
    } };

    ghost invariant = { λ d. HoldsSettled d.opening.items (reverse d.calls.items) d.blocks.items };
}

// The same blocks once more.
pub(crate) fn copy_all(alloc: Global, blocks: &[Block]) -> Result<Vec<Block>, AllocError>
    ensures { IfOk result (λ v. v.items ≡ blocks.now) }
{
    let mut copies = Vec::with_capacity(alloc, blocks.len())?;
    for block in blocks {
        let mut copy = Block::zero();
        copy.copy_from(block);
        copies.push_reserved(copy);
    }
    Ok(copies)
}

// Adds a call to the log, where there is memory for it, and counts it for the fuse.
fn keep(calls: &mut Vec<Call>, fuse: &mut Fuse, call: Call) -> bool
    ensures kept { OnTrue result (calls.new.items ≡ calls.old.items ++ call ∷ []) }
    ensures not { OnFalse result (calls.new.items ≡ calls.old.items) }
    ensures burnt { fuse.new ≡ burnt fuse.old (reverse calls.new.items) }
{
    let kept = push(calls, call);
    *fuse = fuse.burnt(calls);
    kept
}

fn push(calls: &mut Vec<Call>, call: Call) -> bool
    ensures kept { OnTrue result (calls.new.items ≡ calls.old.items ++ call ∷ []) }
    ensures not { OnFalse result (calls.new.items ≡ calls.old.items) }
{
    match calls.push(call) {
        Ok(()) => true,
        Err(_) => false,
    }
}

impl MemDisk {
    // Long to prove: each way out while what was taken is alive has searches of its own.
    /// A device of so many blocks of zeros. All room is asked for before any block is written.
    pub fn zeroed(alloc: Global, blocks: u32) -> Result<MemDisk, AllocError>
        ensures { IfOk result (λ d. d ≡ fresh (replicate blocks zero_block)) }
    {
        let count = blocks as usize;
        let mut opening = Vec::with_capacity(alloc, count)?;
        let mut zeros = Vec::with_capacity(alloc, count)?;
        for made in 0..count {
            opening.push_reserved(Block::zero());
            zeros.push_reserved(Block::zero());
        }
        Ok(MemDisk::begun(alloc, opening, zeros))
    }

    // A device with more blocks than a u32 counts can't be made: that is answered as want of memory.
    /// A device with these blocks. More than a `u32` can count are refused as too many for any memory.
    pub fn from_blocks(alloc: Global, blocks: Vec<Block>) -> Result<MemDisk, AllocError>
        ensures { IfOk result (λ d. d ≡ fresh blocks.items) }
    {
        if blocks.len() > u32::MAX as usize {
            return Err(AllocError);
        }
        let opening = copy_all(alloc, &blocks)?;
        Ok(MemDisk::begun(alloc, opening, blocks))
    }

    // A device with these blocks, which has not been called yet.
    fn begun(alloc: Global, opening: Vec<Block>, blocks: Vec<Block>) -> MemDisk
        requires few { length blocks.items < 2 ^ 32 }
        requires same { opening.items ≡ blocks.items }
        ensures { result ≡ fresh blocks.items }
    {
        MemDisk {
            opening,
            blocks,
            calls: Vec::new(alloc),
            plan: Vec::new(alloc),
            fuse: Fuse::Unset,
            faults: 0,
            unkept: 0,
        }
    }

    /// Plans these faults, in place of those that were planned. Their numbers count from this call on.
    pub fn set_faults(&mut self, faults: Vec<FaultAt>)
        ensures { self.new ≡ record self.old { plan = faults.items } }
    {
        self.plan = faults;
    }

    // A call that finds no memory for its place in the log counts too. Once the fuse is spent no call has an effect,
    // also one that a planned fault would let have its effect.
    /// Sets a fuse: the next `passes` calls go on, and every later call fails. No call of this device has failed by a fuse
    /// before.
    pub fn set_fuse(&mut self, passes: u64)
        requires { HasNotCut self.old.fuse }
        ensures { self.new ≡ record self.old { fuse = Fuse.Passes passes } }
    {
        self.fuse = Fuse::Passes(passes);
    }

    /// A device with the image that a number picks of those that a stop may leave now. Of the calls that failed by the fuse
    /// the first alone counts.
    ///
    /// A sector's durable content is what the last successful write before the last successful flush gave it. 0 picks the
    /// durable ones, 1 for each sector the last write since that flush, failed or not. Any other number begins a row of
    /// numbers, one for each sector of the blocks that were written since: each picks one of the durable content and
    /// the writes. It goes through the log twice, and nine times through the calls behind that flush for each block that
    /// they write.
    pub fn pick_image(&self, alloc: Global, number: u64) -> Result<MemDisk, AllocError>
        ensures { IfOk result (λ d. (image : Blocks) × (d ≡ fresh image)
            × IsPicked self.now.opening (counted_log self.now.fuse self.now.log) number image) }
    {
        MemDisk::from_blocks(alloc, self.picked(alloc, number)?)
    }

    /// As [`MemDisk::pick_image`], on a device that keeps no log of its calls: it takes less memory, and no call fails.
    pub fn pick_ram(&self, alloc: Global, number: u64) -> Result<RamDisk, AllocError>
        ensures { IfOk result (λ d. (image : Blocks) × (d ≡ begun image)
            × IsPicked self.now.opening (counted_log self.now.fuse self.now.log) number image) }
    {
        RamDisk::from_blocks(self.picked(alloc, number)?)
    }

    // The blocks of the image that a number picks.
    fn picked(&self, alloc: Global, number: u64) -> Result<Vec<Block>, AllocError>
        ensures { IfOk result (λ image. IsPicked self.now.opening
            (counted_log self.now.fuse self.now.log) number image.items) }
    {
        pick_blocks(
            alloc,
            counted(&self.calls, self.fuse),
            &self.opening,
            number,
        )
    }

    /// The calls that found memory for their place in the log, the oldest first.
    pub fn calls(&self) -> &[Call]
        ensures { self.now.log ≡ reverse result.now }
    {
        &self.calls
    }

    /// How many calls found no memory for their place in the log.
    pub fn unkept(&self) -> u64
        ensures { result ≡ self.now.unkept }
    {
        self.unkept
    }
}

impl Disk for MemDisk {
    ghost use Rattle.std.specs.Prelude.{true, refl};
    ghost use Rattle.disk_model.specs.Memory.{seen_of};
    ghost use Rattle.disk_model.specs.Trust.{trust_of};

    ghost trust = { trust_of true true };

    ghost seen = { seen_of };

    ghost told = { λ device tells. refl };

    fn blocks(&self) -> u32
        ensures { result ≡ length self.now.opening }
    {
        self.opening.len() as u32
    }

    // Long to prove: each clause is shown on each way out.
    fn read(&mut self, at: Pbn, into: &mut Block) -> Result<(), Failed>
        requires { at.0 < length self.old.opening }
        ensures stays { Stays (seen_of self.old) (seen_of self.new) }
        ensures given { OnOk result
            (IsMixOf (settled self.old.opening self.old.log at.0) into.new) }
        ensures whole { OnOk result (length into.new ≡ 4096) }
        ensures ok { OnOk result (self.new.log ≡ Read at into.new true ∷ self.old.log) }
        ensures err { OnErr result (FailedInLog self.old.log self.new.log (Read at into.new false)
            (Rose self.old.unkept self.new.unkept)) }
        ensures cause { HasCause self.old.faults self.new.faults result }
        ensures unkept { self.old.unkept ≤ self.new.unkept }
        ensures all_kept { OnOk result (self.new.unkept ≡ self.old.unkept) }

        // The exact effect. A read that failed leaves `into` as it was.
        ensures into { OnErr result (into.new ≡ into.old) }
        ensures bytes { OnOk result (into.new ≡ block_at self.old.blocks at.0) }
        ensures exact_ok { OnOk result
            (Succeeds self.old self.new (Read at into.new true) self.old.blocks) }
        ensures exact_err { OnErr result
            (Fails self.old self.new (Read at into.new false) self.old.blocks) }
    {
        let course = take_course(&mut self.plan, self.fuse, CallKind::Read, at);
        let ok = !course.fails;
        let mut bytes = Block::zero();
        bytes.copy_from(if ok {
            &self.blocks[at.0 as usize]
        } else {
            into
        });
        if !keep(
            &mut self.calls,
            &mut self.fuse,
            Call::Read { at, bytes, ok },
        ) {
            self.unkept = self.unkept.saturating_add(1);
            self.faults = self.faults.saturating_add(1);
            return Err(Failed);
        }
        if course.fails {
            self.faults = self.faults.saturating_add(1);
            return Err(Failed);
        }
        into.copy_from(&self.blocks[at.0 as usize]);
        Ok(())
    }

    // Long to prove: each clause is shown on each way out.
    fn write(&mut self, at: Pbn, from: &Block) -> Result<(), Failed>
        requires { at.0 < length self.old.opening }
        ensures stays { Stays (seen_of self.old) (seen_of self.new) }
        ensures ok { OnOk result (self.new.log ≡ Write at from.now true ∷ self.old.log) }
        ensures err { OnErr result (FailedInLog self.old.log self.new.log (Write at from.now false)
            (Rose self.old.unkept self.new.unkept)) }
        ensures cause { HasCause self.old.faults self.new.faults result }
        ensures unkept { self.old.unkept ≤ self.new.unkept }
        ensures all_kept { OnOk result (self.new.unkept ≡ self.old.unkept) }

        // The exact effect.
        ensures exact_ok { OnOk result (Succeeds self.old self.new (Write at from.now true)
            (slice_set self.old.blocks at.0 from.now)) }
        ensures exact_err { OnErr result (Fails self.old self.new (Write at from.now false)
            (after_failed_write self.old at.0 from.now)) }
    {
        let course = take_course(&mut self.plan, self.fuse, CallKind::Write, at);
        let mut bytes = Block::zero();
        bytes.copy_from(from);
        let ok = !course.fails;
        if !keep(
            &mut self.calls,
            &mut self.fuse,
            Call::Write { at, bytes, ok },
        ) {
            self.unkept = self.unkept.saturating_add(1);
            self.faults = self.faults.saturating_add(1);
            return Err(Failed);
        }
        if ok {
            self.blocks[at.0 as usize].copy_from(from);
            return Ok(());
        }
        if course.effect {
            self.blocks[at.0 as usize].copy_from(from);
        }
        self.faults = self.faults.saturating_add(1);
        Err(Failed)
    }

    fn flush(&mut self) -> Result<(), Failed>
        ensures stays { Stays (seen_of self.old) (seen_of self.new) }
        ensures ok { OnOk result (self.new.log ≡ Flush true ∷ self.old.log) }
        ensures err { OnErr result (FailedInLog self.old.log self.new.log (Flush false)
            (Rose self.old.unkept self.new.unkept)) }
        ensures cause { HasCause self.old.faults self.new.faults result }
        ensures unkept { self.old.unkept ≤ self.new.unkept }
        ensures all_kept { OnOk result (self.new.unkept ≡ self.old.unkept) }

        // The exact effect.
        ensures exact_ok { OnOk result (Succeeds self.old self.new (Flush true) self.old.blocks) }
        ensures exact_err { OnErr result (Fails self.old self.new (Flush false) self.old.blocks) }
    {
        let course = take_course(&mut self.plan, self.fuse, CallKind::Flush, Pbn(0));
        let ok = !course.fails;
        if !keep(&mut self.calls, &mut self.fuse, Call::Flush { ok }) {
            self.unkept = self.unkept.saturating_add(1);
            self.faults = self.faults.saturating_add(1);
            return Err(Failed);
        }
        if course.fails {
            self.faults = self.faults.saturating_add(1);
            return Err(Failed);
        }
        Ok(())
    }
}
