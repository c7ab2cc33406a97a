ghost use Rattle.std.specs.Prelude.{◌≡◌, ◌<◌, ◌∷◌, Ok, true, replicate, length, slice_set, IfOk};
ghost use Rattle.blk_base.specs.Sectors.{zero_block};
ghost use Rattle.disk_model.specs.declared.call.Call.TheVariants.{Read, Write, Flush};
ghost use Rattle.disk_model.specs.Images.{IsMixOf};
ghost use Rattle.disk_model.specs.Log.{block_at, settled};
ghost use Rattle.disk_model.specs.Ram.{begun, after_call};

use crate::history::History;
use crate::{Disk, Failed};
use blk_base::{Block, Pbn};
use std::alloc::{AllocError, Global};
use std::marker::Model;
use std::snapshot::Snapshot;

/// A device in memory that keeps no log of its calls: it takes 4 KiB for each block, however many calls there are. Each
/// call succeeds. It tells and is honest, by a log that clauses alone see.
#[derive(Drop)]
pub struct RamDisk {
    blocks: Vec<Block>,
    opening: Snapshot<Vec<Block>>,
    history: History,
}

impl Model for RamDisk {
    ghost use Rattle.disk_model.specs.Memory.{HoldsSettled};
    ghost use Rattle.disk_model.specs.Ram.{Ram};

    ghost Value = { Ram };

    ghost view = { λ d. record {
      opening = d.opening.value.items;
      log = d.history;
      blocks = d.blocks.items;
    } };

    ghost invariant = { λ d. HoldsSettled d.opening.value.items d.history d.blocks.items };
}

impl RamDisk {
    // Long to prove: each way out while what was taken is alive has searches of its own.
    /// A device of so many blocks of zeros. All room is asked for before any block is written.
    pub fn zeroed(alloc: Global, blocks: u32) -> Result<RamDisk, AllocError>
        ensures { IfOk result (λ d. d ≡ begun (replicate blocks zero_block)) }
    {
        let count = blocks as usize;
        let mut zeros = Vec::with_capacity(alloc, count)?;
        for made in 0..count {
            zeros.push_reserved(Block::zero());
        }
        Ok(RamDisk {
            opening: Snapshot::of(&zeros),
            blocks: zeros,
            history: History::new(),
        })
    }

    // A device with more blocks than a u32 counts can't be made: that is answered as want of memory.
    /// A device with these blocks. More than a `u32` can count are refused as too many for any memory.
    pub fn from_blocks(blocks: Vec<Block>) -> Result<RamDisk, AllocError>
        ensures { IfOk result (λ d. d ≡ begun blocks.items) }
    {
        if blocks.len() > u32::MAX as usize {
            return Err(AllocError);
        }
        Ok(RamDisk {
            opening: Snapshot::of(&blocks),
            blocks,
            history: History::new(),
        })
    }
}

impl Disk for RamDisk {
    ghost use Rattle.std.specs.Prelude.{true, refl};
    ghost use Rattle.disk_model.specs.Ram.{ram_seen};
    ghost use Rattle.disk_model.specs.Trust.{trust_of};

    ghost trust = { trust_of true true };

    ghost seen = { ram_seen };

    ghost told = { λ device tells. refl };

    fn blocks(&self) -> u32
        ensures { result ≡ length self.now.opening }
    {
        self.blocks.len() as u32
    }

    fn read(&mut self, at: Pbn, into: &mut Block) -> Result<(), Failed>
        requires { at.0 < length self.old.opening }
        ensures succeeds { result ≡ Ok tt }
        ensures given { IsMixOf (settled self.old.opening self.old.log at.0) into.new }
        ensures bytes { into.new ≡ block_at self.old.blocks at.0 }
        ensures whole { length into.new ≡ 4096 }
        ensures exact { self.new ≡ after_call self.old (Read at into.new true) self.old.blocks }
    {
        into.copy_from(&self.blocks[at.0 as usize]);
        self.history.add_read(at, into);
        Ok(())
    }

    fn write(&mut self, at: Pbn, from: &Block) -> Result<(), Failed>
        requires { at.0 < length self.old.opening }
        ensures succeeds { result ≡ Ok tt }
        ensures exact { self.new ≡ after_call self.old (Write at from.now true)
            (slice_set self.old.blocks at.0 from.now) }
    {
        self.blocks[at.0 as usize].copy_from(from);
        self.history.add_write(at, from);
        Ok(())
    }

    fn flush(&mut self) -> Result<(), Failed>
        ensures succeeds { result ≡ Ok tt }
        ensures exact { self.new ≡ after_call self.old (Flush true) self.old.blocks }
    {
        self.history.add_flush();
        Ok(())
    }
}
