ghost use Rattle.std.specs.Prelude.{◌≡◌, ◌≤◌, ◌<◌, ◌+◌, ◌∷◌, [], IfOk, IfErr, OnErr, length, reverse};
ghost use Rattle.disk_model.specs.Since.{IsUntouched, WereRead, NextFailed, StopsBefore, OfDevice};

use crate::{Disk, Failed};
use blk_base::{Block, Pbn};
use std::alloc::Global;

/// Why the blocks of a device weren't read.
#[derive(Clone, Copy, PartialEq, Eq)]
pub enum BlocksFault {
    /// A read failed.
    Device,
    /// There is no memory for them.
    Memory,
}

/// Reads one block, by one call. `Failed` where that fails.
pub fn read_block<D: Disk>(device: &mut D, at: Pbn) -> Result<Block, Failed>
    requires { at.0 < (D.seen device.old).size }
    ensures read { IfOk result (λ block.
        WereRead D.trust at.0 (D.seen device.old) (D.seen device.new) (block ∷ [])) }
    ensures failed { OnErr result
        (NextFailed D.trust at.0 (D.seen device.old) (D.seen device.new) []) }
    ensures untouched { IsUntouched D.trust.tells (D.seen device.old) (D.seen device.new) }
{
    let mut block = Block::zero();
    let Ok(()) = device.read(at, &mut block) else {
        return Err(Failed);
    };
    Ok(block)
}

/// Reads so many blocks from this one on, each by one call, in rising order.
///
/// `Device` where a read failed, which is the last call then; `Memory` only for want of memory, which is taken for the
/// blocks as they come.
pub fn read_blocks<D: Disk>(
    alloc: Global,
    device: &mut D,
    first: Pbn,
    count: u32,
) -> Result<Vec<Block>, BlocksFault>
    requires { first.0 + count ≤ (D.seen device.old).size }
    ensures count { IfOk result (λ blocks. length blocks.items ≡ count) }
    ensures read { IfOk result (λ blocks.
        WereRead D.trust first.0 (D.seen device.old) (D.seen device.new)
        (reverse blocks.items)) }
    ensures fault { IfErr result
        (OfDevice
        (StopsBefore D.trust first.0 count (D.seen device.old) (D.seen device.new))) }
    ensures untouched { IsUntouched D.trust.tells (D.seen device.old) (D.seen device.new) }
{
    // Asked for the proof alone: the numbers of the blocks fit their type.
    let _size = device.blocks();
    let mut blocks = Vec::new(alloc);
    for i in 0..count {
        let Ok(block) = read_block(device, Pbn(first.0 + i)) else {
            return Err(BlocksFault::Device);
        };
        let Ok(()) = blocks.push(block) else {
            return Err(BlocksFault::Memory);
        };
    }
    Ok(blocks)
}
