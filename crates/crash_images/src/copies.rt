ghost use Rattle.std.specs.Prelude.{IfOk, IfErr};
ghost use Rattle.disk_model.specs.Memory.{seen_of};
ghost use Rattle.disk_model.specs.Since.{IsUntouched, OfDevice, StopsBefore};
ghost use Rattle.crash_images.specs.Copies.{IsCopy, KeepsImage};

use blk_base::Pbn;
use disk_model::{BlocksFault, Disk, MemDisk, read_blocks};
use std::alloc::Global;

/// A device in memory with the blocks of this one, whose log begins there. Each block is read once, in rising order, and
/// nothing is written. It takes the memory of the device's blocks twice.
///
/// `Device` where a read failed, which is the last call then; `Memory` only for want of memory.
pub fn copy_of<D: Disk>(alloc: Global, device: &mut D) -> Result<MemDisk, BlocksFault>
    ensures copy { IfOk result
        (IsCopy D.trust (D.seen device.old) (D.seen device.new)) }
    ensures image { IfOk result (λ copy.
        KeepsImage D.trust (D.seen device.old) (seen_of copy)) }
    ensures fault { IfErr result
        (OfDevice
        (StopsBefore D.trust 0 (D.seen device.old).size (D.seen device.old)
        (D.seen device.new))) }
    ensures untouched { IsUntouched D.trust.tells (D.seen device.old) (D.seen device.new) }
{
    let count = device.blocks();
    let blocks = read_blocks(alloc, device, Pbn(0), count)?;
    match MemDisk::from_blocks(alloc, blocks) {
        Ok(copy) => Ok(copy),
        Err(_) => Err(BlocksFault::Memory),
    }
}
