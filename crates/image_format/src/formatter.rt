ghost use Rattle.std.specs.Prelude.{◌≡◌, Ok, IfOk, IfErr, IsTrue};
ghost use Rattle.disk_model.specs.Seen.{Stays, Later};
ghost use Rattle.image_layout.specs.PossibleSizes.{plan_of};
ghost use Rattle.image_format.specs.Formats.{FormatFails, LeavesEmpty, StopsAreRight};

use crate::FormatFault;
use crate::calls::make;
use blk_base::{Geometry, Layout};
use disk_model::Disk;
use image_layout::plan;

/// Makes an empty image of these sizes on the device, and gives its layout. Blocks that are no part of it, and its data
/// blocks, aren't written.
///
/// | Step | What is written | Then |
/// |---|---|---|
/// | 1 | block 0: zeros | a flush |
/// | 2 | journal, index, counters and journals of the slabs: zeros; roots: pages without mappings | a flush |
/// | 3 | block 0: the superblock, with `clean` true and `start` 1 | a flush |
///
/// Refused with `Layout` where [`plan`](image_layout::plan) refuses these sizes on a device of so many blocks, and then
/// no call is made; and with `Device` where a call failed. It asks for no memory itself; a block and a page lie on the
/// stack.
///
/// A stop at any moment leaves the device as it was, but for bytes 512 to 4095 of block 0, or no image, or a sound one
/// in which every address is unmapped and every count is 0.
pub fn format<D: Disk>(wanted: &Geometry, device: &mut D) -> Result<Layout, FormatFault>
    ensures planned { IfOk result (λ layout.
        (layout.geometry ≡ wanted.now) × (plan_of wanted.now (D.seen device.old).size ≡ Ok tt)) }
    ensures fault { IfErr result
        (FormatFails D.trust.tells wanted.now (D.seen device.old) (D.seen device.new)) }
    ensures stays { Stays (D.seen device.old) (D.seen device.new) }
    ensures later { Later (D.seen device.old) (D.seen device.new) }

    // Whatever a stop leaves, at each moment since.
    ensures stops { IsTrue D.trust.tells →
        StopsAreRight wanted.now (D.seen device.old) (D.seen device.new) }

    // And afterwards nothing is pending.
    ensures made { IfOk result (λ layout.
        IsTrue D.trust.tells → LeavesEmpty wanted.now (D.seen device.old) (D.seen device.new)) }
{
    // That it fits 64 bits, so that it is read back.
    let _nonce = wanted.nonce;
    let layout = plan(wanted, device.blocks())?;
    make(device, &layout)?;
    Ok(layout)
}
