ghost use Rattle.std.specs.Prelude.{IfOk, IfErr};
ghost use Rattle.disk_model.specs.Since.{IsUntouched};
ghost use Rattle.image_opening.specs.Heads.{HeadFails, IsHeadRead};

use blk_base::{Pbn, Super};
use disk_model::{Disk, read_block};
use image_layout::{SuperFault, read_super};
use image_model::ImageFault;

/// The superblock of the image on a device: one read of block 0, and nothing else.
///
/// Refused with `Super` where [`read_super`](image_layout::read_super) refuses it, and with `NotAnImage`, without a read,
/// where the device has no block; and with `Device` where the read failed.
pub fn read_head<D: Disk>(device: &mut D) -> Result<Super, ImageFault>
    ensures head { IfOk result
        (IsHeadRead D.trust (D.seen device.old) (D.seen device.new)) }
    ensures fault { IfErr result
        (HeadFails D.trust (D.seen device.old) (D.seen device.new)) }
    ensures untouched { IsUntouched D.trust.tells (D.seen device.old) (D.seen device.new) }
{
    let blocks = device.blocks();
    let is_empty = blocks == 0;
    if is_empty {
        return Err(ImageFault::Super(SuperFault::NotAnImage));
    }
    let Ok(block) = read_block(device, Pbn(0)) else {
        return Err(ImageFault::Device);
    };
    match read_super(&block, blocks) {
        Ok(head) => Ok(head),
        Err(fault) => Err(ImageFault::Super(fault)),
    }
}
