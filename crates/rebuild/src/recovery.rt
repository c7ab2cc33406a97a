ghost use Rattle.rebuild.specs.Recoveries.{IsRecovery};

use crate::Recovered;
use crate::unclean::recover_unclean;
use disk_model::Disk;
use image_model::ImageFault;
use image_opening::read_head;
use std::alloc::Global;

// Of a clean image the superblock alone is looked at: what else is wrong is found when it is opened.
/// Closes the image on a device whose last session wasn't closed. Each address keeps its mapping and its value, and each data
/// block its stored count, also where that isn't the number of its mappings; of an image with blocks of its recovery journal
/// from a later time, nothing is said but its answer. `Clean` comes exactly where the superblock says that the session was
/// closed, and then nothing is written; else `Entries` has the length of the window.
///
/// | Step | What is done | Then |
/// |---|---|---|
/// | 1 | the superblock, the recovery journal, each linked page, and of each slab its counters and its journal are read | |
/// | 2 | each page with a slot that the window replaces is read and written with it; each block of counters with a sector that has an update above its commit point is read and written with the stored counts, and with the greatest points applied | a flush |
/// | 3 | block 0: the superblock, with `clean` true and `start` two past the window's last sequence | a flush |
///
/// The image is refused with its first fault, over the whole image, in this order: `Super`, `Window`, `Page`, `Counter`,
/// `SharedPage`. `Device` comes only where a call failed, and then no other is made after it; `Memory` only for want of
/// memory. After a refusal other than `Device` nothing was written.
///
/// Of an honest device on which nothing is pending, and whose image is sound: whatever it answers, and at whatever moment it
/// is stopped, what is left is sound and says the same, and each block but the superblock's, the pages' and the counters'
/// has the bytes that it had. So a second recovery gives the same. An image that isn't sound, but has
/// none of these faults and nothing in its recovery journal from a later time, is left so too: as one that can be recovered.
pub fn recover<D: Disk>(alloc: Global, device: &mut D) -> Result<Recovered, ImageFault>
    ensures { IsRecovery D.trust (D.seen device.old) (D.seen device.new) result }
{
    let head = read_head(device)?;
    // Looked at for the proof alone: it fits 64 bits, so that it is read back.
    let _nonce = head.geometry.nonce;
    if head.clean {
        return Ok(Recovered::Clean);
    }
    let count = recover_unclean(alloc, &head, device)?;
    Ok(Recovered::Entries(count))
}
