ghost use Rattle.std.specs.Prelude.{◌≤◌, ◌<◌, ◌^◌, IfOk, IfErr};
ghost use Rattle.blk_base.specs.Limits.{IsGeometry};
ghost use Rattle.blk_base.specs.Regions.{needed_blocks};
ghost use Rattle.disk_model.specs.Since.{IsUntouched};
ghost use Rattle.replay_counts.specs.Recovered.{AreCountsOf, CountingFails};

use crate::{RecoveredCounts, counts_with};
use blk_base::Super;
use disk_model::Disk;
use image_model::ImageFault;
use journal_window::read_window;
use std::alloc::Global;

/// The counts of the image with this superblock: one read of each block of the recovery journal, of each reference block
/// and of each block of a slab's journal, and nothing else. The device has the blocks that the image's sizes need.
///
/// Refused as the window of the journal is, and then as `counts_with` is.
pub fn counts<D: Disk>(
    alloc: Global,
    head: &Super,
    device: &mut D,
) -> Result<RecoveredCounts, ImageFault>
    requires sizes { IsGeometry head.now.geometry }
    requires some { 1 ≤ head.now.start }
    requires below { head.now.start < 2 ^ 54 }
    requires room { needed_blocks head.now.geometry ≤ (D.seen device.old).size }
    ensures counts { IfOk result (λ counts.
        AreCountsOf D.trust head.now (D.seen device.old) (D.seen device.new)
        counts.counts.items counts.sectors.items) }
    ensures fault { IfErr result
        (CountingFails D.trust head.now (D.seen device.old) (D.seen device.new)) }
    ensures untouched { IsUntouched D.trust.tells (D.seen device.old) (D.seen device.new) }
{
    let window = read_window(alloc, head, device)?;
    match counts_with(alloc, head, window.entries(), device) {
        Ok(counts) => Ok(counts),
        Err(fault) => Err(fault),
    }
}
