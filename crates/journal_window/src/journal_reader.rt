ghost use Rattle.std.specs.Prelude.{◌≤◌, ◌<◌, ◌^◌, IfOk, IfErr};
ghost use Rattle.blk_base.specs.Limits.{IsGeometry};
ghost use Rattle.blk_base.specs.Regions.{needed_blocks};
ghost use Rattle.disk_model.specs.Since.{IsUntouched};
ghost use Rattle.journal_window.specs.Reads.{IsJournalRead, IsWindowRead, JournalFails, Fails};

use crate::{JournalWindow, window_of};
use blk_base::{Block, Layout, Super};
use disk_model::{BlocksFault, Disk, read_blocks};
use image_model::ImageFault;
use std::alloc::Global;

/// Reads the window of an image's recovery journal: one read of each of the journal's blocks, in the order of their
/// slots, and nothing else. `head` is the image's superblock, and the device has the blocks that its sizes need.
///
/// Refused as `window_of` says; with `Device` where a read failed; and with `Memory` only for want of memory, which is
/// taken for the journal's blocks and the window's entries.
pub fn read_window<D: Disk>(
    alloc: Global,
    head: &Super,
    device: &mut D,
) -> Result<JournalWindow, ImageFault>
    requires sizes { IsGeometry head.now.geometry }
    requires some { 1 ≤ head.now.start }
    requires below { head.now.start < 2 ^ 54 }
    requires room { needed_blocks head.now.geometry ≤ (D.seen device.old).size }
    ensures window { IfOk result
        (IsWindowRead D.trust (D.seen device.old) (D.seen device.new) head.now) }
    ensures fault { IfErr result
        (Fails D.trust (D.seen device.old) (D.seen device.new) head.now) }
    ensures untouched { IsUntouched D.trust.tells (D.seen device.old) (D.seen device.new) }
{
    let layout = Layout::of(&head.geometry);
    let journal = read_journal(alloc, device, &layout)?;
    window_of(alloc, head, journal.as_slice())
}

// Reads the blocks of the recovery journal.
// All blocks, also those behind the window: which these are is known only then. They are kept until the window is
// found.
fn read_journal<D: Disk>(
    alloc: Global,
    device: &mut D,
    layout: &Layout,
) -> Result<Vec<Block>, ImageFault>
    requires room { needed_blocks layout.now.geometry ≤ (D.seen device.old).size }
    ensures read { IfOk result (λ journal.
        IsJournalRead D.trust (D.seen device.old)
        (D.seen device.new) layout.now.geometry journal.items) }
    ensures fault { IfErr result
        (JournalFails D.trust (D.seen device.old)
        (D.seen device.new) layout.now.geometry) }
    ensures untouched { IsUntouched D.trust.tells (D.seen device.old) (D.seen device.new) }
{
    let first = layout.journal_slot(0);
    match read_blocks(alloc, device, first, layout.geometry.journal) {
        Ok(journal) => Ok(journal),
        Err(BlocksFault::Device) => Err(ImageFault::Device),
        Err(BlocksFault::Memory) => Err(ImageFault::Memory),
    }
}
