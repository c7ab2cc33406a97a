ghost use Rattle.std.specs.Prelude.{◌≡◌, ◌<◌, ◌≤◌, ◌^◌, All, IfErr, IfOk, OnOk, length};
ghost use Rattle.blk_base.specs.Counters.{limit_of};
ghost use Rattle.blk_base.specs.Limits.{IsGeometry};
ghost use Rattle.blk_base.specs.Regions.{needed_blocks, data_blocks};
ghost use Rattle.disk_model.specs.Log.{Blocks};
ghost use Rattle.disk_model.specs.Since.{IsUntouched};
ghost use Rattle.journal_window.specs.Windows.{IsWindowOf};
ghost use Rattle.replay_map.specs.Forms.{HasForm};
ghost use Rattle.replay_map.specs.Replayed.{IsMapRead};
ghost use Rattle.audit.specs.Tallies.{used_in};
ghost use Rattle.force_rebuild.specs.Counted.{AreCounters, CountersFail, IsFaultOf, IsLimitFault};
ghost use Rattle.force_rebuild.specs.ForcedRebuild.{CountingFails};

use audit::tally;
use blk_base::{Layout, Super};
use disk_model::Disk;
use image_model::ImageFault;
use journal_window::JournalWindow;
use replay_map::{RecoveredMap, replay_with};
use std::alloc::{AllocError, Global};

/// A block map, and how often it maps each data block.
#[derive(Drop)]
pub(crate) struct CountedMap {
    pub(crate) map: RecoveredMap,
    pub(crate) counters: Vec<u8>,
}

// The block map behind a window, and its counters: these are counted from the map, and no counters or journal of a slab is
// read.
pub(crate) fn count_map<D: Disk>(
    alloc: Global,
    head: &Super,
    window: &JournalWindow,
    device: &mut D,
) -> Result<CountedMap, ImageFault>
    requires sizes { IsGeometry head.now.geometry }
    requires room { needed_blocks head.now.geometry ≤ (D.seen device.old).size }
    requires window { (journal : Blocks) × IsWindowOf head.now journal window.now }
    ensures counters { IfOk result (λ counted.
        AreCounters head.now.geometry counted.map counted.counters.items) }
    ensures map { IfOk result (λ counted.
        IsMapRead D.trust head.now.geometry window.now (D.seen device.old)
        (D.seen device.new) counted.map) }
    ensures form { IfOk result (λ counted.
        HasForm head.now.geometry counted.map.links.items counted.map.slots.items) }
    ensures fault { IfErr result
        (CountingFails D.trust head.now.geometry window.now.entries (D.seen device.old)
        (D.seen device.new)) }
    ensures untouched { IsUntouched D.trust.tells (D.seen device.old) (D.seen device.new) }
{
    let map = replay_with(alloc, head, window, device)?;
    let counters = counters_of(alloc, &Layout::of(&head.geometry), &map)?;
    Ok(CountedMap { map, counters })
}

// How often each data block is mapped, slab after slab, as counters. Refuses the least one that is mapped more often than a
// counter can say.
fn counters_of(alloc: Global, layout: &Layout, map: &RecoveredMap) -> Result<Vec<u8>, ImageFault>
    ensures counters { IfOk result (λ counters.
        AreCounters layout.now.geometry map.now counters.items) }
    ensures refused { IfErr result (CountersFail layout.now.geometry map.now) }
{
    let Ok(mapped) = tally(alloc, layout, &map.links, &map.mapped) else {
        return Err(ImageFault::Memory);
    };
    check_limit(layout, &mapped)?;
    match narrowed(alloc, &mapped) {
        Ok(counters) => Ok(counters),
        Err(_) => Err(ImageFault::Memory),
    }
}

// Refuses the first number above the limit, one for each data block, slab after slab.
fn check_limit(layout: &Layout, mapped: &[u64]) -> Result<(), ImageFault>
    requires { length mapped.now ≡ data_blocks layout.now.geometry }
    ensures all { OnOk result (All (λ count. count ≤ limit_of layout.now.geometry) mapped.now) }
    ensures first { IfErr result (IsLimitFault layout.now.geometry mapped.now) }
{
    for n in 0..layout.data_blocks() {
        let count = mapped[n as usize];
        if count > u64::from(layout.limit()) {
            return Err(limit_fault(layout, n, count));
        }
    }
    Ok(())
}

// The fault of the data block with this number, which is mapped so often.
fn limit_fault(layout: &Layout, n: u32, mapped: u64) -> ImageFault
    requires { n < data_blocks layout.now.geometry }
    ensures { IsFaultOf layout.now.geometry n mapped result }
{
    ImageFault::Counts {
        at: layout.numbered_block(n),
        stored: u32::from(layout.limit()),
        mapped,
    }
}

// The numbers as counters.
// Long to prove: a push may find no memory in each turn.
fn narrowed(alloc: Global, mapped: &[u64]) -> Result<Vec<u8>, AllocError>
    requires { All (λ count. count ≤ 254) mapped.now }
    ensures { IfOk result (λ counters. counters.items ≡ mapped.now) }
{
    let mut counters = Vec::with_capacity(alloc, mapped.len())?;
    for count in mapped {
        counters.push(*count as u8)?;
    }
    Ok(counters)
}

// How many numbers are above 0.
pub(crate) fn count_used(counters: &[u8]) -> u32
    requires { length counters.now < 2 ^ 32 }
    ensures { result ≡ used_in counters.now }
{
    let mut used = 0;
    for count in counters {
        if *count > 0 {
            used += 1;
        }
    }
    used
}
