ghost use Rattle.std.specs.Prelude.{◌≡◌, ◌++◌, ◌+◌, ◌*◌, ◌<◌, ◌≤◌, ◌^◌, ℕ, length, slice_index, IfOk, OnOk};
ghost use Rattle.std.specs.Bool.{OnTrue};
ghost use Rattle.blk_base.specs.Regions.{data_blocks};
ghost use Rattle.audit.specs.Tallies.{IsSplit, difference_in, differences_below, number_in, used_in};

use crate::tallies::MappingCounts;
use crate::{Difference, Report};
use blk_base::Layout;
use std::alloc::{AllocError, Global};

// Where the stored counts aren't the tallied numbers, and how many of them are above 0. It looks at a slab's data blocks
// one by one only where some differ.
pub(crate) fn compare(
    alloc: Global,
    layout: &Layout,
    stored: &[u16],
    mapped: &MappingCounts,
) -> Result<Report, AllocError>
    requires stored { length stored.now ≡ data_blocks layout.now.geometry }
    requires mapped { length mapped.now.low.items ≡ data_blocks layout.now.geometry }
    requires few { (n : ℕ) → n < data_blocks layout.now.geometry → number_in mapped.now n < 2 ^ 64 }
    requires split { IsSplit mapped.now }
    ensures differs { IfOk result (λ report.
        report.differs.items
        ≡ differences_below layout.now.geometry stored.now (number_in mapped.now)
        (data_blocks layout.now.geometry)) }
    ensures used { IfOk result (λ report. report.used ≡ used_in stored.now) }
    ensures total { IfOk result (λ report. report.total ≡ data_blocks layout.now.geometry) }
    ensures few { IfOk result (λ report. length report.differs.items < 2 ^ 32) }
{
    let used = count_used(stored);
    let total = layout.data_blocks();
    let mut differs = Vec::new(alloc);
    for slab in 0..layout.geometry.slabs {
        push_slab(&mut differs, layout, stored, mapped, slab)?;
    }
    Ok(Report {
        differs,
        used,
        total,
    })
}

// Adds the data blocks of a slab whose numbers differ, behind those of the slabs before it.
fn push_slab(
    differs: &mut Vec<Difference>,
    layout: &Layout,
    stored: &[u16],
    mapped: &MappingCounts,
    slab: u32,
) -> Result<(), AllocError>
    requires inside { slab < layout.now.geometry.slabs }
    requires stored { length stored.now ≡ data_blocks layout.now.geometry }
    requires mapped { length mapped.now.low.items ≡ data_blocks layout.now.geometry }
    requires few { (n : ℕ) → n < data_blocks layout.now.geometry → number_in mapped.now n < 2 ^ 64 }
    requires split { IsSplit mapped.now }
    requires before { differs.old.items
        ≡ differences_below layout.now.geometry stored.now (number_in mapped.now)
        (slab * layout.now.geometry.slab_blocks) }
    ensures { OnOk result
        (differs.new.items
        ≡ differences_below layout.now.geometry stored.now (number_in mapped.now)
        (slab * layout.now.geometry.slab_blocks + layout.now.geometry.slab_blocks)) }
{
    let size = layout.geometry.slab_blocks;
    if are_same(
        stored,
        &mapped.low,
        layout.block_number(slab, 0) as usize,
        size as usize,
    ) {
        return Ok(());
    }
    for offset in 0..size {
        push_difference(
            differs,
            layout,
            stored,
            mapped,
            layout.block_number(slab, offset),
        )?;
    }
    Ok(())
}

// Whether so many counts from this one on are these bytes, none of which is the greatest. It goes over all of them, so that
// many are compared at once.
fn are_same(stored: &[u16], low: &[u8], first: usize, count: usize) -> bool
    requires stored { first + count ≤ length stored.now }
    requires low { first + count ≤ length low.now }
    ensures { OnTrue result ((k : ℕ) → k < count →
        (slice_index stored.now (first + k) ≡ slice_index low.now (first + k))
        × (slice_index low.now (first + k) < 255)) }
{
    let stored = &stored[first..first + count];
    let low = &low[first..first + count];
    are_bytes(stored, low)
}

// Whether the counts are these bytes, none of which is the greatest.
fn are_bytes(stored: &[u16], low: &[u8]) -> bool
    requires { length stored.now ≡ length low.now }
    ensures { OnTrue result ((k : ℕ) → k < length low.now →
        (slice_index stored.now k ≡ slice_index low.now k) × (slice_index low.now k < 255)) }
{
    let mut others = 0_usize;
    for (k, byte) in low.iter().enumerate() {
        if stored[k] != u16::from(*byte) || *byte == u8::MAX {
            others += 1;
        }
    }
    others == 0
}

// Adds the data block with this number, if its numbers differ.
fn push_difference(
    differs: &mut Vec<Difference>,
    layout: &Layout,
    stored: &[u16],
    mapped: &MappingCounts,
    n: u32,
) -> Result<(), AllocError>
    requires inside { n < data_blocks layout.now.geometry }
    requires stored { length stored.now ≡ data_blocks layout.now.geometry }
    requires mapped { length mapped.now.low.items ≡ data_blocks layout.now.geometry }
    requires few { number_in mapped.now n < 2 ^ 64 }
    ensures { OnOk result
        (differs.new.items ≡ differs.old.items
        ++ difference_in layout.now.geometry stored.now (number_in mapped.now) n) }
{
    let count = u32::from(stored[n as usize]);
    let mappings = mapped.of(n);
    if u64::from(count) != mappings {
        differs.push(Difference {
            at: layout.numbered_block(n),
            stored: count,
            mapped: mappings,
        })?;
    }
    Ok(())
}

/// How many counts are above 0: how many data blocks are used, of which these are the stored counts.
pub fn count_used(stored: &[u16]) -> u32
    requires { length stored.now < 2 ^ 32 }
    ensures { result ≡ used_in stored.now }
{
    let mut used = 0;
    for count in stored {
        if *count > 0 {
            used += 1;
        }
    }
    used
}
