ghost use Rattle.std.specs.Prelude.{◌≡◌, ◌+◌, ◌<◌, ◌≤◌, ◌++◌, ℕ, List, ◌∷◌, Ok, Err, IfOk, IfErr, IfSome, IfNone, OnOk, length, get_or, slice_index};
ghost use Rattle.std.specs.Bool.{OnTrue};
ghost use Rattle.blk_base.specs.declared.journal_entry.Update.{Update};
ghost use Rattle.blk_base.specs.Regions.{data_blocks};
ghost use Rattle.image_model.specs.Counts.{block_of_data, count_after};
ghost use Rattle.image_model.specs.Sound.{IsDataPlace};
ghost use Rattle.count_updates.specs.Counted.{AreCounted, AreCountedUpTo, IsCountedAt, IsCountRefusal};
ghost use Rattle.count_updates.specs.FoundLists.{found_lists, lists_of};
ghost use Rattle.count_updates.specs.Listed.{AreInOrder, IsCounted, IsPassed};
ghost use Rattle.count_updates.specs.Numbers.{all_sectors};

use crate::{CountFault, Found};
use blk_base::{DataPlace, Half, Layout, Pbn, Point, Update};
use std::alloc::Global;

/// How many counters are taken over at once.
const PART: usize = 2048;

// In the order of points, since only so it is said where a count leaves its range; that it is the sum is a law.
// Long to prove: each way out while what was taken is alive has searches of its own.
/// The count of each data block, slab after slab: its counter, and then its updates above the commit point of its
/// counter's sector, each once, in the order of their points. It goes through the updates once.
pub fn counts_of(alloc: Global, layout: &Layout, found: &Found) -> Result<Vec<u16>, CountFault>
    requires counters { length found.now.counters.items ≡ data_blocks layout.now.geometry }
    requires commits { length found.now.commits.items ≡ all_sectors layout.now.geometry }
    requires order { AreInOrder found.now.updates.items }
    ensures counts { IfOk result (λ counts.
        AreCounted layout.now.geometry (lists_of found.now) counts.items) }
    ensures refused { IfErr result
        (IsCountRefusal layout.now.geometry (lists_of found.now)) }
{
    let Ok(mut counts) = Vec::with_capacity(alloc, found.counters.len()) else {
        return Err(CountFault::Memory);
    };
    let mut passed = 0;
    for slab in 0..layout.geometry.slabs {
        passed = count_slab(layout, slab, found, passed, &mut counts)?;
    }
    Ok(counts)
}

// A slab without updates takes its counters over.
// Adds the counts of a slab; the updates before `passed` are of earlier slabs. How many are of this one and of those
// before it.
fn count_slab(
    layout: &Layout,
    slab: u32,
    found: &Found,
    passed: usize,
    counts: &mut Vec<u16>,
) -> Result<usize, CountFault>
    requires inside { slab < layout.now.geometry.slabs }
    requires counters { length found.now.counters.items ≡ data_blocks layout.now.geometry }
    requires commits { length found.now.commits.items ≡ all_sectors layout.now.geometry }
    requires order { AreInOrder found.now.updates.items }
    requires before { IsPassed found.now.updates.items passed
        (block_of_data layout.now.geometry (record { slab = slab; offset = 0 })).0 }
    requires counted { AreCountedUpTo layout.now.geometry (lists_of found.now) slab 0
        counts.old.items }
    ensures passed { IfOk result (λ after.
        (block : ℕ) →
        (block_of_data layout.now.geometry
        (record { slab = slab; offset = layout.now.geometry.slab_blocks })).0 ≤ block
        → IsPassed found.now.updates.items after block) }
    ensures counted { OnOk result
        (AreCountedUpTo layout.now.geometry (lists_of found.now) (slab + 1) 0 counts.new.items) }
    ensures refused { IfErr result
        (IsCountRefusal layout.now.geometry (lists_of found.now)) }
{
    let all = found.updates.as_slice();
    let size = layout.geometry.slab_blocks;
    let first = layout.block_number(slab, 0) as usize;
    let counters = &found.counters[first..first + size as usize];
    let last = layout.data_block(slab, size - 1);
    if end_of_block(all, passed, last) == passed && are_within(counters, layout.limit()) {
        push_all(counters, counts)?;
        return Ok(passed);
    }
    let mut next = passed;
    for offset in 0..layout.geometry.slab_blocks {
        let at = layout.data_block(slab, offset);
        let end = end_of_block(all, next, at);
        let place = DataPlace { slab, offset };
        match count_of(layout, place, found, &all[next..end]) {
            Ok(count) => {
                let Ok(()) = counts.push(count) else {
                    return Err(CountFault::Memory);
                };
            }
            Err(point) => return Err(CountFault::Counter { at, point }),
        }
        next = end;
    }
    Ok(next)
}

// Whether no counter is above the limit. It goes over all of them, so that many are compared at once.
fn are_within(counters: &[u8], limit: u16) -> bool
    ensures { OnTrue result ((k : ℕ) →
        k < length counters.now → slice_index counters.now k ≤ limit) }
{
    let mut greatest = 0;
    for counter in counters {
        greatest = greatest.max(*counter);
    }
    u16::from(greatest) <= limit
}

// Adds the counters as counts.
fn push_all(counters: &[u8], counts: &mut Vec<u16>) -> Result<(), CountFault>
    ensures added { OnOk result (counts.new.items ≡ counts.old.items ++ counters.now) }
    ensures memory { IfErr result (λ fault. fault ≡ CountFault.Memory) }
{
    let parts = counters.len() / PART;
    for part in 0..parts {
        push_part(&counters[part * PART..part * PART + PART], counts)?;
    }
    push_part(&counters[parts * PART..], counts)
}

// Adds a part of them.
fn push_part(counters: &[u8], counts: &mut Vec<u16>) -> Result<(), CountFault>
    requires { length counters.now ≤ PART }
    ensures added { OnOk result (counts.new.items ≡ counts.old.items ++ counters.now) }
    ensures memory { IfErr result (λ fault. fault ≡ CountFault.Memory) }
{
    let mut wide = [0; PART];
    let part = &mut wide[..counters.len()];
    widen(counters, part);
    let Ok(()) = counts.extend_from_slice(part) else {
        return Err(CountFault::Memory);
    };
    Ok(())
}

// Puts bytes into as many numbers of 16 bits. Many are put at once, since nothing ends it early.
fn widen(bytes: &[u8], wide: &mut [u16])
    requires { length wide.old ≡ length bytes.now }
    ensures { wide.new ≡ bytes.now }
{
    for (k, byte) in bytes.iter().enumerate() {
        wide[k] = u16::from(*byte);
    }
}

// The end of the updates of blocks up to this one, from a place on.
fn end_of_block(updates: &[Update], from: usize, at: Pbn) -> usize
    requires { from ≤ length updates.now }
    ensures within { (from ≤ result) × (result ≤ length updates.now) }
    ensures passed { (k : ℕ) (d : Update) → from ≤ k → k < result →
        (get_or updates.now k d).at.0 ≤ at.0 }
    ensures ended { (d : Update) → result < length updates.now →
        at.0 < (get_or updates.now result d).at.0 }
{
    for i in from..updates.len() {
        if updates[i].at.0 > at.0 {
            return i;
        }
    }
    updates.len()
}

// Most blocks have no updates, and then nothing is asked of their sector.
// The count of a data block; `updates` has all of its updates, and may have others.
fn count_of(
    layout: &Layout,
    place: DataPlace,
    found: &Found,
    updates: &[Update],
) -> Result<u16, Point>
    requires inside { IsDataPlace layout.now.geometry place }
    requires counters { length found.now.counters.items ≡ data_blocks layout.now.geometry }
    requires commits { length found.now.commits.items ≡ all_sectors layout.now.geometry }
    requires order { AreInOrder updates.now }
    ensures counted { IfOk result (λ count.
        IsCountedAt layout.now.geometry
        (found_lists found.now.counters.items found.now.commits.items updates.now)
        place (Ok count)) }
    ensures left { IfErr result (λ point.
        IsCountedAt layout.now.geometry
        (found_lists found.now.counters.items found.now.commits.items updates.now)
        place (Err point.0)) }
{
    let counter = found.counters[layout.block_number(place.slab, place.offset) as usize];
    if updates.is_empty() && u16::from(counter) <= layout.limit() {
        return Ok(u16::from(counter));
    }
    let at = layout.data_block(place.slab, place.offset);
    let sector = layout.sector_number(place.slab, layout.sector_of_offset(place.offset));
    let commit = found.commits[sector as usize];
    count_from(layout.limit(), at, commit, counter, updates)
}

// The same from its counter and the commit point.
fn count_from(
    limit: u16,
    at: Pbn,
    commit: Point,
    counter: u8,
    updates: &[Update],
) -> Result<u16, Point>
    requires small { limit < 1000 }
    requires order { AreInOrder updates.now }
    ensures counted { IfOk result (λ count.
        IsCounted limit updates.now at.0 commit.0 counter (Ok count)) }
    ensures left { IfErr result (λ point.
        IsCounted limit updates.now at.0 commit.0 counter (Err point.0)) }
{
    let mut count = u16::from(counter);
    if count > limit {
        return Err(commit);
    }
    let mut applied = commit;
    for update in updates {
        if update.at.0 == at.0 && update.point.0 > applied.0 {
            applied = update.point;
            match count_with(limit, count, applied) {
                Some(next) => count = next,
                None => return Err(applied),
            }
        }
    }
    Ok(count)
}

// The count with one update more; none where it leaves its range.
fn count_with(limit: u16, count: u16, point: Point) -> Option<u16>
    requires small { limit < 1000 }
    ensures some { IfSome result (λ next.
        (later : List ℕ) →
        count_after limit count (point.0 ∷ later) ≡ count_after limit next later) }
    ensures none { IfNone result
        ((later : List ℕ) → count_after limit count (point.0 ∷ later) ≡ Err point.0) }
{
    match point.half() {
        Half::Increment if count < limit => Some(count + 1),
        Half::Decrement if count > 0 => Some(count - 1),
        _ => None,
    }
}
