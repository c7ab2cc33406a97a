ghost use Rattle.std.specs.Prelude.{◌≡◌, ◌+◌, ◌-◌, ◌^◌, ◌<◌, ℕ, List, [], length, replicate, IfOk, OnOk, IfSome, IfNone, slice_index};
ghost use Rattle.blk_base.specs.Regions.{IsDataBlock, data_blocks};
ghost use Rattle.blk_base.specs.declared.layout.DataPlace.{DataPlace as Place};
ghost use Rattle.count_updates.specs.Numbers.{block_number};
ghost use Rattle.image_model.specs.Counts.{block_of_data};
ghost use Rattle.image_model.specs.Sound.{IsDataPlace};
ghost use Rattle.replay_map.specs.declared.links.Link.{Link as Page};
ghost use Rattle.audit.specs.Tallies.{AreNumbers, AreTallied, IsChanged, IsSplit, more_of, number_in};

use blk_base::{Layout, Pbn, repeated};
use replay_map::Link;
use std::alloc::{AllocError, Global};
use std::collections::BTreeMap;

// No stored count is above 254, so the bytes alone tell where it differs.
/// How often each data block is mapped, slab after slab: a byte for each, and what is beyond 255 by the block's number.
#[derive(Drop)]
pub(crate) struct MappingCounts {
    pub(crate) low: Vec<u8>,
    more: BTreeMap<u32, u64>,
}

impl MappingCounts {
    /// The number of a data block.
    pub(crate) fn of(&self, n: u32) -> u64
        requires inside { n < length self.now.low.items }
        requires few { number_in self.now n < 2 ^ 64 }
        ensures { result ≡ number_in self.now n }
    {
        u64::from(self.low[n as usize]) + self.more_of(n)
    }

    // What the map has of it.
    fn more_of(&self, n: u32) -> u64
        ensures { result ≡ more_of self.now.more n }
    {
        self.more.get(&n).copied().unwrap_or(0)
    }

    // One more.
    fn add_one(&mut self, n: u32) -> Result<(), AllocError>
        requires inside { n < length self.old.low.items }
        requires few { number_in self.old n < 2 ^ 64 - 1 }
        ensures size { length self.new.low.items ≡ length self.old.low.items }
        ensures here { OnOk result (number_in self.new n ≡ number_in self.old n + 1) }
        ensures others { OnOk result
            ((k : ℕ) → (k ≡ n → ⊥) → number_in self.new k ≡ number_in self.old k) }
        ensures split { OnOk result (IsSplit self.old → IsSplit self.new) }
    {
        let low = self.low[n as usize];
        if low < u8::MAX {
            self.low[n as usize] = low + 1;
            return Ok(());
        }
        let more = self.more_of(n) + 1;
        self.more.insert(n, more)?;
        Ok(())
    }
}

/// How often each data block stands in a list of mapped blocks, and once more where a page of the other list stands
/// there; slab after slab. It takes the memory of eight bytes for each data block, and fails only where there is none.
pub fn tally(
    alloc: Global,
    layout: &Layout,
    links: &[Link],
    mapped: &[Pbn],
) -> Result<Vec<u64>, AllocError>
    requires { length mapped.now < 2 ^ 63 }
    ensures { IfOk result (λ counts.
        AreTallied layout.now.geometry links.now mapped.now counts.items) }
{
    let counts = count_mappings(alloc, layout, links, mapped)?;
    let mut tallied = Vec::with_capacity(alloc, counts.low.len())?;
    for n in 0..layout.data_blocks() {
        tallied.push(counts.of(n))?;
    }
    Ok(tallied)
}

// The same, a byte for each.
// Long to prove: each clause is shown on each way out.
pub(crate) fn count_mappings(
    alloc: Global,
    layout: &Layout,
    links: &[Link],
    mapped: &[Pbn],
) -> Result<MappingCounts, AllocError>
    requires { length mapped.now < 2 ^ 63 }
    ensures size { IfOk result (λ tally.
        length tally.low.items ≡ data_blocks layout.now.geometry) }
    ensures tallied { IfOk result (λ tally.
        AreNumbers layout.now.geometry links.now mapped.now (number_in tally)) }
    ensures few { IfOk result (λ tally.
        (n : ℕ) → n < data_blocks layout.now.geometry → number_in tally n < 2 ^ 64) }
    ensures split { IfOk result IsSplit }
{
    let mut low = repeated(alloc, 0, layout.data_blocks() as usize)?;
    mark_all(&mut low, layout, links);
    let mut tally = MappingCounts {
        low,
        more: BTreeMap::new(alloc),
    };
    count_all(&mut tally, layout, mapped)?;
    Ok(tally)
}

// Puts 1 where a page stands.
fn mark_all(counts: &mut [u8], layout: &Layout, links: &[Link])
    requires { counts.old ≡ replicate (data_blocks layout.now.geometry) 0 }
    ensures { AreNumbers layout.now.geometry links.now [] (slice_index counts.new) }
{
    for link in links {
        mark(counts, layout, link.at);
    }
}

// Adds one for each mapped block.
fn count_all(tally: &mut MappingCounts, layout: &Layout, mapped: &[Pbn]) -> Result<(), AllocError>
    requires few { length mapped.now < 2 ^ 63 }
    requires size { length tally.old.low.items ≡ data_blocks layout.now.geometry }
    requires tallied { (pages : List Page)
        × AreNumbers layout.now.geometry pages [] (number_in tally.old) }
    ensures size { length tally.new.low.items ≡ length tally.old.low.items }
    ensures tallied { OnOk result
        ((pages : List Page) → AreNumbers layout.now.geometry pages [] (number_in tally.old) →
        AreNumbers layout.now.geometry pages mapped.now (number_in tally.new)) }
    ensures split { OnOk result (IsSplit tally.old → IsSplit tally.new) }
{
    for at in mapped {
        count(tally, layout, *at)?;
    }
    Ok(())
}

// Puts 1 for this block.
fn mark(counts: &mut [u8], layout: &Layout, at: Pbn)
    requires { length counts.old ≡ data_blocks layout.now.geometry }
    ensures { IsChanged layout.now.geometry at (λ n. 1)
        (slice_index counts.old) (slice_index counts.new) }
{
    if let Some(n) = number_of(layout, at) {
        counts[n as usize] = 1;
    }
}

// Adds one for this block.
fn count(tally: &mut MappingCounts, layout: &Layout, at: Pbn) -> Result<(), AllocError>
    requires size { length tally.old.low.items ≡ data_blocks layout.now.geometry }
    requires room { (place : Place) → IsDataPlace layout.now.geometry place →
        number_in tally.old (block_number layout.now.geometry place) < 2 ^ 64 - 1 }
    ensures size { length tally.new.low.items ≡ length tally.old.low.items }
    ensures counted { OnOk result
        (IsChanged layout.now.geometry at (λ n. n + 1)
        (number_in tally.old) (number_in tally.new)) }
    ensures split { OnOk result (IsSplit tally.old → IsSplit tally.new) }
{
    match number_of(layout, at) {
        None => Ok(()),
        Some(n) => tally.add_one(n),
    }
}

// The number of the data block at this block, if one stands there.
fn number_of(layout: &Layout, at: Pbn) -> Option<u32>
    ensures some { IfSome result (λ n.
        (place : Place) × IsDataPlace layout.now.geometry place
        × (block_of_data layout.now.geometry place ≡ at)
        × (n ≡ block_number layout.now.geometry place)) }
    ensures none { IfNone result (IsDataBlock layout.now.geometry at.0 → ⊥) }
{
    match layout.place(at) {
        None => None,
        Some(place) => Some(layout.block_number(place.slab, place.offset)),
    }
}
