ghost use Rattle.std.specs.Prelude.{ℕ, ◌≡◌, ◌<◌, ◌≤◌, ◌*◌, ◌++◌, All, List, [], ◌∷◌, length, IfOk};
ghost use Rattle.blk_base.specs.Counters.{limit_of};
ghost use Rattle.blk_base.specs.Limits.{IsGeometry};
ghost use Rattle.blk_base.specs.declared.place.Pbn.{Pbn as Block};
ghost use Rattle.zone_counts.specs.Zone.{AreOpened, AreOpenedWith, AreSlabs, slabs_of_zone};

use crate::places::find_slab;
use blk_base::{Layout, Opened, Pbn};
use slab_counts::SlabCounts;
use std::alloc::{AllocError, Global};

/// The slabs of a zone, as an image is opened. It goes through the tree pages once for all of them.
pub(crate) fn opening_slabs(
    alloc: Global,
    zone: u32,
    zones: u32,
    opened: &Opened,
) -> Result<Vec<SlabCounts>, AllocError>
    requires sizes { IsGeometry opened.now.head.geometry }
    requires zones { zones ≤ 4 }
    requires zone { zone < zones }
    requires counters { length opened.now.counters.items
        ≡ opened.now.head.geometry.slabs * opened.now.head.geometry.slab_blocks }
    requires limit { All (λ counter.
        counter ≤ limit_of opened.now.head.geometry) opened.now.counters.items }
    ensures { IfOk result (λ slabs.
        AreOpened opened.now zone zones (slabs_of_zone opened.now.head.geometry zone zones)
        slabs.items) }
{
    let layout = Layout::of(&opened.head.geometry);
    let mut slabs = slabs_without_pages(alloc, zone, zones, opened)?;
    note_pages(&layout, zone, zones, &mut slabs, &opened.tree_pages);
    Ok(slabs)
}

// The slabs of a zone, no tree page of which was found as yet.
fn slabs_without_pages(
    alloc: Global,
    zone: u32,
    zones: u32,
    opened: &Opened,
) -> Result<Vec<SlabCounts>, AllocError>
    requires sizes { IsGeometry opened.now.head.geometry }
    requires zones { zones ≤ 4 }
    requires zone { zone < zones }
    requires counters { length opened.now.counters.items
        ≡ opened.now.head.geometry.slabs * opened.now.head.geometry.slab_blocks }
    requires limit { All (λ counter.
        counter ≤ limit_of opened.now.head.geometry) opened.now.counters.items }
    ensures { IfOk result (λ slabs.
        AreOpenedWith opened.now.head.geometry opened.now.counters.items [] zone zones
        (slabs_of_zone opened.now.head.geometry zone zones) slabs.items) }
{
    let geometry = opened.head.geometry;
    let count = (geometry.slabs + zones - 1 - zone) / zones;
    let mut slabs = Vec::with_capacity(alloc, count as usize)?;
    for k in 0..count {
        let slab = SlabCounts::without_pages(alloc, &geometry, k * zones + zone, &opened.counters)?;
        slabs.push_reserved(slab);
    }
    Ok(slabs)
}

// Tree pages stand at these blocks: those of the zone are noted.
fn note_pages(layout: &Layout, zone: u32, zones: u32, slabs: &mut Vec<SlabCounts>, among: &[Pbn])
    requires { AreSlabs layout.now.geometry zone zones slabs.old.items }
    ensures { (counters : List ℕ) (count : ℕ) →
        AreOpenedWith layout.now.geometry counters [] zone zones count slabs.old.items →
        AreOpenedWith layout.now.geometry counters among.now zone zones count slabs.new.items }
{
    for at in among {
        note_page(layout, zone, zones, slabs, *at);
    }
}

// A tree page stands at this block, which is noted where it is one of the zone.
// Long to prove: one slab of a list changes, and the others stay.
fn note_page(layout: &Layout, zone: u32, zones: u32, slabs: &mut Vec<SlabCounts>, at: Pbn)
    requires { AreSlabs layout.now.geometry zone zones slabs.old.items }
    ensures slabs { AreSlabs layout.now.geometry zone zones slabs.new.items }
    ensures opened { (counters : List ℕ) (pages : List Block) (count : ℕ) →
        AreOpenedWith layout.now.geometry counters pages zone zones count slabs.old.items →
        AreOpenedWith layout.now.geometry counters (pages ++ at ∷ []) zone zones count
        slabs.new.items }
{
    if let Some(place) = find_slab(layout, zone, zones, slabs, at) {
        let slab = &mut slabs[place];
        slab.note_page(at);
    }
}
