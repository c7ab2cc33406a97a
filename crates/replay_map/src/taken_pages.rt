ghost use Rattle.std.specs.Prelude.{◌≡◌, ◌+◌, ◌*◌, ◌<◌, ◌^◌, ◌++◌, List, Some, OnOk};
ghost use Rattle.blk_base.specs.declared.place.Pbn.{Pbn as Block};
ghost use Rattle.blk_base.specs.declared.sizes.TheConstants.{PAGE_SLOTS};
ghost use Rattle.image_model.specs.Maps.{Image, page_at};
ghost use Rattle.replay_map.specs.Changes.{AreNewest, changed};
ghost use Rattle.replay_map.specs.Forms.{Takes, changes_in, links_in};
ghost use Rattle.replay_map.specs.Pages.{IsReadAs};
ghost use Rattle.replay_map.specs.Taken.{AreBelow, AreChanges, Gained, GainedMapped, block_in, change_in};
ghost use Rattle.replay_map.specs.Walks.{HasTaken};

use crate::found::Found;
use crate::links::{RUN, RUNS, is_unmapped};
use crate::{Changes, Link, SlotChange, links_of};
use blk_base::{Mapping, Mappings, PageId, Pbn};
use page_codec::PageHead;
use std::alloc::{AllocError, Global};

// Adds what a page gives that was read.
pub(crate) fn take_page(
    alloc: Global,
    page: &PageHead,
    mappings: &Mappings,
    changes: &Changes,
    found: &mut Found,
) -> Result<(), AllocError>
    requires { 0 < page.now.page.level → page.now.page.index < PAGE_SLOTS }
    ensures taken { OnOk result
        ((image : Image) → page_at image page.now.page ≡ Some page.now.at →
        AreNewest image.window changes.now
        → IsReadAs image page.now mappings.now → HasTaken image page.now.page found.old found.new) }
    ensures exact { OnOk result (Takes page.now.page mappings.now changes.now found.old found.new) }
{
    if page.page.level == 0 {
        take_leaf(page, mappings, changes, found)
    } else {
        take_inner(alloc, page, mappings, changes, found)
    }
}

// Adds what a leaf gives.
fn take_leaf(
    page: &PageHead,
    mappings: &Mappings,
    changes: &Changes,
    found: &mut Found,
) -> Result<(), AllocError>
    requires { page.now.page.level ≡ 0 }
    ensures taken { OnOk result
        ((image : Image) → page_at image page.now.page ≡ Some page.now.at →
        AreNewest image.window changes.now
        → IsReadAs image page.now mappings.now → HasTaken image page.now.page found.old found.new) }
    ensures exact { OnOk result (Takes page.now.page mappings.now changes.now found.old found.new) }
{
    push_mapped(mappings, &mut found.mapped)?;
    push_changes(page.page, changes, &mut found.slots)
}

// Adds what a page gives that is no leaf.
fn take_inner(
    alloc: Global,
    page: &PageHead,
    mappings: &Mappings,
    changes: &Changes,
    found: &mut Found,
) -> Result<(), AllocError>
    requires inner { 0 < page.now.page.level }
    requires low { page.now.page.level < 2 ^ 8 }
    requires few { page.now.page.index < PAGE_SLOTS }
    ensures taken { OnOk result
        ((image : Image) → page_at image page.now.page ≡ Some page.now.at →
        AreNewest image.window changes.now
        → IsReadAs image page.now mappings.now → HasTaken image page.now.page found.old found.new) }
    ensures exact { OnOk result (Takes page.now.page mappings.now changes.now found.old found.new) }
{
    push_links(alloc, page, mappings, &mut found.links)?;
    push_changes(page.page, changes, &mut found.slots)
}

// Adds the links of a page that is no leaf.
fn push_links(
    alloc: Global,
    page: &PageHead,
    mappings: &Mappings,
    links: &mut Vec<Link>,
) -> Result<(), AllocError>
    requires { page.now.page.index < PAGE_SLOTS }
    ensures gained { OnOk result
        ((image : Image) → page_at image page.now.page ≡ Some page.now.at →
        IsReadAs image page.now mappings.now
        → Gained links.old.items links.new.items (AreBelow image page.now.page)) }
    ensures exact { OnOk result
        (0 < page.now.page.level →
        links.new.items ≡ links.old.items ++ links_in page.now.page mappings.now PAGE_SLOTS) }
{
    let below = links_of(alloc, page, mappings)?;
    links.extend_from_slice(below.as_slice())?;
    Ok(())
}

// Adds the blocks to which a leaf maps.
fn push_mapped(mappings: &Mappings, mapped: &mut Vec<Pbn>) -> Result<(), AllocError>
    ensures { OnOk result (GainedMapped mappings.now PAGE_SLOTS mapped.old.items mapped.new.items) }
{
    for run in 0..RUNS {
        if !is_unmapped(mappings, run) {
            push_run(mappings, run, mapped)?;
        }
    }
    Ok(())
}

// Adds the blocks to which the slots of a run map.
fn push_run(mappings: &Mappings, run: u16, mapped: &mut Vec<Pbn>) -> Result<(), AllocError>
    requires { run < 7 }
    ensures { OnOk result ((first : List Block) →
        GainedMapped mappings.now (116 * run) first mapped.old.items →
        GainedMapped mappings.now (116 * (run + 1)) first mapped.new.items) }
{
    for slot in RUN * run..RUN * (run + 1) {
        push_block(mappings.get(slot), mapped)?;
    }
    Ok(())
}

// Adds the block of a mapping, if it has one.
fn push_block(mapping: Mapping, mapped: &mut Vec<Pbn>) -> Result<(), AllocError>
    ensures { OnOk result (mapped.new.items ≡ mapped.old.items ++ block_in mapping) }
{
    if let Mapping::At(at) = mapping {
        mapped.push(at)?;
    }
    Ok(())
}

// Adds the slots of a page that the changes replace.
fn push_changes(
    page: PageId,
    changes: &Changes,
    slots: &mut Vec<SlotChange>,
) -> Result<(), AllocError>
    ensures gained { OnOk result
        (Gained slots.old.items slots.new.items (AreChanges changes.now page PAGE_SLOTS)) }
    ensures exact { OnOk result
        (slots.new.items ≡ slots.old.items ++ changes_in changes.now page PAGE_SLOTS) }
{
    for (id, mapping) in changes.of_page(page) {
        slots.push(SlotChange {
            page,
            slot: id.slot,
            mapping: *mapping,
        })?;
    }
    Ok(())
}
