ghost use Rattle.std.specs.Prelude.{◌≡◌, ◌<◌, IfOk, OnOk};
ghost use Rattle.blk_base.specs.declared.sizes.TheConstants.{PAGE_SLOTS as SLOTS, TREES as ALL_TREES};
ghost use Rattle.grow_image.specs.NewAddresses.{AddsSlot, AreAdded, AreNewLeaves};

use crate::address_range::AddressRange;
use blk_base::{Mapping, OpenedPage, PAGE_SLOTS, TREES};
use replay_map::Link;
use std::alloc::{AllocError, Global};

// The leaves with some of these addresses to which these pages lead.
pub(crate) fn leaves_with(
    alloc: Global,
    pages: &[OpenedPage],
    range: AddressRange,
) -> Result<Vec<Link>, AllocError>
    ensures { IfOk result (λ leaves. AreNewLeaves range pages.now leaves.items) }
{
    let mut leaves = Vec::new(alloc);
    for page in pages {
        push_leaves(&mut leaves, page, range)?;
    }
    Ok(leaves)
}

// Adds those to which a page leads, if it is one above leaves.
fn push_leaves(
    leaves: &mut Vec<Link>,
    page: &OpenedPage,
    range: AddressRange,
) -> Result<(), AllocError>
    ensures { OnOk result (AreAdded range page.now SLOTS leaves.old.items leaves.new.items) }
{
    if page.page.level != 1 || page.page.tree >= TREES {
        return Ok(());
    }
    push_slots(leaves, page, range)
}

// Adds those to which the slots of a page above leaves lead.
fn push_slots(
    leaves: &mut Vec<Link>,
    page: &OpenedPage,
    range: AddressRange,
) -> Result<(), AllocError>
    requires above { page.now.page.level ≡ 1 }
    requires tree { page.now.page.tree < ALL_TREES }
    ensures { OnOk result (AreAdded range page.now SLOTS leaves.old.items leaves.new.items) }
{
    for slot in 0..PAGE_SLOTS {
        push_slot(leaves, page, slot, range)?;
    }
    Ok(())
}

// Adds the one to which a slot leads.
// Long to prove: a push may find no memory in each turn.
fn push_slot(
    leaves: &mut Vec<Link>,
    page: &OpenedPage,
    slot: u16,
    range: AddressRange,
) -> Result<(), AllocError>
    requires above { page.now.page.level ≡ 1 }
    requires tree { page.now.page.tree < ALL_TREES }
    requires inside { slot < SLOTS }
    ensures { OnOk result (AddsSlot range page.now slot leaves.old.items leaves.new.items) }
{
    let Mapping::At(at) = page.mappings.get(slot) else {
        return Ok(());
    };
    if range.has_some_below(page.page, slot) {
        leaves.push(Link {
            page: page.page.child(slot),
            at,
        })?;
    }
    Ok(())
}
