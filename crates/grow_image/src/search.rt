ghost use Rattle.std.specs.Prelude.{◌≡◌, ◌⊎◌, ◌≤◌, ◌<◌, ◌∷◌, [], ℕ, All, IfOk, IfErr, Contains};
ghost use Rattle.blk_base.specs.Limits.{IsGeometry};
ghost use Rattle.blk_base.specs.Regions.{IsDataBlock, needed_blocks};
ghost use Rattle.blk_base.specs.declared.sizes.TheConstants.{PAGE_SLOTS as SLOTS, TREES};
ghost use Rattle.disk_model.specs.Since.{IsUntouched};
ghost use Rattle.replay_map.specs.declared.links.Link.{Link as Leaf};
ghost use Rattle.grow_image.specs.NewAddresses.{IsBefore, IsFirstMapped, IsLeastMapped, IsShownBy, IsUnreadable, leaf_head};
ghost use Rattle.grow_image.specs.Searches.{IsMappedSlot, SearchFails};

use crate::address_range::AddressRange;
use blk_base::{Block, Geometry, Lba, Mapping, PAGE_SLOTS};
use disk_model::{Disk, read_block};
use image_model::ImageFault;
use page_codec::{PageFault, PageHead, slot};
use replay_map::Link;

// The least of these addresses that is mapped in one of these leaves. Each is read once, and nothing else is done.
pub(crate) fn least_mapped<D: Disk>(
    device: &mut D,
    sizes: &Geometry,
    leaves: &[Link],
    range: AddressRange,
) -> Result<Option<Lba>, ImageFault>
    requires sizes { IsGeometry sizes.now }
    requires room { needed_blocks sizes.now ≤ (D.seen device.old).size }
    requires blocks { (leaf : Leaf) → Contains leaves.now leaf → IsDataBlock sizes.now leaf.at.0 }
    requires trees { (leaf : Leaf) → Contains leaves.now leaf →
        (leaf.page.level ≡ 0) × (leaf.page.tree < TREES) }
    ensures least { IfOk result (λ least.
        IsShownBy D.trust sizes.now (D.seen device.old) (D.seen device.new)
        (λ blocks. IsLeastMapped sizes.now range leaves.now blocks least)) }
    ensures fault { IfErr result
        (SearchFails D.trust sizes.now range leaves.now (D.seen device.old)
        (D.seen device.new)) }
    ensures untouched { IsUntouched D.trust.tells (D.seen device.old) (D.seen device.new) }
{
    let mut least = None;
    for leaf in leaves {
        let first = search_leaf(device, sizes, *leaf, range)?;
        least = lesser(least, first);
    }
    Ok(least)
}

// The lesser of two addresses, where there are both.
fn lesser(one: Option<Lba>, other: Option<Lba>) -> Option<Lba>
    ensures is { (result ≡ one) ⊎ (result ≡ other) }
    ensures before { (address : ℕ) → IsBefore address result
        → IsBefore address one × IsBefore address other }
{
    match (one, other) {
        (None, _) => other,
        (_, None) => one,
        (Some(a), Some(b)) => Some(if a.0 <= b.0 { a } else { b }),
    }
}

// The least of these addresses that is mapped in a leaf.
fn search_leaf<D: Disk>(
    device: &mut D,
    sizes: &Geometry,
    leaf: Link,
    range: AddressRange,
) -> Result<Option<Lba>, ImageFault>
    requires sizes { IsGeometry sizes.now }
    requires room { needed_blocks sizes.now ≤ (D.seen device.old).size }
    requires stands { IsDataBlock sizes.now leaf.at.0 }
    requires level { leaf.page.level ≡ 0 }
    requires tree { leaf.page.tree < TREES }
    ensures least { IfOk result (λ least.
        IsShownBy D.trust sizes.now (D.seen device.old) (D.seen device.new)
        (λ blocks. IsLeastMapped sizes.now range (leaf ∷ []) blocks least)) }
    ensures fault { IfErr result
        (SearchFails D.trust sizes.now range (leaf ∷ []) (D.seen device.old)
        (D.seen device.new)) }
    ensures untouched { IsUntouched D.trust.tells (D.seen device.old) (D.seen device.new) }
{
    let Ok(block) = read_block(device, leaf.at) else {
        return Err(ImageFault::Device);
    };
    let head = PageHead {
        geometry: *sizes,
        page: leaf.page,
        at: leaf.at,
    };
    match first_mapped(&block, &head, range) {
        Ok(first) => Ok(first),
        Err(fault) => Err(ImageFault::Page { at: leaf.at, fault }),
    }
}

// The least of these addresses that is mapped in the block of a leaf. Only their slots are looked at.
fn first_mapped(
    block: &Block,
    head: &PageHead,
    range: AddressRange,
) -> Result<Option<Lba>, PageFault>
    requires sizes { IsGeometry head.now.geometry }
    requires level { head.now.page.level ≡ 0 }
    requires tree { head.now.page.tree < TREES }
    ensures first { IfOk result (IsFirstMapped head.now range block.now) }
    ensures fault { IfErr result (IsUnreadable head.now range block.now) }
{
    for number in 0..PAGE_SLOTS {
        let mapped = mapped_at(block, head, number, range)?;
        match mapped {
            None => {}
            Some(address) => return Ok(Some(address)),
        }
    }
    Ok(None)
}

// The address of a slot, if it is one of these and mapped.
// Long to prove: each clause is shown on each way out.
fn mapped_at(
    block: &Block,
    head: &PageHead,
    number: u16,
    range: AddressRange,
) -> Result<Option<Lba>, PageFault>
    requires sizes { IsGeometry head.now.geometry }
    requires level { head.now.page.level ≡ 0 }
    requires tree { head.now.page.tree < TREES }
    requires inside { number < SLOTS }
    ensures mapped { IfOk result (IsMappedSlot head.now range block.now number) }
    ensures fault { IfErr result (IsUnreadable head.now range block.now) }
{
    let Some(address) = range.address_of(head.page, number) else {
        return Ok(None);
    };
    match slot(block, head, number)? {
        Mapping::Unmapped => Ok(None),
        Mapping::Zero | Mapping::At(_) => Ok(Some(address)),
    }
}
