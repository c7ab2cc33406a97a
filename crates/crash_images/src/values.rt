ghost use Rattle.std.specs.Prelude.{◌≡◌, ◌≤◌, Some, IfOk, IfErr, map};
ghost use Rattle.blk_base.specs.Pages.{leaf_of};
ghost use Rattle.blk_base.specs.Regions.{needed_blocks};
ghost use Rattle.disk_model.specs.Causes.{HasCause};
ghost use Rattle.disk_model.specs.Since.{IsUntouched};
ghost use Rattle.image_model.specs.Maps.{mapping_of, value_of, value_with};
ghost use Rattle.image_model.specs.Windows.{LeadsToData};
ghost use Rattle.crash_images.specs.Maps.{Fits, OfMap};
ghost use Rattle.crash_images.specs.Values.{AreRefused, IsNoDamage, IsRefused, LinkTo, address_of, value_in};

use crate::leaves::{blocks_of, find_block};
use crate::{ImageMap, ValueFault};
use blk_base::{Block, Lba, Mapping, Mappings, Pbn};
use command_text::AddressValue;
use disk_model::{Disk, Failed, read_block};
use page_codec::PageHead;
use replay_map::read_page;
use std::alloc::Global;

// Long to prove: each clause is shown on each way out.
/// The bytes at each of these addresses, as [`value_at`] reads them, in their order. It goes over the linked pages once.
/// Nothing is written.
///
/// It fails with the first fault that is found, and with `Memory` only for want of memory, before any read.
pub fn values_of<D: Disk>(
    alloc: Global,
    device: &mut D,
    found: &ImageMap,
    addresses: &[Lba],
) -> Result<Vec<AddressValue>, ValueFault>
    requires fits { Fits found.now }
    requires room { needed_blocks found.now.head.geometry ≤ (D.seen device.old).size }
    ensures addresses { IfOk result (λ values. map address_of values.items ≡ addresses.now) }
    ensures values { IfOk result (λ values.
        OfMap D.trust (D.seen device.old) found.now
        (λ image. values.items ≡ map (value_in image) addresses.now)) }
    ensures refused { IfErr result
        (AreRefused found.now addresses.now (D.seen device.old) (D.seen device.new)) }
    ensures undamaged { IfErr result (λ why.
        OfMap D.trust (D.seen device.old) found.now (λ image. IsNoDamage why)) }
    ensures untouched { IsUntouched D.trust.tells (D.seen device.old) (D.seen device.new) }
{
    let Ok(blocks) = blocks_of(alloc, &found.pages.links) else {
        return Err(ValueFault::Memory);
    };
    let Ok(mut values) = Vec::with_capacity(alloc, addresses.len()) else {
        return Err(ValueFault::Memory);
    };
    for at in addresses {
        let leaf = blocks.get(&at.leaf()).copied();
        let block = read_value(device, found, leaf, *at)?;
        values.push_reserved(AddressValue { at: *at, block });
    }
    Ok(values)
}

/// The bytes at an address of an image with this map, which was read from this device; zeros where nothing is mapped. It reads
/// the leaf of the address, where that is linked, and the block that this maps it to, and writes nothing. The address need not
/// be below the logical size. It takes a time that grows with the linked pages.
///
/// `Device` where a read failed, which the device's count of faults shows, and `Page` where the leaf can't be read: not on
/// an image that has this map. `Memory` never comes.
pub fn value_at<D: Disk>(device: &mut D, found: &ImageMap, at: Lba) -> Result<Block, ValueFault>
    requires fits { Fits found.now }
    requires room { needed_blocks found.now.head.geometry ≤ (D.seen device.old).size }
    ensures value { IfOk result (λ block.
        OfMap D.trust (D.seen device.old) found.now
        (λ image. block ≡ value_of image at.0)) }
    ensures refused { IfErr result
        (IsRefused found.now at.0 (D.seen device.old) (D.seen device.new)) }
    ensures undamaged { IfErr result (λ why.
        OfMap D.trust (D.seen device.old) found.now (λ image. IsNoDamage why)) }
    ensures untouched { IsUntouched D.trust.tells (D.seen device.old) (D.seen device.new) }
{
    let leaf = find_block(&found.pages.links, at.leaf());
    read_value(device, found, leaf, at)
}

// The same, by the block at which the leaf of the address stands, where that is linked.
fn read_value<D: Disk>(
    device: &mut D,
    found: &ImageMap,
    leaf: Option<Pbn>,
    at: Lba,
) -> Result<Block, ValueFault>
    requires fits { Fits found.now }
    requires room { needed_blocks found.now.head.geometry ≤ (D.seen device.old).size }
    requires leaf { LinkTo found.now.pages.links.items (leaf_of at.0) leaf }
    ensures value { IfOk result (λ block.
        OfMap D.trust (D.seen device.old) found.now
        (λ image. block ≡ value_of image at.0)) }
    ensures refused { IfErr result
        (IsRefused found.now at.0 (D.seen device.old) (D.seen device.new)) }
    ensures undamaged { IfErr result (λ why.
        OfMap D.trust (D.seen device.old) found.now (λ image. IsNoDamage why)) }
    ensures untouched { IsUntouched D.trust.tells (D.seen device.old) (D.seen device.new) }
{
    let mapping = read_mapping(device, found, leaf, at)?;
    match read_mapped(device, found, mapping) {
        Ok(block) => Ok(block),
        Err(Failed) => Err(ValueFault::Device),
    }
}

// What an address is mapped to: its leaf is read, where it is linked.
fn read_mapping<D: Disk>(
    device: &mut D,
    found: &ImageMap,
    leaf: Option<Pbn>,
    at: Lba,
) -> Result<Mapping, ValueFault>
    requires fits { Fits found.now }
    requires room { needed_blocks found.now.head.geometry ≤ (D.seen device.old).size }
    requires leaf { LinkTo found.now.pages.links.items (leaf_of at.0) leaf }
    ensures mapping { IfOk result (λ mapping.
        OfMap D.trust (D.seen device.old) found.now
        (λ image. mapping ≡ mapping_of image at.0)) }
    ensures data { IfOk result (LeadsToData found.now.head.geometry) }
    ensures refused { IfErr result
        (IsRefused found.now at.0 (D.seen device.old) (D.seen device.new)) }
    ensures undamaged { IfErr result (λ why.
        OfMap D.trust (D.seen device.old) found.now (λ image. IsNoDamage why)) }
    ensures untouched { IsUntouched D.trust.tells (D.seen device.old) (D.seen device.new) }
{
    match leaf {
        Some(leaf) => read_slot(device, found, at, leaf),
        None => Ok(Mapping::Unmapped),
    }
}

// What the leaf of an address, which stands at this block, maps it to.
// Long to prove: each clause is shown on each way out.
fn read_slot<D: Disk>(
    device: &mut D,
    found: &ImageMap,
    at: Lba,
    leaf: Pbn,
) -> Result<Mapping, ValueFault>
    requires fits { Fits found.now }
    requires room { needed_blocks found.now.head.geometry ≤ (D.seen device.old).size }
    requires leaf { LinkTo found.now.pages.links.items (leaf_of at.0) (Some leaf) }
    ensures mapping { IfOk result (λ mapping.
        OfMap D.trust (D.seen device.old) found.now
        (λ image. mapping ≡ mapping_of image at.0)) }
    ensures data { IfOk result (LeadsToData found.now.head.geometry) }
    ensures refused { IfErr result
        (IsRefused found.now at.0 (D.seen device.old) (D.seen device.new)) }
    ensures undamaged { IfErr result (λ why.
        OfMap D.trust (D.seen device.old) found.now (λ image. IsNoDamage why)) }
    ensures untouched { IsUntouched D.trust.tells (D.seen device.old) (D.seen device.new) }
{
    let Ok(bytes) = read_block(device, leaf) else {
        return Err(ValueFault::Device);
    };
    let head = PageHead {
        geometry: found.head.geometry,
        page: at.leaf(),
        at: leaf,
    };
    let mut mappings = Mappings::new();
    match read_page(&bytes, &head, &found.changes, &mut mappings) {
        Ok(()) => Ok(mappings.get(at.slot())),
        Err(fault) => Err(ValueFault::Page { at: leaf, fault }),
    }
}

// The bytes that a leaf of the image maps an address to.
fn read_mapped<D: Disk>(device: &mut D, found: &ImageMap, mapping: Mapping) -> Result<Block, Failed>
    requires data { LeadsToData found.now.head.geometry mapping }
    requires room { needed_blocks found.now.head.geometry ≤ (D.seen device.old).size }
    ensures value { IfOk result (λ block.
        OfMap D.trust (D.seen device.old) found.now
        (λ image. block ≡ value_with image.blocks mapping)) }
    ensures cause { HasCause (D.seen device.old).faults (D.seen device.new).faults result }
    ensures untouched { IsUntouched D.trust.tells (D.seen device.old) (D.seen device.new) }
{
    match mapping {
        Mapping::At(block) => read_block(device, block),
        Mapping::Zero | Mapping::Unmapped => Ok(Block::zero()),
    }
}
