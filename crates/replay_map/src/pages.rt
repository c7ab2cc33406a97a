ghost use Rattle.std.specs.Prelude.{◌<◌, IfOk, IfErr, OnOk};
ghost use Rattle.std.specs.Bool.{OnTrue, OnFalse};
ghost use Rattle.blk_base.specs.Limits.{IsGeometry};
ghost use Rattle.blk_base.specs.declared.sizes.TheConstants.{PAGE_SLOTS};
ghost use Rattle.image_model.specs.Faults.{HasFault};
ghost use Rattle.image_model.specs.Maps.{Image};
ghost use Rattle.page_codec.specs.Grammar.{HasHead};
ghost use Rattle.replay_map.specs.Pages.{ArePut, AreSaid, HasSlotFault, IsReadAs, IsRefused, SaysSlot, Stands};
ghost use Rattle.replay_map.specs.Reads.{AreLeading, LeadToData};

use crate::Changes;
use blk_base::{Block, Mapping, Mappings, PAGE_SLOTS, PageId};
use page_codec::{PageFault, PageHead, decode_mappings, slot};

// The header is looked at even where the window replaces each slot.
/// Reads the page of this block, with what the changes put into its slots. `into` has then what each slot says in the
/// image that has this block and this window.
///
/// `Header` where the block doesn't begin as this page does; else the fault of the least slot that is refused, of those
/// that no change replaces. Then `into` has any mappings.
pub fn read_page(
    block: &Block,
    want: &PageHead,
    changes: &Changes,
    into: &mut Mappings,
) -> Result<(), PageFault>
    requires geometry { IsGeometry want.now.geometry }
    ensures ok { OnOk result
        ((image : Image) → Stands image want.now block.now changes.now →
        IsReadAs image want.now into.new) }
    ensures data { OnOk result
        (LeadToData want.now.geometry changes.now → AreLeading want.now.geometry into.new) }
    ensures fault { IfErr result (λ fault.
        (image : Image) → Stands image want.now block.now changes.now
        → HasFault image want.now.page want.now.at fault) }
{
    // Looked at for the proof alone: its level is a number of one byte.
    let _level = want.page.level;
    read_slots(block, want, changes, into)
}

// The same by the block and the changes alone. A page is decoded whole; only where a slot of it is refused, which the
// changes may replace, its slots are read one by one.
fn read_slots(
    block: &Block,
    want: &PageHead,
    changes: &Changes,
    into: &mut Mappings,
) -> Result<(), PageFault>
    requires geometry { IsGeometry want.now.geometry }
    ensures head { OnOk result (HasHead want.now block.now) }
    ensures ok { OnOk result (AreSaid want.now block.now changes.now PAGE_SLOTS into.new) }
    ensures fault { IfErr result (IsRefused want.now block.now changes.now) }
{
    match decode_mappings(block, want, into) {
        Ok(()) => {
            put_over(want.page, changes, into);
            Ok(())
        }
        Err(_) => read_one_by_one(block, want, changes, into),
    }
}

// Puts the changes of a page over its mappings.
// Long to prove: the range of a map is tied to the slots of the page.
fn put_over(page: PageId, changes: &Changes, into: &mut Mappings)
    ensures { ArePut changes.now page into.old into.new }
{
    for (id, mapping) in changes.of_page(page) {
        into.set(id.slot, *mapping);
    }
}

// The same as `read_slots`, slot after slot.
fn read_one_by_one(
    block: &Block,
    want: &PageHead,
    changes: &Changes,
    into: &mut Mappings,
) -> Result<(), PageFault>
    requires geometry { IsGeometry want.now.geometry }
    ensures head { OnOk result (HasHead want.now block.now) }
    ensures ok { OnOk result (AreSaid want.now block.now changes.now PAGE_SLOTS into.new) }
    ensures fault { IfErr result (IsRefused want.now block.now changes.now) }
{
    if !has_head(block, want) {
        return Err(PageFault::Header);
    }
    for slot in 0..PAGE_SLOTS {
        let mapping = read_slot(block, want, changes, slot)?;
        into.set(slot, mapping);
    }
    Ok(())
}

// Whether the block begins as this page does.
fn has_head(block: &Block, want: &PageHead) -> bool
    requires { IsGeometry want.now.geometry }
    ensures yes { OnTrue result (HasHead want.now block.now) }
    ensures no { OnFalse result (HasHead want.now block.now → ⊥) }
{
    match slot(block, want, 0) {
        Err(PageFault::Header) => false,
        _ => true,
    }
}

// What a slot says.
fn read_slot(
    block: &Block,
    want: &PageHead,
    changes: &Changes,
    number: u16,
) -> Result<Mapping, PageFault>
    requires geometry { IsGeometry want.now.geometry }
    requires inside { number < PAGE_SLOTS }
    ensures ok { IfOk result (SaysSlot want.now block.now changes.now number) }
    ensures fault { IfErr result (HasSlotFault want.now block.now changes.now number) }
{
    match changes.get(want.page, number) {
        Some(mapping) => Ok(mapping),
        None => slot(block, want, number),
    }
}
