ghost use Rattle.std.specs.Prelude.{◌≡◌, ◌<◌, length};
ghost use Rattle.std.specs.Bool.{OnTrue, OnFalse};
ghost use Rattle.blk_base.specs.declared.sizes.TheConstants.{PAGE_SLOTS};
ghost use Rattle.recovery_blocks.specs.Patches.{HasChange, IsPatched, IsSlotPut};

use blk_base::{Block, Mapping, PageId};
use byte_fields::put_mapping;
use replay_map::Changes;

/// Puts into the slots of a page's block what the changes put there. Its other bytes stay.
pub fn put_changes(block: &mut Block, page: PageId, changes: &Changes)
    ensures { IsPatched changes.now page PAGE_SLOTS block.old block.new }
{
    put_slots(&mut block.bytes, page, changes);
}

// The same for the bytes.
fn put_slots(block: &mut [u8], page: PageId, changes: &Changes)
    requires { length block.old ≡ 4096 }
    ensures { IsPatched changes.now page PAGE_SLOTS block.old block.new }
{
    for (id, mapping) in changes.of_page(page) {
        put_slot(block, id.slot, *mapping);
    }
}

// Puts a mapping into a slot.
fn put_slot(block: &mut [u8], slot: u16, mapping: Mapping)
    requires size { length block.old ≡ 4096 }
    requires inside { slot < PAGE_SLOTS }
    ensures { IsSlotPut slot mapping block.old block.new }
{
    put_mapping(block, 36 + 5 * usize::from(slot), mapping);
}

// Also where the page says the same there already.
/// Whether the changes put something into a slot of a page.
pub fn has_changes(page: PageId, changes: &Changes) -> bool
    ensures yes { OnTrue result (HasChange changes.now page) }
    ensures no { OnFalse result (HasChange changes.now page → ⊥) }
{
    changes.of_page(page).next().is_some()
}
