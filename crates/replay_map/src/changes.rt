ghost use Rattle.std.specs.Prelude.{◌≡◌, ◌<◌, ◌^◌, ℕ, if◌then◌else◌, Some, None, IfOk, IfSome, IfNone, OnOk, map, reverse};
ghost use Rattle.std.specs.Map.Iter.{ShowsInOrder, deref_pair};
ghost use Rattle.blk_base.specs.Pages.{above, slot_of, leaf_of, slot_of_address};
ghost use Rattle.blk_base.specs.declared.place.Mapping.{Mapping as Put};
ghost use Rattle.blk_base.specs.declared.place.PageId.{PageId};
ghost use Rattle.blk_base.specs.declared.sizes.TheConstants.{PAGE_SLOTS as SLOTS};
ghost use Rattle.image_model.specs.Maps.{or_else, put_by};
ghost use Rattle.replay_map.specs.Changes.{AreNewest, changed, is_slot};
ghost use Rattle.replay_map.specs.Forms.{as_found, changes_in};
ghost use Rattle.replay_map.specs.declared.changes.SlotId.{SlotId as Slot};

use blk_base::{CommittedEntry, Entry, Lba, Mapping, PAGE_SLOTS, PageId};
use std::alloc::{AllocError, Global};
use std::collections::BTreeMap;
use std::collections::btree_map::Range;
use std::marker::Model;

/// A slot of a page of the block map. The order is that of the pages' trees, levels and numbers, and then of the slots.
#[derive(Clone, Copy, PartialEq, Eq, PartialOrd, Ord)]
pub struct SlotId {
    pub page: PageId,
    /// 0 to 811.
    pub slot: u16,
}

// What is put into a page stands together, so that a page is read with one search.
/// What the entries of a window put into the slots of pages: of each slot what the newest one does. A contract sees the
/// slots with their mappings, in the order of slots.
#[derive(Drop)]
pub struct Changes {
    newest: BTreeMap<SlotId, Mapping>,
}

impl Model for Changes {
    ghost use Rattle.std.specs.Prelude.{List};
    ghost use Rattle.blk_base.specs.declared.place.Mapping.{Mapping};
    ghost use Rattle.replay_map.specs.declared.changes.SlotId.{SlotId};

    ghost Value = { List (SlotId × Mapping) };

    ghost view = { λ c. c.newest.entries };
}

impl Changes {
    /// The changes of these entries, of which the oldest stands first. It goes over them once. The memory that it takes
    /// grows with the slots that they name; it fails only where there is none.
    pub fn of(alloc: Global, window: &[CommittedEntry]) -> Result<Changes, AllocError>
        ensures { IfOk result (λ changes. AreNewest (reverse window.now) changes) }
    {
        let mut newest = BTreeMap::new(alloc);
        for committed in window {
            put(&mut newest, committed.entry)?;
        }
        Ok(Changes { newest })
    }

    /// What is put into a slot; `None` where nothing is. It takes a time that grows with the logarithm of the slots.
    pub fn get(&self, page: PageId, slot: u16) -> Option<Mapping>
        ensures { result ≡ changed self.now page slot }
    {
        self.newest.get(&SlotId { page, slot }).copied()
    }

    /// What is put into the slots of a page, in the order of its slots. It is found in a time that grows with the logarithm of
    /// all slots.
    pub fn of_page(&self, page: PageId) -> Range<'_, SlotId, Mapping>
        ensures each { (slot : ℕ) → slot < SLOTS →
            changed result page slot ≡ changed self.now page slot }
        ensures listed { map as_found result ≡ changes_in self.now page SLOTS }
        ensures runs { ShowsInOrder (deref_pair {K = Slot} {X = Put}) }
    {
        let first = SlotId { page, slot: 0 };
        let last = SlotId {
            page,
            slot: PAGE_SLOTS - 1,
        };
        self.newest.range(first..=last)
    }
}

// Puts into a slot what an entry does.
fn put(newest: &mut BTreeMap<SlotId, Mapping>, entry: Entry) -> Result<(), AllocError>
    ensures { OnOk result ((page : PageId) (slot : ℕ) → page.level < 2 ^ 8
        →
        changed newest.new.entries page slot
        ≡ or_else (put_by entry page slot) (changed newest.old.entries page slot)) }
{
    let Some((id, mapping)) = change(entry) else {
        return Ok(());
    };
    newest.insert(id, mapping)?;
    Ok(())
}

// The slot into which an entry puts a mapping, and that. There is none for a new page with no level above it.
fn change(entry: Entry) -> Option<(SlotId, Mapping)>
    ensures some { IfSome result (λ to.
        (page : PageId) (slot : ℕ) →
        put_by entry page slot ≡ (if is_slot to.0 page slot then Some to.1 else None)) }
    ensures none { IfNone result
        ((page : PageId) (slot : ℕ) → page.level < 2 ^ 8 → put_by entry page slot ≡ None) }
{
    match entry {
        Entry::Remap { at, old: _, new } => Some((slot_of_address(at), new)),
        Entry::NewPage { page, at } => Some((slot_above(page)?, Mapping::At(at))),
    }
}

// The slot of an address in its leaf.
fn slot_of_address(at: Lba) -> SlotId
    ensures { result ≡ record { page = leaf_of at.0; slot = slot_of_address at.0 } }
{
    SlotId {
        page: at.leaf(),
        slot: at.slot(),
    }
}

// The slot that leads to a page; `None` for one of level 255, since no page is above it.
fn slot_above(page: PageId) -> Option<SlotId>
    ensures some { IfSome result (λ id. id ≡ record { page = above page; slot = slot_of page }) }
    ensures none { IfNone result (page.level ≡ 255) }
{
    if page.level == u8::MAX {
        return None;
    }
    Some(SlotId {
        page: page.parent(),
        slot: page.parent_slot(),
    })
}
