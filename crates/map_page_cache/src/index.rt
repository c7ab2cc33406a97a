ghost use Rattle.std.specs.Prelude.{◌≡◌, ◌<◌, ℕ, length, HoldsAt, IfOk, IfErr, IfSome, IfNone};
ghost use Rattle.std.specs.List.Sorted.{IsPartitionPoint, IsSearchInRange};
ghost use Rattle.blk_base.specs.declared.place.PageId.{PageId};
ghost use Rattle.map_page_cache.specs.Index.{no_entries, HasSlot, Adds, Removes, AreInOrder, IsBefore, IsBehind};

use blk_base::PageId;
use std::alloc::{AllocError, Global};
use std::marker::Model;

/// A page and the slot that it has.
#[derive(Clone, Copy)]
pub(crate) struct IndexEntry {
    pub(crate) page: PageId,
    pub(crate) slot: u32,
}

/// The slots of the pages, found in as many steps as the logarithm of their number. Only where a page comes or goes, which
/// is beside the read of a block, do the entries behind it move by a place.
#[derive(Drop)]
pub(crate) struct PageIndex {
    // In the order of the pages.
    entries: Vec<IndexEntry>,
    room: u32,
}

impl Model for PageIndex {
    ghost use Rattle.std.specs.Prelude.{◌≤◌, vec_capacity, length};
    ghost use Rattle.map_page_cache.specs.Index.{Index, AreInOrder};

    ghost Value = { Index };

    ghost view = { λ i. record { room = i.room; entries = i.entries.items } };

    ghost invariant = { λ i. record {
      room : i.room ≤ vec_capacity i.entries;
      order : AreInOrder i.entries.items;
    } };
}

impl PageIndex {
    // Long to prove: each way out while what was taken is alive has searches of its own.
    /// An index with room for this many pages, of which it has none.
    pub(crate) fn new(alloc: Global, room: u32) -> Result<PageIndex, AllocError>
        ensures { IfOk result (λ index. index ≡ no_entries room) }
    {
        Ok(PageIndex {
            entries: Vec::with_capacity(alloc, room as usize)?,
            room,
        })
    }

    /// The slot of a page, or `None` where it has none.
    pub(crate) fn find(&self, page: PageId) -> Option<u32>
        ensures some { IfSome result (λ slot. HasSlot self.now page slot) }
        ensures none { IfNone result ((slot : ℕ) → HasSlot self.now page slot → ⊥) }
    {
        match index_of(&self.entries, page) {
            Ok(place) => Some(self.entries[place].slot),
            Err(_) => None,
        }
    }

    /// Gives a slot to a page that has none.
    pub(crate) fn insert(&mut self, page: PageId, slot: u32)
        requires room { length self.old.entries < self.old.room }
        requires absent { (s : ℕ) → HasSlot self.old page s → ⊥ }
        ensures { Adds self.old self.new page slot }
    {
        match index_of(&self.entries, page) {
            Ok(_) => unreachable!(),
            Err(place) => {
                let Ok(()) = self.entries.insert(place, IndexEntry { page, slot }) else {
                    unreachable!()
                };
            }
        }
    }

    /// Takes its slot from a page that has one.
    pub(crate) fn remove(&mut self, page: PageId)
        requires { (slot : ℕ) × HasSlot self.old page slot }
        ensures { Removes self.old self.new page }
    {
        match index_of(&self.entries, page) {
            Ok(place) => {
                let _entry = self.entries.remove(place);
            }
            Err(_) => unreachable!(),
        }
    }
}

// Where the page's entry stands, or would stand.
fn index_of(entries: &[IndexEntry], page: PageId) -> Result<usize, usize>
    requires { AreInOrder entries.now }
    ensures bound { IsSearchInRange result (length entries.now) }
    ensures found { IfOk result (HoldsAt (λ entry. entry.page ≡ page) entries.now) }
    ensures gap { IfErr result (IsPartitionPoint (IsBefore page) (IsBehind page) entries.now) }
{
    entries.binary_search_by_key(&page, |entry| entry.page)
}
