ghost use Rattle.std.specs.Prelude.{◌≡◌, ◌<◌, ◌+◌, ◌*◌, ◌^◌};
ghost use Rattle.blk_base.specs.Pages.{above, leaf_of, page_below, root_page, slot_of, slot_of_address};

use crate::{Layout, Lba, PAGE_SLOTS, PageId, TREES};

/// How many pages of the level below a page has.
const SLOTS: u32 = PAGE_SLOTS as u32;

impl PageId {
    /// The page that leads to it. Its level is below 255.
    pub fn parent(self) -> PageId
        requires { self.level < 255 }
        ensures { result ≡ above self }
    {
        PageId {
            tree: self.tree,
            level: self.level + 1,
            index: self.index / SLOTS,
        }
    }

    /// The slot of its parent that leads to it, 0 to 811.
    pub fn parent_slot(self) -> u16
        ensures value { result ≡ slot_of self }
        ensures inside { result < PAGE_SLOTS }
    {
        (self.index % SLOTS) as u16
    }

    /// The page to which one of its slots leads. It is no leaf, and the number of that page fits.
    pub fn child(self, slot: u16) -> PageId
        requires inner { 0 < self.level }
        requires fits { self.index * PAGE_SLOTS + slot < 2 ^ 32 }
        ensures { result ≡ page_below self slot }
    {
        PageId {
            tree: self.tree,
            level: self.level - 1,
            index: self.index * SLOTS + u32::from(slot),
        }
    }
}

impl Layout {
    /// The page that is the root of a tree, 0 to 59.
    pub fn root_page(&self, tree: u8) -> PageId
        ensures page { result ≡ root_page self.now.geometry tree }
        ensures inner { 0 < result.level }
    {
        PageId {
            tree,
            level: (self.geometry.height - 1) as u8,
            index: 0,
        }
    }
}

impl Lba {
    /// The leaf that has its slot. The leaves go round the trees.
    pub fn leaf(self) -> PageId
        ensures { result ≡ leaf_of self.0 }
    {
        let leaf = self.0 / SLOTS;
        PageId {
            tree: (leaf % u32::from(TREES)) as u8,
            level: 0,
            index: leaf / u32::from(TREES),
        }
    }

    /// Its slot in its leaf, 0 to 811.
    pub fn slot(self) -> u16
        ensures value { result ≡ slot_of_address self.0 }
        ensures inside { result < PAGE_SLOTS }
    {
        (self.0 % SLOTS) as u16
    }
}
