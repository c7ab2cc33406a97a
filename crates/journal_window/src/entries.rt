ghost use Rattle.std.specs.Prelude.{◌↔◌, ◌<◌, ◌+◌, ◌*◌, ◌≡◌, ◌^◌, IsTrue};
ghost use Rattle.image_model.specs.Pages.{IsBelowRoot};
ghost use Rattle.image_model.specs.Windows.{IsOfImage, LeadsToData};

use blk_base::{Entry, Layout, Mapping, PAGE_SLOTS, PageId, TREES};

// Whether an entry is of this image: of an address below the logical size or of a page that may be linked, with data
// blocks alone.
pub(crate) fn is_of_image(layout: &Layout, entry: Entry) -> bool
    ensures { IsTrue result ↔ IsOfImage layout.now.geometry entry }
{
    match entry {
        Entry::Remap { at, old, new } => {
            at.0 < layout.geometry.logical
                && leads_to_data(layout, old)
                && leads_to_data(layout, new)
        }
        Entry::NewPage { page, at } => is_below_root(layout, page) && layout.is_data_block(at),
    }
}

// Whether a mapping leads to no block, or to a data block.
fn leads_to_data(layout: &Layout, mapping: Mapping) -> bool
    ensures { IsTrue result ↔ LeadsToData layout.now.geometry mapping }
{
    match mapping {
        Mapping::Unmapped | Mapping::Zero => true,
        Mapping::At(block) => layout.is_data_block(block),
    }
}

// Whether a page is no root, and above an address of the image or its leaf.
fn is_below_root(layout: &Layout, page: PageId) -> bool
    ensures { IsTrue result ↔ IsBelowRoot layout.now.geometry page }
{
    u32::from(page.level) + 1 < layout.geometry.height
        && page.tree < TREES
        && first_address(page) < u64::from(layout.geometry.logical)
}

// The first address below a page that is no root.
fn first_address(page: PageId) -> u64
    requires { page.level < 2 }
    ensures { result ≡ (page.index * PAGE_SLOTS ^ page.level * TREES + page.tree) * PAGE_SLOTS }
{
    let leaves = if page.level == 0 {
        1
    } else {
        u64::from(PAGE_SLOTS)
    };
    (u64::from(page.index) * leaves * u64::from(TREES) + u64::from(page.tree))
        * u64::from(PAGE_SLOTS)
}
