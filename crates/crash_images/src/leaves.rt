ghost use Rattle.std.specs.Prelude.{IfOk};
ghost use Rattle.std.specs.BTreeMap.{get};
ghost use Rattle.blk_base.specs.Pages.{page_order};
ghost use Rattle.blk_base.specs.declared.place.PageId.{PageId as Page};
ghost use Rattle.crash_images.specs.Values.{LinkTo};

use blk_base::{PageId, Pbn};
use replay_map::Link;
use std::alloc::{AllocError, Global};
use std::collections::BTreeMap;

// The block at which a page stands, by these links.
pub(crate) fn find_block(links: &[Link], page: PageId) -> Option<Pbn>
    ensures { LinkTo links.now page result }
{
    for link in links {
        if link.page == page {
            return Some(link.at);
        }
    }
    None
}

// The blocks at which the pages of these links stand. It goes over them once.
pub(crate) fn blocks_of(alloc: Global, links: &[Link]) -> Result<BTreeMap<PageId, Pbn>, AllocError>
    ensures { IfOk result (λ blocks.
        (page : Page) → LinkTo links.now page (get page_order blocks page)) }
{
    let mut blocks = BTreeMap::new(alloc);
    for link in links {
        blocks.insert(link.page, link.at)?;
    }
    Ok(blocks)
}
