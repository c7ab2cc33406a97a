ghost use Rattle.std.specs.Prelude.{◌<◌, ◌≤◌, ◌*◌, All, length};
ghost use Rattle.blk_base.specs.declared.place.PageId.{PageId};
ghost use Rattle.block_map_tree.specs.Pages.{IsForest, IsTreeOf, IsOnPath, IsInner};
ghost use Rattle.block_map_tree.specs.Tree.{number_of, trees_of, most_rows};
ghost use Rattle.block_map_tree.specs.OpenedTree.{IsOpened, AreEnough, IsTakenOver};

use crate::Forest;
use crate::numbers::{SLOTS, TREES, count_trees, has_tree, number};
use blk_base::{Mappings, OpenedPage};

/// How many pages there is to be room for: the roots, and at height 3 those below them, up to the last that is on a path of
/// the logical size or is there.
pub(crate) fn count_pages(forest: &Forest, opened: &[OpenedPage]) -> usize
    requires forest { IsForest forest.now }
    requires inner { All (λ o.
        IsTreeOf forest.now o.page.tree → IsInner forest.now o.page) opened.now }
    ensures most { result ≤ most_rows forest.now.geometry.height * trees_of forest.now }
    ensures paths { (page : PageId) → IsOnPath forest.now page → 1 ≤ page.level →
        number_of forest.now page < result }
    ensures opened { All (λ o.
        IsTreeOf forest.now o.page.tree → number_of forest.now o.page < result) opened.now }
{
    count_rows(forest, opened) as usize * count_trees(forest)
}

// How many rows of pages, the roots among them.
// Long to prove: the numbers are shown to fit for each index.
fn count_rows(forest: &Forest, opened: &[OpenedPage]) -> u32
    requires forest { IsForest forest.now }
    requires inner { All (λ o.
        IsTreeOf forest.now o.page.tree → IsInner forest.now o.page) opened.now }
    ensures { AreEnough forest.now opened.now result }
{
    if forest.geometry.height == 2 {
        return 1;
    }
    let mut rows = (forest.geometry.logical - 1) / SLOTS / TREES / SLOTS + 2;
    for page in opened {
        if has_tree(forest, page.page.tree) && page.page.level == 1 {
            rows = rows.max(page.page.index + 2);
        }
    }
    rows
}

/// Takes over what the pages of a zone's trees lead to.
pub(crate) fn take_over(pages: &mut Vec<Mappings>, opened: &[OpenedPage], forest: &Forest)
    requires forest { IsForest forest.now }
    requires opened { IsOpened forest.now opened.now }
    requires inside { All (λ o.
        IsTreeOf forest.now o.page.tree → number_of forest.now o.page < length pages.old.items)
        opened.now }
    ensures { IsTakenOver forest.now opened.now
        (length opened.now) pages.old.items pages.new.items }
{
    for page in opened {
        if has_tree(forest, page.page.tree) {
            pages[number(page.page, forest)].copy_from(&page.mappings);
        }
    }
}
