ghost use Rattle.std.specs.Prelude.{◌≡◌, ◌<◌, ◌≤◌, ◌*◌, ◌^◌, ◌↔◌, IsTrue};
ghost use Rattle.block_map_tree.specs.Pages.{first_below, IsForest, IsTreeOf, IsOnPath, IsRoot, IsInner};
ghost use Rattle.block_map_tree.specs.Tree.{trees_of, number_of, most_rows};

use crate::Forest;
use blk_base::{PAGE_SLOTS, PageId};

/// How many slots a page has.
pub(crate) const SLOTS: u32 = PAGE_SLOTS as u32;

/// How many trees an image has.
pub(crate) const TREES: u32 = blk_base::TREES as u32;

/// How many pages of a tree are so many levels below its root.
pub(crate) fn width(depth: u32) -> u32
    requires { depth ≤ 2 }
    ensures { result ≡ PAGE_SLOTS ^ depth }
{
    match depth {
        0 => 1,
        1 => SLOTS,
        _ => SLOTS * SLOTS,
    }
}

/// How many trees a zone has.
pub(crate) fn count_trees(forest: &Forest) -> usize
    requires { IsForest forest.now }
    ensures count { result ≡ trees_of forest.now }
    ensures few { result ≤ TREES }
    ensures some { 1 ≤ result }
{
    ((TREES - 1 - forest.zone) / forest.zones + 1) as usize
}

/// Whether a zone has a tree.
pub(crate) fn has_tree(forest: &Forest, tree: u8) -> bool
    requires { IsForest forest.now }
    ensures { IsTrue result ↔ IsTreeOf forest.now tree }
{
    let tree = u32::from(tree);
    tree < TREES && tree % forest.zones == forest.zone
}

/// Whether a page is of a zone's trees and no leaf.
pub(crate) fn is_inner(page: PageId, forest: &Forest) -> bool
    requires { IsForest forest.now }
    ensures { IsTrue result ↔ IsInner forest.now page }
{
    let height = forest.geometry.height;
    let level = u32::from(page.level);
    has_tree(forest, page.tree)
        && 1 <= level
        && level < height
        && page.index < width(height - 1 - level)
}

/// Whether a page is on a path of the logical size, and no root.
pub(crate) fn is_below_a_root(page: PageId, forest: &Forest) -> bool
    requires { IsForest forest.now }
    ensures { IsTrue result ↔ (IsOnPath forest.now page × (IsRoot forest.now page → ⊥)) }
{
    has_tree(forest, page.tree)
        && u32::from(page.level) + 1 < forest.geometry.height
        && first_address(page) < u64::from(forest.geometry.logical)
}

// The first of the addresses below a page that is no root.
fn first_address(page: PageId) -> u64
    requires level { page.level < 2 }
    requires tree { page.tree < TREES }
    ensures { result ≡ first_below page }
{
    (first_leaf(page) * u64::from(TREES) + u64::from(page.tree)) * u64::from(SLOTS)
}

// The number in its tree of the first leaf below a page that is no root.
fn first_leaf(page: PageId) -> u64
    requires { page.level < 2 }
    ensures value { result ≡ page.index * PAGE_SLOTS ^ page.level }
    ensures bound { result < 2 ^ 42 }
{
    let index = u64::from(page.index);
    match page.level {
        0 => index,
        _ => index * u64::from(SLOTS),
    }
}

/// The number of a page that is no leaf.
pub(crate) fn number(page: PageId, forest: &Forest) -> usize
    requires { IsForest forest.now }
    ensures { result ≡ number_of forest.now page }
{
    let row = if u32::from(page.level) + 1 == forest.geometry.height {
        0
    } else {
        page.index as usize + 1
    };
    row * count_trees(forest) + (u32::from(page.tree) / forest.zones) as usize
}

/// The page that has this number.
pub(crate) fn page_numbered(number: usize, forest: &Forest) -> PageId
    requires forest { IsForest forest.now }
    requires inside { number < most_rows forest.now.geometry.height * trees_of forest.now }
    ensures inner { IsInner forest.now result }
    ensures number { number_of forest.now result ≡ number }
{
    let trees = count_trees(forest);
    let row = number / trees;
    let tree = (forest.zone as usize + forest.zones as usize * (number % trees)) as u8;
    if row == 0 {
        PageId {
            tree,
            level: (forest.geometry.height - 1) as u8,
            index: 0,
        }
    } else {
        PageId {
            tree,
            level: 1,
            index: (row - 1) as u32,
        }
    }
}
