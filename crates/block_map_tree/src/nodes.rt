ghost use Rattle.std.specs.Prelude.{◌≡◌, ◌<◌, ◌≤◌, ◌↔◌, [], IsTrue, IfSome, IfNone, IfOk, length, slice_set, slice_index_or};
ghost use Rattle.blk_base.specs.declared.place.Pbn.{Pbn};
ghost use Rattle.blk_base.specs.declared.point.Point.{Point};
ghost use Rattle.blk_base.specs.declared.place.PageId.{PageId};
ghost use Rattle.blk_base.specs.Limits.{IsGeometry};
ghost use Rattle.blk_base.specs.Regions.{IsDataBlock};
ghost use Rattle.blk_base.specs.Pages.{above};
ghost use Rattle.dirty_pages.specs.DirtyPoints.{NoneIsDue, IsFirstDue, NoneIsEverDue, IsLowPoint, AreClean};
ghost use Rattle.block_map_tree.specs.Pages.{IsTreeOf, IsPath};
ghost use Rattle.block_map_tree.specs.Tree.{IsAt, IsThere, IsFound, IsLinkable, Links, Expires, IsWriting, Writes, mapping_of};
ghost use Rattle.block_map_tree.specs.OpenedTree.{IsOpened, IsOpening, forest_of};

use crate::numbers::{SLOTS, has_tree, is_below_a_root, is_inner, number, page_numbered, width};
use crate::opened_pages::{count_pages, take_over};
use crate::{Forest, Found, Path};
use blk_base::{
    Layout, Mapping, Mappings, Opened, PAGE_SLOTS, PageId, Pbn, Point, TREES, repeated_with,
};
use dirty_pages::DirtyPages;
use page_codec::{MapPage, PageHead};
use std::alloc::{AllocError, Global};
use std::marker::Model;

/// The pages of a zone's trees that are no leaves: which pages there are, at which blocks, and which of the links isn't on
/// the device yet.
///
/// A page that a link changed is handed out to be written, and reported when that is on the device. Links that come in
/// between are kept for the next time.
#[derive(Drop)]
pub struct TreeNodes {
    forest: Forest,
    // By number: a page that isn't there leads nowhere.
    pages: Vec<Mappings>,
    dirty_points: DirtyPages,
}

impl Model for TreeNodes {
    ghost use Rattle.block_map_tree.specs.Tree.{Tree, IsTree};

    ghost Value = { Tree };

    ghost view = { λ t. record { forest = t.forest; pages = t.pages.items; dirty_points = t.dirty_points } };

    ghost invariant = { λ t.
        IsTree (record { forest = t.forest; pages = t.pages.items; dirty_points = t.dirty_points }) };
}

impl TreeNodes {
    // It is handed the pages of the whole image, and takes those of its zone alone: at height 3 all trees take 300 MB
    // and more.
    /// The trees that a zone has of an image, whose sizes are within their limits; there are 1 to 60 zones. The opened pages
    /// of these trees are the roots and each page that is linked and no leaf, once and at its block. It takes the room for
    /// every page that a later link to these trees can bring.
    pub fn from_opened(
        alloc: Global,
        opened: &Opened,
        zone: u32,
        zones: u32,
    ) -> Result<TreeNodes, AllocError>
        requires sizes { IsGeometry opened.now.head.geometry }
        requires zone { zone < zones }
        requires zones { zones ≤ TREES }
        requires opened { IsOpened (forest_of opened.now zone zones) opened.now.pages.items }
        ensures { IfOk result (IsOpening (forest_of opened.now zone zones) opened.now.pages.items) }
    {
        let forest = Forest {
            geometry: opened.head.geometry,
            zone,
            zones,
        };
        let count = count_pages(&forest, &opened.pages);
        let dirty_points = DirtyPages::new(alloc, count as u32)?;
        let mut pages = repeated_with(alloc, Mappings::new, count)?;
        take_over(&mut pages, &opened.pages, &forest);
        Ok(TreeNodes {
            forest,
            pages,
            dirty_points,
        })
    }

    /// Follows a path from its root down: to the leaf, or to the highest page that isn't there. The path is one for trees of
    /// this height, and its tree is one of the zone's.
    pub fn find(&self, path: &Path) -> Found
        requires path { IsPath self.now.forest.geometry.height path.now }
        requires tree { IsTreeOf self.now.forest path.now.tree }
        ensures { IsFound self.now path.now result }
    {
        let slots = path.slots.as_slice();
        let mut found = Layout::of(&self.forest.geometry).root(path.tree);
        let mut index = 0;
        for depth in 0..self.forest.geometry.height - 1 {
            index = index * SLOTS + u32::from(slots[depth as usize]);
            let level = (self.forest.geometry.height - 2 - depth) as u8;
            let below = PageId {
                tree: path.tree,
                level,
                index,
            };
            match self.at(below) {
                Some(at) => found = at,
                None => return Found::Missing(level),
            }
        }
        Found::Leaf(found)
    }

    /// Links a page, which stands at this data block from now on, at a point of the journal. The page is on a path of the
    /// logical size, is no root, and the page above it is there. That page is then to be written.
    pub fn link(&mut self, page: PageId, at: Pbn, point: Point)
        requires page { IsLinkable self.old page }
        requires above { IsThere self.old (above page) }
        requires at { IsDataBlock self.old.forest.geometry at.0 }
        ensures { Links self.old self.new page at point }
    {
        let forest = self.forest;
        let number = number(page.parent(), &forest);
        self.pages[number].set(page.parent_slot(), Mapping::At(at));
        self.dirty_points.change(number, point);
    }

    /// Whether a page may be linked now: it is on a path of the logical size, is no root, and the page above it is there.
    pub fn may_link(&self, page: PageId) -> bool
        ensures { IsTrue result ↔ (IsLinkable self.now page × IsThere self.now (above page)) }
    {
        is_below_a_root(page, &self.forest) && self.at(page.parent()).is_some()
    }

    /// The block of a page; `None` exactly where the page is no root and isn't linked, or is of another zone's trees.
    pub fn at(&self, page: PageId) -> Option<Pbn>
        ensures some { IfSome result (IsAt self.now page) }
        ensures none { IfNone result ((at : Pbn) → IsAt self.now page at → ⊥) }
    {
        let height = self.forest.geometry.height;
        let level = u32::from(page.level);
        if !has_tree(&self.forest, page.tree)
            || level >= height
            || page.index >= width(height - 1 - level)
        {
            return None;
        }
        if level + 1 == height {
            return Some(Layout::of(&self.forest.geometry).root(page.tree));
        }
        match self.mapping(page.parent(), page.parent_slot()) {
            Mapping::At(at) => Some(at),
            Mapping::Zero | Mapping::Unmapped => None,
        }
    }

    // Long to prove: each clause is shown on each way out.
    /// Hands out the page that was changed first to be written: the one with the least point of a link since it was last
    /// handed out. `None` exactly where no page that isn't being written has such a point at or below `point`.
    pub fn take_expired(&mut self, point: Point, into: &mut MapPage) -> Option<PageId>
        ensures some { IfSome result (λ page. Expires self.old self.new point page into.new) }
        ensures none { IfNone result (NoneIsDue self.old.dirty_points point) }
        ensures same { IfNone result ((self.new ≡ self.old) × (into.new ≡ into.old)) }
    {
        let number = self.dirty_points.take_expired(point)?;
        let page = page_numbered(number, &self.forest);
        let Some(at) = self.at(page) else {
            unreachable!()
        };
        into.head = PageHead {
            geometry: self.forest.geometry,
            page,
            at,
        };
        into.mappings.copy_from(&self.pages[number]);
        Some(page)
    }

    /// The least point with which a page is due to be written: the first point of a link in those that aren't being written.
    /// `None` exactly where there is none.
    pub fn first_due(&self) -> Option<Point>
        ensures some { IfSome result (IsFirstDue self.now.dirty_points) }
        ensures none { IfNone result (NoneIsEverDue self.now.dirty_points) }
    {
        self.dirty_points.first_due()
    }

    /// Whether the page was handed out and its write isn't durable yet.
    pub fn is_being_written(&self, page: PageId) -> bool
        ensures { IsTrue result ↔ IsWriting self.now page }
    {
        if !is_inner(page, &self.forest) {
            return false;
        }
        let number = number(page, &self.forest);
        number < self.pages.len() && self.dirty_points.dirty_points(number).writing.is_some()
    }

    /// Says that a page that was handed out is on the device.
    pub fn written(&mut self, page: PageId)
        requires { IsWriting self.old page }
        ensures { Writes self.old self.new page }
    {
        self.dirty_points.written(number(page, &self.forest));
    }

    /// The point below which no link is unwritten; `None` exactly where none is.
    pub fn low_point(&self) -> Option<Point>
        ensures some { IfSome result (IsLowPoint self.now.dirty_points) }
        ensures none { IfNone result (AreClean self.now.dirty_points) }
    {
        self.dirty_points.low_point()
    }

    // What a slot of a page leads to.
    fn mapping(&self, page: PageId, slot: u16) -> Mapping
        requires { slot < PAGE_SLOTS }
        ensures { result ≡ mapping_of self.now page slot }
    {
        match self.pages.get(number(page, &self.forest)) {
            Some(mappings) => mappings.get(slot),
            None => Mapping::Unmapped,
        }
    }
}
