ghost use Rattle.std.specs.Prelude.{◌≡◌, ◌<◌, ◌≤◌, ◌↔◌, IfOk, IfErr, OnOk, OnErr, IfSome, IfNone, IsTrue, false};
ghost use Rattle.blk_base.specs.Pages.{leaf_of};
ghost use Rattle.blk_base.specs.Limits.{IsGeometry};
ghost use Rattle.block_map_tree.specs.OpenedTree.{IsOpened as AreOpened, forest_of};
ghost use Rattle.block_map_tree.specs.Tree.{IsAt, IsThere as IsLinked};
ghost use Rattle.blk_base.specs.declared.place.PageId.{PageId};
ghost use Rattle.blk_base.specs.declared.place.Pbn.{Pbn};
ghost use Rattle.page_codec.specs.Grammar.{HoldsMapping};
ghost use Rattle.page_codec.specs.declared.forms.MapPage.{MapPage};
ghost use Rattle.map_page_cache.specs.CachedPages.{IsAbsent, IsThere};
ghost use Rattle.map_zone.specs.declared.forms.Applied.TheVariants.{Done, NeedLeaf};
ghost use Rattle.map_zone.specs.ZoneMap.{IsOpened};
ghost use Rattle.map_zone.specs.Lookups.{AddsPage, Applies, HasPath, Installs, IsLooked, IsOwn, IsRefused, MayAddPage, MayApply, MayInstall, MayRemap, NeedsLeaf, Remaps};
ghost use Rattle.map_zone.specs.PageWrites.{IsClean, IsLeafFirst, IsLow, IsNodeFirst, IsOut, NoneDue, Settles, Takes, TakesLeaf, TakesNode};

use crate::points::{comes_first, lesser_point};
use crate::{Applied, Looked, NotInstalled};
use blk_base::{
    Block, CommittedEntry, Entry, Geometry, Layout, Lba, Mapping, Mappings, Opened, PageId, Pbn,
    Point, TREES,
};
use block_map_tree::{Forest, Found, TreeNodes, path};
use map_page_cache::Cache;
use page_codec::{MapPage, PageHead, decode, encode};
use std::alloc::{AllocError, Global};
use std::marker::Model;

/// The block map of the trees that one logical zone has.
#[derive(Drop)]
pub struct MapZone {
    forest: Forest,
    tree: TreeNodes,
    cache: Cache,
    // A page on its way between the cache or the tree and its bytes.
    page: MapPage,
}

impl Model for MapZone {
    ghost use Rattle.std.specs.Prelude.{◌≡◌};
    ghost use Rattle.map_zone.specs.ZoneMap.{IsZoneMap, ZoneMap};

    ghost Value = { ZoneMap };

    ghost view = { λ z. record { tree = z.tree; cache = z.cache } };

    ghost invariant = { λ z. record {
      forest : z.forest ≡ z.tree.forest;
      form : IsZoneMap (record { tree = z.tree; cache = z.cache });
    } };
}

impl MapZone {
    /// The map of a zone as an image is opened, whose sizes are within their limits; there are 1 to 60 zones. The opened
    /// pages are the roots and each page that is linked and no leaf, once and at its block. There are so many frames for
    /// leaves.
    pub fn new(
        alloc: Global,
        opened: &Opened,
        zone: u32,
        zones: u32,
        frames: u32,
    ) -> Result<MapZone, AllocError>
        requires sizes { IsGeometry opened.now.head.geometry }
        requires zone { zone < zones }
        requires zones { zones ≤ TREES }
        requires opened { AreOpened (forest_of opened.now zone zones) opened.now.pages.items }
        ensures { IfOk result (IsOpened opened.now zone zones frames) }
    {
        let geometry = opened.head.geometry;
        let cache = Cache::new(alloc, &geometry, frames)?;
        let tree = TreeNodes::from_opened(alloc, opened, zone, zones)?;
        Ok(MapZone {
            forest: Forest {
                geometry,
                zone,
                zones,
            },
            tree,
            cache,
            page: blank_page(&geometry),
        })
    }

    /// Whether an address is below the logical size, and in one of the zone's trees.
    pub fn owns(&self, at: Lba) -> bool
        ensures { IsTrue result ↔ IsOwn self.now at.0 }
    {
        at.0 < self.forest.geometry.logical
            && u32::from(at.leaf().tree) % self.forest.zones == self.forest.zone
    }

    /// What an address of the zone is mapped to, with all entries that were applied; or which leaf is to be read for that,
    /// which is linked and not in memory; or the highest page on its path that isn't linked.
    pub fn lookup(&self, at: Lba) -> Looked
        requires { IsOwn self.now at.0 }
        ensures { IsLooked self.now at.0 result }
    {
        match self.tree.find(&path(at, self.forest.geometry.height)) {
            Found::Missing(level) => Looked::NoPage(level),
            Found::Leaf(block) => self.in_leaf(at, block),
        }
    }

    // What an address is mapped to whose leaf stands at this block.
    fn in_leaf(&self, at: Lba, block: Pbn) -> Looked
        requires path { HasPath self.now at.0 }
        requires leaf { IsAt self.now.tree (leaf_of at.0) block }
        ensures { IsLooked self.now at.0 result }
    {
        let page = at.leaf();
        match self.cache.get(page) {
            Some(content) => Looked::Is(content.mappings.get(at.slot())),
            None => Looked::NeedLeaf(page, block),
        }
    }

    /// Whether an entry may be applied. A new mapping: its address is below the logical size, its leaf is linked, and what
    /// it is mapped to is unmapped, zeros or a data block. A new page: it is on a path of the logical size and no root, isn't
    /// linked, the page above it is, and its block is a data block.
    pub fn may_apply(&self, entry: &CommittedEntry) -> bool
        ensures { IsTrue result ↔ MayApply self.now entry.now.entry }
    {
        match entry.entry {
            Entry::Remap { at, new, .. } => self.may_remap(at, new),
            Entry::NewPage { page, at } => self.may_add(page, at),
        }
    }

    // Whether an address may be mapped so.
    fn may_remap(&self, at: Lba, mapping: Mapping) -> bool
        ensures { IsTrue result ↔ MayRemap self.now at.0 mapping }
    {
        if at.0 >= self.forest.geometry.logical {
            return false;
        }
        if !self.is_linked(at.leaf()) {
            return false;
        }
        self.holds(mapping)
    }

    // Whether a page may be linked at a block, and isn't linked.
    fn may_add(&self, page: PageId, at: Pbn) -> bool
        ensures { IsTrue result ↔ MayAddPage self.now page at }
    {
        if !self.tree.may_link(page) {
            return false;
        }
        if self.is_linked(page) {
            return false;
        }
        Layout::of(&self.forest.geometry).is_data_block(at)
    }

    // Whether a page is a root or is linked.
    fn is_linked(&self, page: PageId) -> bool
        ensures { IsTrue result ↔ IsLinked self.now.tree page }
    {
        match self.tree.at(page) {
            Some(_) => true,
            None => false,
        }
    }

    // Whether a leaf can hold a mapping.
    fn holds(&self, mapping: Mapping) -> bool
        ensures { IsTrue result ↔ HoldsMapping self.now.tree.forest.geometry 0 mapping }
    {
        match mapping {
            Mapping::At(block) => Layout::of(&self.forest.geometry).is_data_block(block),
            Mapping::Zero | Mapping::Unmapped => true,
        }
    }

    /// Applies an entry of a committed block, which may be applied. One that maps an address sets its slot, where its leaf is
    /// in memory; where it isn't, the leaf is to be installed first, and nothing has changed. One for a new page links it.
    pub fn apply(&mut self, entry: &CommittedEntry) -> Applied
        requires { MayApply self.old entry.now.entry }
        ensures { Applies self.old self.new entry.now.entry entry.now.point result }
    {
        match entry.entry {
            Entry::Remap { at, new, .. } => self.remap(at, new, entry.point),
            Entry::NewPage { page, at } => {
                self.link(page, at, entry.point);
                Applied::Done
            }
        }
    }

    // Maps an address whose leaf is linked.
    fn remap(&mut self, at: Lba, mapping: Mapping, point: Point) -> Applied
        requires { MayRemap self.old at.0 mapping }
        ensures done { result ≡ Done → Remaps self.old self.new at.0 mapping point }
        ensures needs { (page : PageId) (block : Pbn) → result ≡ NeedLeaf page block →
            NeedsLeaf self.old at.0 page block × (self.new ≡ self.old) }
    {
        let page = at.leaf();
        if self.is_cached(page) {
            self.cache.set(page, at.slot(), mapping, point);
            return Applied::Done;
        }
        Applied::NeedLeaf(page, self.block_of(page))
    }

    // Links a page that isn't linked.
    fn link(&mut self, page: PageId, at: Pbn, point: Point)
        requires { MayAddPage self.old page at }
        ensures { AddsPage self.old self.new page at point }
    {
        self.tree.link(page, at, point);
    }

    // Whether a page is in memory.
    fn is_cached(&self, page: PageId) -> bool
        ensures yes { IsTrue result → (content : MapPage) × IsThere self.now.cache page content }
        ensures no { result ≡ false → IsAbsent self.now.cache page }
    {
        match self.cache.get(page) {
            Some(_) => true,
            None => false,
        }
    }

    // The block of a page that is linked.
    fn block_of(&self, page: PageId) -> Pbn
        requires { IsLinked self.now.tree page }
        ensures { IsAt self.now.tree page result }
    {
        match self.tree.at(page) {
            Some(at) => at,
            None => unreachable!(),
        }
    }

    /// Whether a page is a leaf that is linked and isn't in memory.
    pub fn may_install(&self, page: PageId) -> bool
        ensures { IsTrue result ↔ MayInstall self.now page }
    {
        if page.level > 0 {
            return false;
        }
        if !self.is_linked(page) {
            return false;
        }
        !self.is_cached(page)
    }

    // Long to prove: each clause is shown on each way out.
    /// Takes a leaf into memory, of which this was read, and which is linked and isn't there. Where no frame is empty, it gives
    /// up the page that has been clean for the longest time.
    ///
    /// It is refused with the page's fault exactly where the bytes aren't those of the leaf at its block, and else with
    /// `NoFrame` exactly where every frame has a page that is dirty or being written. Then nothing has changed.
    pub fn install(&mut self, page: PageId, read: &Block) -> Result<(), NotInstalled>
        requires { MayInstall self.old page }
        ensures ok { OnOk result (Installs self.old self.new page read.now) }
        ensures refused { IfErr result (IsRefused self.old page read.now) }
        ensures same { OnErr result (self.new ≡ self.old) }
    {
        let head = PageHead {
            geometry: self.forest.geometry,
            page,
            at: self.block_of(page),
        };
        if let Err(fault) = decode(read, &head, &mut self.page) {
            return Err(NotInstalled::Page(fault));
        }
        match self.cache.install(page, &self.page) {
            Ok(()) => Ok(()),
            Err(_) => Err(NotInstalled::NoFrame),
        }
    }

    /// Hands out a page to be written, with all entries that were applied to it: its bytes, which page it is, and its block. Of
    /// the pages that aren't being written it is the one with the least first dirty point, if that is at most this point, and a
    /// leaf where that of another page is the same. It is being written from now on, and what is applied to it isn't in that
    /// write.
    ///
    /// `None` exactly where no page that isn't being written has a first dirty point at or below this one.
    pub fn take_expired(&mut self, point: Point, into: &mut Block) -> Option<(PageId, Pbn)>
        ensures some { IfSome result
            (λ (page, at). Takes self.old self.new point page at into.new) }
        ensures none { IfNone result (NoneDue self.old point) }
        ensures same { IfNone result ((self.new ≡ self.old) × (into.new ≡ into.old)) }
    {
        if self.is_leaf_first() {
            self.take_leaf(point, into)
        } else {
            self.take_node(point, into)
        }
    }

    // Whether a leaf is due to be written, and no other page before it.
    fn is_leaf_first(&self) -> bool
        ensures yes { IsTrue result → IsLeafFirst self.now }
        ensures no { result ≡ false → IsNodeFirst self.now }
    {
        comes_first(self.cache.first_due(), self.tree.first_due())
    }

    // Hands out a leaf to be written.
    // Long to prove: each clause is shown on each way out.
    fn take_leaf(&mut self, point: Point, into: &mut Block) -> Option<(PageId, Pbn)>
        requires { IsLeafFirst self.old }
        ensures some { IfSome result
            (λ (page, at). TakesLeaf self.old self.new point page at into.new) }
        ensures none { IfNone result (NoneDue self.old point) }
        ensures same { IfNone result ((self.new ≡ self.old) × (into.new ≡ into.old)) }
    {
        let page = self.cache.take_expired(point, &mut self.page)?;
        encode(&self.page, into);
        Some((page, self.page.head.at))
    }

    // Hands out a page that is no leaf to be written.
    fn take_node(&mut self, point: Point, into: &mut Block) -> Option<(PageId, Pbn)>
        requires { IsNodeFirst self.old }
        ensures some { IfSome result
            (λ (page, at). TakesNode self.old self.new point page at into.new) }
        ensures none { IfNone result (NoneDue self.old point) }
        ensures same { IfNone result ((self.new ≡ self.old) × (into.new ≡ into.old)) }
    {
        let page = self.tree.take_expired(point, &mut self.page)?;
        encode(&self.page, into);
        Some((page, self.page.head.at))
    }

    /// Whether a page was handed out and its write isn't durable yet.
    pub fn is_being_written(&self, page: PageId) -> bool
        ensures { IsTrue result ↔ IsOut self.now page }
    {
        self.cache.is_being_written(page) || self.tree.is_being_written(page)
    }

    /// The write of a page that was handed out is durable: a flush covers it. What was applied to it since isn't.
    pub fn written(&mut self, page: PageId)
        requires { IsOut self.old page }
        ensures { Settles self.old self.new page }
    {
        if page.level == 0 {
            self.cache.written(page);
        } else {
            self.tree.written(page);
        }
    }

    /// The least point of an entry that isn't durable; `None` exactly where each is.
    pub fn low_point(&self) -> Option<Point>
        ensures some { IfSome result (IsLow self.now) }
        ensures none { IfNone result (IsClean self.now) }
    {
        lesser_point(self.cache.low_point(), self.tree.low_point())
    }
}

// A page of an image of these sizes that leads nowhere.
fn blank_page(geometry: &Geometry) -> MapPage {
    MapPage {
        head: PageHead {
            geometry: *geometry,
            page: PageId {
                tree: 0,
                level: 0,
                index: 0,
            },
            at: Pbn(0),
        },
        mappings: Mappings::new(),
    }
}
