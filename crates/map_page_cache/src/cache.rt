ghost use Rattle.std.specs.Prelude.{◌≡◌, ◌<◌, IfOk, OnOk, OnErr, ◌⊎◌, IfSome, IfNone, IsTrue, ◌↔◌, length};
ghost use Rattle.page_codec.specs.declared.forms.MapPage.{MapPage};
ghost use Rattle.page_codec.specs.Grammar.{HoldsMapping};
ghost use Rattle.dirty_pages.specs.DirtyPoints.{clean, dirty_points_at, NoneIsDue, IsFirstDue, NoneIsEverDue, IsLowPoint, AreClean};
ghost use Rattle.map_page_cache.specs.CachedPages.{CachedPages, no_pages, IsPageOf, IsCache, IsThere, IsAbsent, Fills, GivesUp, HasNoFrame, with_mapping, Sets, Expires, IsWriting, Writes};
ghost use Rattle.map_page_cache.specs.Frames.{IsAt};
ghost use Rattle.map_page_cache.specs.Turns.{IsLongestClean};

use crate::NoFrame;
use crate::clean::CleanFrames;
use crate::index::PageIndex;
use blk_base::{Geometry, Mapping, Mappings, PAGE_SLOTS, PageId, Point};
use dirty_pages::DirtyPages;
use page_codec::MapPage;
use std::alloc::{AllocError, Global};
use std::marker::Model;

/// The leaf pages of an image that are in memory, and of each the points from which on it isn't durable.
///
/// A page that was changed is handed out to be written, and reported when that write is durable. What is set in between is
/// kept for the next time.
#[derive(Drop)]
pub struct Cache {
    geometry: Geometry,
    room: u32,
    // By frame; the frames behind these are empty.
    pages: Vec<MapPage>,
    dirty_points: DirtyPages,
    // The frame of each page, and the order in which pages are given up.
    index: PageIndex,
    clean: CleanFrames,
}

impl Model for Cache {
    ghost use Rattle.std.specs.Prelude.{◌≤◌, length, vec_capacity};
    ghost use Rattle.map_page_cache.specs.CachedPages.{CachedPages, IsCache};
    ghost use Rattle.map_page_cache.specs.Frames.{Follows, AreFlags};
    ghost use Rattle.map_page_cache.specs.Turns.{flags_of};

    ghost Value = { CachedPages };

    ghost view = { λ c. record {
      geometry = c.geometry;
      frames = c.room;
      pages = c.pages.items;
      dirty_points = c.dirty_points;
      turns = c.clean;
    } };

    ghost invariant = { λ c. record {
      form : IsCache (record {
        geometry = c.geometry;
        frames = c.room;
        pages = c.pages.items;
        dirty_points = c.dirty_points;
        turns = c.clean;
      });
      room : c.room ≤ vec_capacity c.pages;
      index : Follows c.index c.room c.pages.items;
      clean : AreFlags (flags_of c.clean) c.room (length c.pages.items) c.dirty_points;
    } };
}

impl Cache {
    // It knows the image's sizes, so that it can ask that each page is of that image, and says so of each that it gives
    // back.
    /// A cache with so many frames for pages of an image with these sizes, all of which are empty.
    pub fn new(alloc: Global, geometry: &Geometry, frames: u32) -> Result<Cache, AllocError>
        ensures cache { IfOk result (λ cache. cache ≡ no_pages geometry.now frames) }
        ensures form { IfOk result IsCache }
    {
        Ok(Cache {
            geometry: *geometry,
            room: frames,
            pages: Vec::with_capacity(alloc, frames as usize)?,
            dirty_points: DirtyPages::new(alloc, frames)?,
            index: PageIndex::new(alloc, frames)?,
            clean: CleanFrames::new(alloc, frames)?,
        })
    }

    /// The page as it is now, with all entries that were set in it; `None` exactly where it wasn't installed or was given
    /// up since.
    pub fn get(&self, page: PageId) -> Option<&MapPage>
        ensures some { IfSome result (λ found. IsThere self.now page found.now) }
        ensures none { IfNone result (IsAbsent self.now page) }
        ensures form { IsCache self.now }
    {
        let frame = self.index.find(page)?;
        Some(&self.pages[frame as usize])
    }

    /// Takes a page that was just read and isn't there. Where no frame is empty, it gives up one clean page: the one that
    /// has been clean for the longest time. The page is the one that is named, of the cache's image, and as the format of
    /// pages can hold it.
    ///
    /// It is refused exactly where every frame has a page that is dirty or being written.
    pub fn install(&mut self, page: PageId, from: &MapPage) -> Result<(), NoFrame>
        requires absent { IsAbsent self.old page }
        requires named { from.now.head.page ≡ page }
        requires held { IsPageOf self.old.geometry from.now }
        ensures ok { OnOk result
            (Fills self.old self.new from.now ⊎ GivesUp self.old self.new from.now) }
        ensures refused { OnErr result (HasNoFrame self.old) }
        ensures same { OnErr result (self.new ≡ self.old) }
    {
        if self.pages.len() < self.room as usize {
            self.fill(page, from);
            return Ok(());
        }
        let Some(frame) = self.clean.first() else {
            return Err(NoFrame);
        };
        self.replace(frame, page, from);
        Ok(())
    }

    // The frame of a page that is there.
    fn frame_of(&self, page: PageId) -> usize
        requires { (content : MapPage) × IsThere self.now page content }
        ensures { IsAt self.now.pages page result }
    {
        match self.index.find(page) {
            Some(frame) => frame as usize,
            None => unreachable!(),
        }
    }

    // Takes a page into an empty frame.
    fn fill(&mut self, page: PageId, from: &MapPage)
        requires absent { IsAbsent self.old page }
        requires named { from.now.head.page ≡ page }
        requires held { IsPageOf self.old.geometry from.now }
        requires room { length self.old.pages < self.old.frames }
        ensures { Fills self.old self.new from.now }
    {
        let frame = self.pages.len();
        self.pages.push_reserved(copy_of(from));
        self.index.insert(page, frame as u32);
        self.clean.set(frame, true);
    }

    // Gives up the clean page of this frame, and takes a page in its place.
    fn replace(&mut self, frame: usize, page: PageId, from: &MapPage)
        requires absent { IsAbsent self.old page }
        requires named { from.now.head.page ≡ page }
        requires held { IsPageOf self.old.geometry from.now }
        requires full { length self.old.pages ≡ self.old.frames }
        requires inside { frame < length self.old.pages }
        requires clean { dirty_points_at self.old.dirty_points frame ≡ clean }
        requires longest { IsLongestClean self.old.turns frame }
        ensures { GivesUp self.old self.new from.now }
    {
        let content = &mut self.pages[frame];
        self.index.remove(content.head.page);
        self.index.insert(page, frame as u32);
        copy_page(from, content);
        self.clean.set(frame, true);
    }

    /// Maps a slot of a page that is there, by the entry of this point, to what the format of pages can hold there.
    pub fn set(&mut self, page: PageId, slot: u16, mapping: Mapping, point: Point)
        requires there { (content : MapPage) × IsThere self.old page content }
        requires slot { slot < PAGE_SLOTS }
        requires held { HoldsMapping self.old.geometry page.level mapping }
        ensures { Sets self.old self.new page slot mapping point }
    {
        let frame = self.frame_of(page);
        map_slot(&mut self.pages[frame], slot, mapping);
        self.dirty_points.change(frame, point);
        self.clean.set(frame, false);
    }

    /// Hands out a page to be written, with all entries that were set in it: of the pages that aren't being written the one
    /// with the least first dirty point, if that is at most this point. It is being written from now on, and what is set in
    /// it isn't in that write.
    ///
    /// `None` exactly where no page that isn't being written has a first dirty point at or below this one.
    pub fn take_expired(&mut self, point: Point, into: &mut MapPage) -> Option<PageId>
        ensures some { IfSome result (λ page. Expires self.old self.new point page into.new) }
        ensures none { IfNone result (NoneIsDue self.old.dirty_points point) }
        ensures same { IfNone result ((self.new ≡ self.old) × (into.new ≡ into.old)) }
    {
        let frame = self.dirty_points.take_expired(point)?;
        copy_page(&self.pages[frame], into);
        Some(into.head.page)
    }

    /// Whether the page was handed out and its write isn't durable yet.
    pub fn is_being_written(&self, page: PageId) -> bool
        ensures { IsTrue result ↔ IsWriting self.now page }
    {
        match self.index.find(page) {
            Some(frame) => self
                .dirty_points
                .dirty_points(frame as usize)
                .writing
                .is_some(),
            None => false,
        }
    }

    /// The least point with which a page is due to be written: the first dirty point of those that aren't being written.
    /// `None` exactly where there is none.
    pub fn first_due(&self) -> Option<Point>
        ensures some { IfSome result (IsFirstDue self.now.dirty_points) }
        ensures none { IfNone result (NoneIsEverDue self.now.dirty_points) }
    {
        self.dirty_points.first_due()
    }

    /// The write of a page that was handed out is durable: a flush covers it. What was set since isn't.
    pub fn written(&mut self, page: PageId)
        requires { IsWriting self.old page }
        ensures { Writes self.old self.new page }
    {
        let frame = self.frame_of(page);
        self.dirty_points.written(frame);
        let dirty_points = self.dirty_points.dirty_points(frame);
        self.clean.set(frame, dirty_points.is_clean());
    }

    /// The least point of an entry that isn't durable; `None` exactly where each page is clean.
    pub fn low_point(&self) -> Option<Point>
        ensures some { IfSome result (IsLowPoint self.now.dirty_points) }
        ensures none { IfNone result (AreClean self.now.dirty_points) }
    {
        self.dirty_points.low_point()
    }
}

// Maps a slot of a page.
fn map_slot(content: &mut MapPage, slot: u16, mapping: Mapping)
    requires { slot < PAGE_SLOTS }
    ensures { content.new ≡ with_mapping slot mapping content.old }
{
    content.mappings.set(slot, mapping);
}

// Copies a page.
fn copy_page(from: &MapPage, into: &mut MapPage)
    ensures { into.new ≡ from.now }
{
    into.head = from.head;
    into.mappings.copy_from(&from.mappings);
}

// A copy of a page.
fn copy_of(from: &MapPage) -> MapPage
    ensures { result ≡ from.now }
{
    let mut mappings = Mappings::new();
    mappings.copy_from(&from.mappings);
    MapPage {
        head: from.head,
        mappings,
    }
}
