ghost use Rattle.std.specs.Prelude.{◌≡◌, ◌+◌, ◌*◌, ◌%◌, ◌<◌, ◌≤◌, ◌^◌, [], ◌++◌, length, IfOk, IfSome, IfNone, vec_len, vec_capacity};
ghost use Rattle.index_advice.specs.Books.{number_after, chapters_elsewhere, pages_elsewhere, pages_of, closed, added, learnt, finished, is_same_place};
ghost use Rattle.std.specs.Map.{keys_of};
ghost use Rattle.uds_chapters.specs.Chapters.{location_of};
ghost use Rattle.uds_chapters.specs.Names.{AreRising};
ghost use Rattle.uds_index.specs.Held.{KeepsPage, records_of};
ghost use Rattle.uds_index.specs.Looks.{AsksOf, Finds};
ghost use Rattle.uds_index.specs.Places.{IsKept, WasClosed};
ghost use Rattle.uds_index.specs.Rooms.{count_at, place_of_chapter};
ghost use Rattle.uds_index.specs.Tags.{AreListed, IsListed, IsNewestToList};
ghost use Rattle.index_advice.specs.Advices.{TakesDue, HasDuePage};

use crate::index_search::{Region, find_kept};
use crate::kept_pages::{chapter_of, keep_page};
use crate::page::Page;
use crate::tags::TagList;
use blk_base::{Block, Pbn};
use block_names::Name;
use index_advice::Look;
use lru::LruCache;
use std::alloc::{AllocError, Global};
use std::marker::Model;
use uds_chapters::{Added, Chapter, OpenChapter, Record, location};

/// The greatest number that a chapter has.
const LAST: u32 = 4_294_967_294;

/// What the index knows, which contracts see as its book. There is room for all that it will keep, so that no call asks for
/// memory.
#[derive(Drop)]
pub struct Volume {
    nonce: u64,
    first: u32,
    places: u32,
    kept: Vec<Chapter>,
    unclosed: OpenChapter,
    due: Vec<Page>,
}

impl Model for Volume {
    ghost use Rattle.std.specs.Prelude.{◌*◌, ◌≤◌, vec_capacity};
    ghost use Rattle.index_advice.specs.Books.{Book};
    ghost use Rattle.uds_index.specs.Places.{IsKept};

    ghost Value = { Book };

    ghost view = { λ v. record {
      nonce = v.nonce;
      first = v.first;
      places = v.places;
      kept = v.kept.items;
      unclosed = v.unclosed;
      due = v.due.items;
    } };

    ghost invariant = { λ v. record {
      kept : IsKept (record {
        nonce = v.nonce;
        first = v.first;
        places = v.places;
        kept = v.kept.items;
        unclosed = v.unclosed;
        due = v.due.items;
      });
      room : 4 * v.places ≤ vec_capacity v.kept;
      room_for_pages : 4 * v.places ≤ vec_capacity v.due;
    } };
}

impl Volume {
    /// No chapter: `places` places for chapters, in four index blocks each, from the block `first` on.
    pub(crate) fn new(
        alloc: Global,
        nonce: u64,
        first: u32,
        places: u32,
    ) -> Result<Volume, AllocError>
        requires some { 0 < places }
        requires blocks { first + 4 * places < 2 ^ 32 }
        ensures { IfOk result (λ volume.
            volume
            ≡ record
            { nonce = nonce; first = first; places = places; kept = []; unclosed = []; due = [] }) }
    {
        let room = 4 * places as usize;
        let kept = Vec::with_capacity(alloc, room)?;
        let due = Vec::with_capacity(alloc, room)?;
        Ok(Volume {
            nonce,
            first,
            places,
            kept,
            unclosed: OpenChapter::new(),
            due,
        })
    }

    /// Learns that a block with this name is stored here. Where the open chapter has 680 other names it is closed first; but
    /// while pages are to be written, and behind the last number, nothing is learnt. Whether a chapter was closed.
    pub fn learn(&mut self, name: &Name, at: Pbn) -> bool
        ensures learnt { self.new ≡ learnt (record { name = name.now; at = at }) self.old }
        ensures closed { WasClosed result self.old self.new }
    {
        let Some(number) = next_number(&self.kept) else {
            return false;
        };
        match self.unclosed.add(name, at) {
            Added::New | Added::Replaced => false,
            Added::Full => {
                if !self.due.is_empty() {
                    return false;
                }
                self.close(number);
                self.add(name, at);
                true
            }
        }
    }

    /// Closes the open chapter, if it has a record and a number, so that its pages are to be written. Whether it did.
    pub fn finish(&mut self) -> bool
        ensures finished { self.new ≡ finished self.old }
        ensures closed { WasClosed result self.old self.new }
    {
        let Some(number) = next_number(&self.kept) else {
            return false;
        };
        if self.unclosed.records().is_empty() {
            return false;
        }
        self.close(number);
        true
    }

    /// The next page that is to be written, and its block; `None` exactly where there is none.
    pub fn write_due(&mut self, into: &mut Block) -> Option<Pbn>
        ensures some { IfSome result (λ at. TakesDue self.old self.new at.0) }
        ensures filled { IfSome result (λ at. HasDuePage self.old into.new) }
        ensures none { IfNone result ((self.old.due ≡ []) × (self.new ≡ self.old)) }
    {
        if self.due.is_empty() {
            return None;
        }
        let page = self.due.remove(0);
        let Some(chapter) = chapter_of(&self.kept, page.number()) else {
            unreachable!()
        };
        chapter.page(page.page(), self.nonce, into);
        let place = page.number() % self.places;
        Some(Pbn(self.first + 4 * place + u32::from(page.page())))
    }

    /// Keeps a page of the chapter with this number, which was loaded, while no page is to be written. Of a name that its
    /// chapter has already, the location there counts.
    pub(crate) fn keep(&mut self, number: u32, page: &[Record])
        requires written { self.old.due ≡ [] }
        requires rising { AreRising page.now }
        requires few { length (records_of number self.old.kept) + length page.now ≤ 680 }
        requires room { count_at (place_of_chapter self.old.places)
            (number % self.old.places) self.old.kept < 4 }
        ensures kept { KeepsPage number page.now self.old.kept self.new.kept }
        ensures same { self.new ≡ record self.old { kept = self.new.kept } }
    {
        keep_page(&mut self.kept, number, page);
    }

    // Adds a record to the open chapter, which is empty, if that has a number.
    fn add(&mut self, name: &Name, at: Pbn)
        requires { self.old.unclosed ≡ [] }
        ensures { self.new ≡ added (record { name = name.now; at = at }) self.old }
    {
        if next_number(&self.kept).is_some() {
            self.unclosed.add(name, at);
        }
    }

    /// Lists the tags of all chapters that are kept.
    pub(crate) fn list_tags(&self, tags: &mut TagList)
        requires none { tags.old.tags ≡ [] }
        requires room { 2720 * self.now.places ≤ tags.old.room }
        ensures { IsListed self.now tags.new }
    {
        list_all(&self.kept, tags);
    }

    /// Lists the tags of the newest chapter, in place of those of the chapters in whose index blocks it stands.
    pub(crate) fn list_newest(&self, tags: &mut TagList)
        requires { IsNewestToList self.now tags.old }
        ensures { IsListed self.now tags.new }
    {
        let Some(newest) = self.kept.first() else {
            unreachable!()
        };
        tags.leave_out(self.places, newest.number());
        tags.add(newest);
    }

    /// The location that the open chapter has for a name.
    pub fn open_location(&self, name: &Name) -> Option<Pbn>
        ensures { result ≡ location_of name.now self.now.unclosed }
    {
        location(self.unclosed.records(), name)
    }

    /// The chapters that are kept, the newest first.
    pub fn kept(&self) -> &[Chapter]
        ensures value { result.now ≡ self.now.kept }
        ensures order { IsKept self.now }
    {
        &self.kept
    }

    /// Where the index stands on the device.
    pub fn region(&self) -> Region
        ensures { result ≡ record { first = self.now.first; places = self.now.places } }
    {
        Region {
            first: self.first,
            places: self.places,
        }
    }

    /// How many chapters are kept.
    pub fn chapters(&self) -> u32
        ensures { result ≡ length self.now.kept }
    {
        self.kept.len() as u32
    }

    /// What is known of a name, where the pages of these blocks are cached, and these were given in the look that is under way.
    pub(crate) fn find(
        &self,
        tags: &TagList,
        name: &Name,
        cache: &LruCache<u32, ()>,
        given: &[u32],
    ) -> Look
        requires { IsListed self.now tags.now }
        ensures finds { Finds self.now (keys_of cache.now.entries) given.now name.now result }
        ensures asks { AsksOf self.now (keys_of cache.now.entries) given.now name.now result }
    {
        match self.open_location(name) {
            Some(at) => Look::Known(at),
            None => find_kept(self.region(), &self.kept, tags, name, cache, given),
        }
    }

    // Closes the open chapter under this number, in place of what stood in its index blocks.
    // What was kept in its index blocks is replaced, also two chapters that a stop left there. All four pages are to be
    // written, also those without records: else stale pages would stand beside it.
    fn close(&mut self, number: u32)
        requires number { number ≡ number_after self.old.kept }
        ensures closed { self.new ≡ closed self.old }
    {
        let places = self.places;
        leave_out_chapters(&mut self.kept, places, number);
        leave_out_pages(&mut self.due, places, number);
        let chapter = self.unclosed.close(number);
        let Ok(()) = self.kept.insert(0, chapter) else {
            unreachable!()
        };
        push_pages(&mut self.due, number);
    }
}

// The number of the chapter that is closed next, if there is one.
fn next_number(kept: &[Chapter]) -> Option<u32>
    ensures some { IfSome result (λ number.
        (number ≡ number_after kept.now) × (number ≤ 4294967294)) }
    ensures none { IfNone result (4294967294 < number_after kept.now) }
{
    let Some(newest) = kept.first() else {
        return Some(0);
    };
    let number = newest.number();
    if number < LAST {
        Some(number + 1)
    } else {
        None
    }
}

/// Whether two chapters stand in the same index blocks.
// Of other numbers that are near none does, which is told without dividing.
pub fn is_same_place(places: u32, number: u32, other: u32) -> bool
    requires { 0 < places }
    ensures { result ≡ is_same_place places number other }
{
    let gap = number.abs_diff(other);
    if 0 < gap && gap < places {
        return false;
    }
    number % places == other % places
}

// Leaves out the chapters that stand where this one does.
fn leave_out_chapters(kept: &mut Vec<Chapter>, places: u32, number: u32)
    requires { 0 < places }
    ensures items { kept.new.items ≡ chapters_elsewhere places number kept.old.items }
    ensures len { vec_len kept.new ≤ vec_len kept.old }
    ensures capacity { vec_capacity kept.new ≡ vec_capacity kept.old }
{
    kept.retain(|chapter| !is_same_place(places, chapter.number(), number));
}

// Leaves out the pages of such chapters.
fn leave_out_pages(due: &mut Vec<Page>, places: u32, number: u32)
    requires { 0 < places }
    ensures items { due.new.items ≡ pages_elsewhere places number due.old.items }
    ensures len { vec_len due.new ≤ vec_len due.old }
    ensures capacity { vec_capacity due.new ≡ vec_capacity due.old }
{
    due.retain(|page| !is_same_place(places, page.number(), number));
}

// Adds the four pages of a chapter.
fn push_pages(due: &mut Vec<Page>, number: u32)
    requires { vec_len due.old + 4 ≤ vec_capacity due.old }
    ensures items { due.new.items ≡ due.old.items ++ pages_of number }
    ensures capacity { vec_capacity due.new ≡ vec_capacity due.old }
{
    due.push_reserved(Page::new(number, 0));
    due.push_reserved(Page::new(number, 1));
    due.push_reserved(Page::new(number, 2));
    due.push_reserved(Page::new(number, 3));
}

/// Lists the tags of these chapters, of which the newest stands first, in a list that has none.
pub fn list_all(kept: &[Chapter], tags: &mut TagList)
    requires none { tags.old.tags ≡ [] }
    requires room { 680 * length kept.now ≤ tags.old.room }
    ensures listed { AreListed kept.now tags.new.tags }
    ensures room { tags.new.room ≡ tags.old.room }
{
    let count = kept.len();
    for listed in 0..count {
        tags.add(&kept[count - 1 - listed]);
    }
}
