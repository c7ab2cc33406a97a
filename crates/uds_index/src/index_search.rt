ghost use Rattle.std.specs.Prelude.{◌≡◌, ◌+◌, ◌*◌, ◌%◌, ◌<◌, ◌^◌, ◌↔◌, IsTrue, take, filter, nat_eq, All, AllPairs};
ghost use Rattle.std.specs.Map.{keys_of};
ghost use Rattle.block_names.specs.Names.{tag_of};
ghost use Rattle.index_advice.specs.Books.{has_tag};
ghost use Rattle.uds_index.specs.Tags.{AreListed};
ghost use Rattle.uds_index.specs.Looks.{AsksInOrder, IsPageAt, IsNamePage, IsNew, FindsKept, place_of_block};
ghost use Rattle.index_advice.specs.Orders.{IsChapter, IsNewer};
ghost use Rattle.uds_index.specs.Rooms.{count_at};

use crate::kept_pages::chapter_of;
use crate::tags::TagList;
use blk_base::Pbn;
use block_names::{Name, tag};
use index_advice::Look;
use lru::LruCache;
use uds_chapters::{Chapter, location, place_of};

/// How many records a page has.
const PAGE_RECORDS: usize = 170;

/// How many chapters a look searches at most.
const SEARCHED: usize = 4;

/// How many pages a look asks for at most, and how many of one chapter.
const ASKED: usize = 12;

const ASKED_OF_CHAPTER: usize = 3;

/// Where the index stands on the device.
#[derive(Clone, Copy)]
pub struct Region {
    /// The first index block.
    pub first: u32,
    /// How many chapters there is room for.
    pub places: u32,
}

// What the kept chapters say of a name: the newest record in the four newest that have its tag, or that there is none, or
// which of their pages is to be read first.
pub(crate) fn find_kept(
    region: Region,
    kept: &[Chapter],
    tags: &TagList,
    name: &Name,
    cache: &LruCache<u32, ()>,
    given: &[u32],
) -> Look
    requires some { 0 < region.places }
    requires blocks { region.first + 4 * region.places < 2 ^ 32 }
    requires chapters { All IsChapter kept.now }
    requires order { AllPairs IsNewer kept.now }
    requires listed { AreListed kept.now tags.now.tags }
    ensures finds { FindsKept region
        (take 4 (filter (has_tag (tag_of name.now)) kept.now))
        (keys_of cache.now.entries) given.now name.now result }
    ensures asks { AsksInOrder region
        (take 4 (filter (has_tag (tag_of name.now)) kept.now))
        (keys_of cache.now.entries) given.now name.now result }
{
    let tagged = tags.with_tag(tag(name));
    let newest = &tagged[..tagged.len().min(SEARCHED)];
    for one in newest {
        let Some(chapter) = chapter_of(kept, one.number) else {
            unreachable!()
        };
        let at = page_of(region, chapter, name);
        if may_read(region.first, at, cache, given) {
            return Look::Read(Pbn(at));
        }
        if let Some(at) = location(chapter.records(), name) {
            return Look::Known(at);
        }
    }
    Look::Nothing
}

// The index block of the page on which a name stands in a chapter, or would stand.
fn page_of(region: Region, chapter: &Chapter, name: &Name) -> u32
    requires some { 0 < region.places }
    requires blocks { region.first + 4 * region.places < 2 ^ 32 }
    ensures page { IsPageAt region.first region.places result chapter.now }
    ensures named { IsNamePage region.first region.places name.now result chapter.now }
{
    let records = chapter.records();
    let place = match place_of(records, name) {
        Ok(place) => place,
        Err(place) => place,
    };
    let page = (place / PAGE_RECORDS).min(3);
    region.first + 4 * (chapter.number() % region.places) + page as u32
}

// Whether a look may ask for this block.
fn may_read(first: u32, at: u32, cache: &LruCache<u32, ()>, given: &[u32]) -> bool
    ensures { IsTrue result ↔ IsNew first (keys_of cache.now.entries) given.now at }
{
    if cache.contains(&at) {
        return false;
    }
    if given.contains(&at) {
        return false;
    }
    given.len() < ASKED && given_of_chapter(first, at, given) < ASKED_OF_CHAPTER
}

// How many of the blocks stand in the same place of the index as this one.
fn given_of_chapter(first: u32, at: u32, given: &[u32]) -> usize
    ensures { result ≡ count_at (place_of_block first) (place_of_block first at) given.now }
{
    let mut count = 0;
    for block in given {
        count += usize::from(is_same_place(first, *block, at));
    }
    count
}

// Whether two index blocks stand in the same place.
fn is_same_place(first: u32, block: u32, other: u32) -> bool
    ensures { result ≡ nat_eq (place_of_block first block) (place_of_block first other) }
{
    block.saturating_sub(first) / 4 == other.saturating_sub(first) / 4
}
