ghost use Rattle.std.specs.Prelude.{◌≡◌, ◌+◌, ◌*◌, ◌/◌, ◌%◌, ◌<◌, ◌≤◌, ℕ, List, [], None, false, Option, IfOk, IfSome, IfNone, OnErr, length, nat_eq, option_map};
ghost use Rattle.blk_base.specs.Limits.{IsGeometry};
ghost use Rattle.blk_base.specs.Regions.{first_index_of, needed_blocks};
ghost use Rattle.disk_model.specs.Since.{IsUntouched};
ghost use Rattle.uds_index.specs.Held.{IsPageRead, loaded_page};
ghost use Rattle.uds_index.specs.Loads.{Holds, Loaded, IsLoadedBook, ReadEach, ReadOne};

use crate::Uds;
use crate::tags::TagList;
use crate::volume::Volume;
use blk_base::{Block, Geometry, Layout};
use byte_fields::read_u32;
use disk_model::{Disk, read_block};
use lru::LruCache;
use std::alloc::{AllocError, Global};
use std::num::NonZeroUsize;
use uds_chapters::{PageRecords, read_page};

/// Where a page has the number of its chapter.
const NUMBER: usize = 8;

/// A page that was loaded.
#[derive(Drop)]
pub(crate) struct LoadedPage {
    /// The number of its chapter.
    pub(crate) number: u32,
    /// Its records, sorted by name.
    pub(crate) records: PageRecords,
}

impl Uds {
    // There is room for four chapters for each place, since a stop may leave pages of so many there, and twice that for
    // their tags.
    /// Reads each index block of an image once, in rising order, and keeps the records of those that hold a page of a chapter;
    /// one that can't be read holds none. At most `cache` pages are cached later, and one where that is 0. All memory is taken
    /// before the first read; where there is none nothing was done.
    pub fn load<D: Disk>(
        alloc: Global,
        geometry: &Geometry,
        device: &mut D,
        cache: u32,
    ) -> Result<Uds, AllocError>
        requires sizes { IsGeometry geometry.now }
        requires room { needed_blocks geometry.now ≤ (D.seen device.old).size }
        ensures book { IfOk result (λ uds.
            (reads : List (Option (List ℕ))) × (length reads ≡ geometry.now.index)
            × ReadEach D.trust (first_index_of geometry.now) (D.seen device.old)
            (D.seen device.new) reads
            × IsLoadedBook geometry.now reads uds.book) }
        ensures rests { IfOk result (λ uds.
            uds
            ≡ record { book = uds.book; cached = []; asked = None; given = []; unread = false }) }
        ensures err { OnErr result (D.seen device.new ≡ D.seen device.old) }
        ensures untouched { IsUntouched D.trust.tells (D.seen device.old) (D.seen device.new) }
    {
        let layout = Layout::of(geometry);
        let pages = NonZeroUsize::new(cache as usize).unwrap_or(NonZeroUsize::MIN);
        let cache = LruCache::new(alloc, pages)?;
        let places = geometry.index / 4;
        let mut tags = TagList::new(alloc, 4 * places)?;
        let volume = load_volume(alloc, &layout, device)?;
        volume.list_tags(&mut tags);
        Ok(Uds::over(volume, tags, cache))
    }
}

/// Reads each index block once, in rising order, and keeps the records of those that hold a page. All memory is taken first.
pub fn load_volume<D: Disk>(
    alloc: Global,
    layout: &Layout,
    device: &mut D,
) -> Result<Volume, AllocError>
    requires room { needed_blocks layout.now.geometry ≤ (D.seen device.old).size }
    ensures book { IfOk result (λ book.
        (reads : List (Option (List ℕ))) × (length reads ≡ layout.now.geometry.index)
        × ReadEach D.trust (first_index_of layout.now.geometry) (D.seen device.old)
        (D.seen device.new) reads
        × IsLoadedBook layout.now.geometry reads book) }
    ensures err { OnErr result (D.seen device.new ≡ D.seen device.old) }
    ensures untouched { IsUntouched D.trust.tells (D.seen device.old) (D.seen device.new) }
{
    let geometry = &layout.geometry;
    let first = layout.index_block(0);
    let mut volume = Volume::new(alloc, geometry.nonce, first.0, geometry.index / 4)?;
    for number in 0..geometry.index {
        if let Some(page) = load_page(device, layout, number) {
            volume.keep(page.number, page.records.as_slice());
        }
    }
    Ok(volume)
}

// Reads an index block; the page that it holds, if it could be read and holds one.
fn load_page<D: Disk>(device: &mut D, layout: &Layout, number: u32) -> Option<LoadedPage>
    requires inside { number < layout.now.geometry.index }
    requires room { needed_blocks layout.now.geometry ≤ (D.seen device.old).size }
    ensures read { (read : Option (List ℕ))
        × ReadOne D.trust (first_index_of layout.now.geometry + number) (D.seen device.old)
        (D.seen device.new) read
        × IsPageRead layout.now.geometry number read (option_map loaded_page result) }
    ensures untouched { IsUntouched D.trust.tells (D.seen device.old) (D.seen device.new) }
{
    match read_block(device, layout.index_block(number)) {
        Ok(block) => held_page(
            &block,
            layout.geometry.nonce,
            layout.geometry.index / 4,
            number,
        ),
        Err(_) => None,
    }
}

// The page that the index block with this number holds.
fn held_page(block: &Block, nonce: u64, places: u32, number: u32) -> Option<LoadedPage>
    requires { 0 < places }
    ensures some { IfSome result (λ page. Holds nonce places number block.now (loaded_page page)) }
    ensures none { IfNone result ((page : Loaded) → Holds nonce places number block.now page → ⊥) }
{
    let chapter = read_u32(&block.bytes, NUMBER);
    if !stands_at(chapter, places, number) {
        return None;
    }
    let records = read_page(block, nonce, chapter, (number % 4) as u8)?;
    Some(LoadedPage {
        number: chapter,
        records,
    })
}

// Whether the index block with this number is one of a chapter's.
fn stands_at(chapter: u32, places: u32, number: u32) -> bool
    requires { 0 < places }
    ensures { result ≡ nat_eq (chapter % places) (number / 4) }
{
    chapter % places == number / 4
}
