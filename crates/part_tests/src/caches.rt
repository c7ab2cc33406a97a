ghost use Rattle.std.specs.Prelude.{◌≡◌};
ghost use Rattle.map_page_cache.specs.CachedPages.{IsPageOf};

use blk_base::{Geometry, Mapping, Mappings, PageId, Pbn, Point};
use map_page_cache::Cache;
use page_codec::{MapPage, PageHead};
use std::test::Fail;

const GEOMETRY: Geometry = Geometry {
    logical: 1_000_000,
    nonce: 7,
    ..Geometry::DEFAULT
};

// A call, with pages by their number and mappings by that of their data block.
#[derive(Clone, Copy)]
enum Act {
    Install(u32),
    Set(u32, u16, u32, u64),
    TakeExpired(u64),
    Written(u32),
    LowPoint,
    Block(u32, u16),
}

fn leaf(index: u32) -> PageId
    ensures { result.level ≡ 0 }
{
    PageId {
        tree: 3,
        level: 0,
        index,
    }
}

// A page that was just read: no slot of it is mapped.
fn read_page(page: PageId) -> MapPage
    ensures named { result.head.page ≡ page }
    ensures held { IsPageOf GEOMETRY result }
{
    MapPage {
        head: PageHead {
            geometry: GEOMETRY,
            page,
            at: Pbn(90),
        },
        mappings: Mappings::new(),
    }
}

// Whether the page was taken; `None` where it is there already.
fn install(cache: &mut Cache, page: u32) -> Option<u64>
    requires { cache.old.geometry ≡ GEOMETRY }
    ensures { cache.new.geometry ≡ GEOMETRY }
{
    let id = leaf(page);
    match cache.get(id) {
        Some(_) => None,
        None => Some(u64::from(cache.install(id, &read_page(id)).is_ok())),
    }
}

// Maps a slot to one of the 64 data blocks.
fn set(cache: &mut Cache, page: u32, slot: u16, block: u32, point: u64) -> Option<u64>
    requires { cache.old.geometry ≡ GEOMETRY }
    ensures { cache.new.geometry ≡ GEOMETRY }
{
    let id = leaf(page);
    if slot >= 812 {
        return None;
    }
    match cache.get(id) {
        Some(_) => {
            cache.set(id, slot, Mapping::At(Pbn(85 + block % 64)), Point(point));
            Some(0)
        }
        None => None,
    }
}

fn written(cache: &mut Cache, page: u32) -> Option<u64>
    requires { cache.old.geometry ≡ GEOMETRY }
    ensures { cache.new.geometry ≡ GEOMETRY }
{
    let id = leaf(page);
    if cache.is_being_written(id) {
        cache.written(id);
        Some(0)
    } else {
        None
    }
}

// The page that is handed out.
fn take_expired(cache: &mut Cache, point: u64) -> Option<u64>
    requires { cache.old.geometry ≡ GEOMETRY }
    ensures { cache.new.geometry ≡ GEOMETRY }
{
    let mut into = read_page(leaf(0));
    let page = cache.take_expired(Point(point), &mut into)?;
    Some(u64::from(page.index))
}

// The number of the block that a slot of the page leads to; 0 where it isn't mapped.
fn block(cache: &Cache, page: u32, slot: u16) -> Option<u64> {
    let found = cache.get(leaf(page))?;
    if slot >= 812 {
        return Some(0);
    }
    match found.mappings.get(slot) {
        Mapping::At(block) => Some(u64::from(block.0)),
        _ => Some(0),
    }
}

fn low_point(cache: &Cache) -> Option<u64> {
    let low = cache.low_point()?;
    Some(low.0)
}

// The answer as a number; `None` where the call gives none, or where its condition isn't met.
fn answer(cache: &mut Cache, act: Act) -> Option<u64>
    requires { cache.old.geometry ≡ GEOMETRY }
    ensures { cache.new.geometry ≡ GEOMETRY }
{
    match act {
        Act::Install(page) => install(cache, page),
        Act::Set(page, slot, block, point) => set(cache, page, slot, block, point),
        Act::TakeExpired(point) => take_expired(cache, point),
        Act::Written(page) => written(cache, page),
        Act::LowPoint => low_point(cache),
        Act::Block(page, slot) => block(cache, page, slot),
    }
}

// A page that is changed again while it is being written keeps both points. No page is given up while it is dirty or
// being written, and none while a frame is empty.
static CALLS: [(Act, Option<u64>); 24] = [
    (Act::LowPoint, None),
    (Act::Install(1), Some(1)),
    (Act::Set(1, 811, 5, 7), Some(0)),
    (Act::Set(1, 0, 6, 5), Some(0)),
    (Act::LowPoint, Some(5)),
    (Act::TakeExpired(4), None),
    (Act::TakeExpired(5), Some(1)),
    (Act::Set(1, 0, 7, 8), Some(0)),
    (Act::TakeExpired(9), None),
    (Act::LowPoint, Some(5)),
    (Act::Written(1), Some(0)),
    (Act::LowPoint, Some(8)),
    (Act::Block(1, 0), Some(92)),
    (Act::Block(1, 811), Some(90)),
    (Act::Install(2), Some(1)),
    (Act::Set(2, 2, 8, 9), Some(0)),
    (Act::Install(3), Some(0)),
    (Act::TakeExpired(9), Some(1)),
    (Act::Install(3), Some(0)),
    (Act::Written(1), Some(0)),
    (Act::Install(3), Some(1)),
    (Act::Block(1, 0), None),
    (Act::Block(2, 2), Some(93)),
    (Act::Block(3, 2), Some(0)),
];

// How many of the calls have their answers before the first that has another.
fn count_right(cache: &mut Cache) -> usize
    requires { cache.old.geometry ≡ GEOMETRY }
{
    let mut count = 0;
    for &(act, want) in &CALLS {
        if answer(cache, act) != want {
            return count;
        }
        count = count.saturating_add(1);
    }
    count
}

#[test]
fn calls_and_their_answers(rt: HostRuntime) -> Result<(), Fail> {
    let mut cache = Cache::new(rt.alloc(), &GEOMETRY, 2)?;
    assert_eq!(rt; count_right(&mut cache), CALLS.len());
    Ok(())
}
