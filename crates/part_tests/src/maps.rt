use crate::trees::{GEOMETRY, page_at, small_image};
use blk_base::{Block, CommittedEntry, Entry, Lba, Mapping, Mappings, PageId, Pbn, Point};
use map_zone::{Applied, Looked, MapZone, NotInstalled};
use page_codec::{MapPage, PageFault, PageHead, encode, slot};
use std::test::Fail;

const LEAF: PageId = PageId {
    tree: 0,
    level: 0,
    index: 0,
};

// The leaf with nothing mapped, as it stands at block 92.
const HEAD: PageHead = PageHead {
    geometry: GEOMETRY,
    page: LEAF,
    at: Pbn(92),
};

const NEW_LEAF: Entry = Entry::NewPage {
    page: LEAF,
    at: Pbn(92),
};

const MAP_FIVE: Entry = Entry::Remap {
    at: Lba(5),
    old: Mapping::Unmapped,
    new: Mapping::At(Pbn(100)),
};

// The calls, where their conditions hold.
fn looked(zone: &MapZone) -> Option<Looked> {
    if zone.owns(Lba(5)) {
        Some(zone.lookup(Lba(5)))
    } else {
        None
    }
}

fn applied(zone: &mut MapZone, entry: Entry, point: u64) -> Option<Applied> {
    let entry = CommittedEntry {
        entry,
        point: Point(point),
    };
    if zone.may_apply(&entry) {
        Some(zone.apply(&entry))
    } else {
        None
    }
}

fn installed(zone: &mut MapZone, read: &Block) -> Option<Result<(), NotInstalled>> {
    if zone.may_install(LEAF) {
        Some(zone.install(LEAF, read))
    } else {
        None
    }
}

fn settled(zone: &mut MapZone, page: PageId) -> Option<Option<Point>> {
    if !zone.is_being_written(page) {
        return None;
    }
    zone.written(page);
    Some(zone.low_point())
}

// A leaf is linked and installed, and address 5 is mapped: what each call says.
fn map_five(zone: &mut MapZone) -> ([Option<Looked>; 3], [Option<Applied>; 3], [bool; 2]) {
    let mut read = Block::zero();
    let missing = looked(zone);
    let linked = applied(zone, NEW_LEAF, 512);
    let needed = (looked(zone), applied(zone, MAP_FIVE, 514));
    let refused = installed(zone, &read) == Some(Err(NotInstalled::Page(PageFault::Header)));
    let page = MapPage {
        head: HEAD,
        mappings: Mappings::new(),
    };
    encode(&page, &mut read);
    let taken = installed(zone, &read) == Some(Ok(()));
    let done = applied(zone, MAP_FIVE, 514);
    (
        [missing, needed.0, looked(zone)],
        [linked, needed.1, done],
        [refused, taken],
    )
}

// What is due at these points, and what the slot of address 5 says where it is the leaf.
fn taken(zone: &mut MapZone, point: u64) -> Option<(PageId, Pbn, Option<Mapping>)> {
    let mut bytes = Block::zero();
    let (page, at) = zone.take_expired(Point(point), &mut bytes)?;
    Some((page, at, slot(&bytes, &HEAD, 5).ok()))
}

#[test]
fn a_map_shows_what_was_applied_and_hands_it_out(rt: HostRuntime) -> Result<(), Fail> {
    let opened = small_image(rt.alloc())?;
    let mut zone = MapZone::new(rt.alloc(), &opened, 0, 30, 1)?;
    let mapped = map_five(&mut zone);
    let need = Looked::NeedLeaf(LEAF, Pbn(92));
    let five = Mapping::At(Pbn(100));
    let looks = [Some(Looked::NoPage(0)), Some(need), Some(Looked::Is(five))];
    let done = Some(Applied::Done);
    let answers = [done, Some(Applied::NeedLeaf(LEAF, Pbn(92))), done];
    assert_eq!(rt; mapped, (looks, answers, [true, true]));
    let out = [
        taken(&mut zone, 511),
        taken(&mut zone, 514),
        taken(&mut zone, 514),
    ];
    let above = page_at(Lba(5), 1);
    let leaf = (LEAF, Pbn(92), Some(five));
    assert_eq!(rt; out, [None, Some((above, Pbn(90), None)), Some(leaf)]);
    let lows = (
        zone.low_point(),
        settled(&mut zone, above),
        settled(&mut zone, LEAF),
    );
    let wanted = (Some(Point(512)), Some(Some(Point(514))), Some(None));
    assert_eq!(rt; lows, wanted);
    Ok(())
}
