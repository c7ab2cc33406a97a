ghost use Rattle.std.specs.Prelude.{◌≡◌, ◌<◌, ◌≤◌, ◌+◌, ◌/◌, ◌%◌, IfOk, replicate, slice_set};
ghost use Rattle.blk_base.specs.Pages.{page_above as page_of};
ghost use Rattle.blk_base.specs.Limits.{logical_limit};
ghost use Rattle.blk_base.specs.declared.place.Mapping.TheVariants.{Unmapped, At};
ghost use Rattle.block_map_tree.specs.Tree.{IsTree};
ghost use Rattle.block_map_tree.specs.OpenedTree.{IsOpened, forest_of};

use blk_base::{Geometry, Lba, Mapping, Mappings, Opened, OpenedPage, PageId, Pbn, Point, Super};
use block_map_tree::{Forest, Found, TreeNodes, path};
use page_codec::{MapPage, PageHead};
use std::alloc::{AllocError, Global};
use std::test::Fail;

/// Trees of height 3.
pub(crate) const GEOMETRY: Geometry = Geometry {
    logical: 40_000_000,
    height: 3,
    nonce: 7,
    ..Geometry::DEFAULT
};

// The trees 0 and 30.
const FOREST: Forest = Forest {
    geometry: GEOMETRY,
    zone: 0,
    zones: 30,
};

// Whether the path of this address in trees of this height is this one.
fn leads(at: u32, height: u32, tree: u8, slots: &[u16]) -> bool
    requires height { (2 ≤ height) × (height ≤ 3) }
    requires inside { at < logical_limit height }
{
    let found = path(Lba(at), height);
    found.tree == tree && found.slots.as_slice() == slots
}

#[test]
fn paths_of_some_addresses(rt: HostRuntime) {
    let lead = [
        leads(1000, 2, 1, &[0, 188]),
        leads(48_720, 2, 0, &[1, 0]),
        leads(39_560_639, 2, 59, &[811, 811]),
        leads(39_560_640, 3, 0, &[1, 0, 0]),
    ];
    assert_eq!(rt; lead, [true; 4]);
}

/// The page of a level above an address.
pub(crate) fn page_at(at: Lba, level: u8) -> PageId
    requires { level < 3 }
    ensures { result ≡ page_of level at.0 }
{
    let leaf = at.0 / 812;
    let index = match level {
        0 => leaf / 60,
        1 => leaf / 60 / 812,
        _ => leaf / 60 / 659_344,
    };
    PageId {
        tree: (leaf % 60) as u8,
        level,
        index,
    }
}

// Links the highest page that the path misses, if there is one, and gives it.
fn link_next(tree: &mut TreeNodes, at: Lba, block: Pbn, point: Point) -> Option<PageId>
    requires form { IsTree tree.old }
    requires sizes { tree.old.forest ≡ FOREST }
    requires inside { at.0 < GEOMETRY.logical }
    requires own { at.0 / 812 % 60 % 30 ≡ 0 }
    requires block { (85 ≤ block.0) × (block.0 < 149) }
    ensures form { IsTree tree.new }
    ensures sizes { tree.new.forest ≡ FOREST }
{
    match tree.find(&path(at, GEOMETRY.height)) {
        Found::Leaf(_) => None,
        Found::Missing(level) => {
            let page = page_at(at, level);
            tree.link(page, block, point);
            Some(page)
        }
    }
}

// A page that leads to one block.
fn leading(page: PageId, at: Pbn, slot: u16, leads: Pbn) -> OpenedPage
    requires { slot < 812 }
    ensures page { result.page ≡ page }
    ensures at { result.at ≡ at }
    ensures leads { result.mappings ≡ slice_set (replicate 812 Unmapped) slot (At leads) }
{
    let mut mappings = Mappings::new();
    mappings.set(slot, Mapping::At(leads));
    OpenedPage { page, at, mappings }
}

// The root of a tree, which leads nowhere.
fn blank_root(tree: u8) -> OpenedPage
    requires { tree < 60 }
    ensures page { result.page ≡ record { tree = tree; level = 2; index = 0 } }
    ensures at { result.at.0 ≡ 9 + tree }
    ensures leads { result.mappings ≡ replicate 812 Unmapped }
{
    OpenedPage {
        page: PageId {
            tree,
            level: 2,
            index: 0,
        },
        at: Pbn(9 + u32::from(tree)),
        mappings: Mappings::new(),
    }
}

// The pages of the two trees of an image whose first tree leads to the leaf of the addresses 243,600 to 244,411, in block 91.
fn small_pages(alloc: Global) -> Result<Vec<OpenedPage>, AllocError>
    ensures { IfOk result (λ pages. IsOpened FOREST pages.items) }
{
    let root = page_at(Lba(243_600), 2);
    let middle = page_at(Lba(243_600), 1);
    let mut pages = Vec::with_capacity(alloc, 3)?;
    pages.push_reserved(leading(root, Pbn(9), 0, Pbn(90)));
    pages.push_reserved(leading(middle, Pbn(90), 5, Pbn(91)));
    pages.push_reserved(blank_root(30));
    Ok(pages)
}

/// What a session starts with that has these pages.
pub(crate) fn small_image(alloc: Global) -> Result<Opened, AllocError>
    ensures head { IfOk result (λ opened. opened.head.geometry ≡ GEOMETRY) }
    ensures pages { IfOk result (λ opened. IsOpened FOREST opened.pages.items) }
{
    let pages = small_pages(alloc)?;
    Ok(Opened {
        head: Super {
            geometry: GEOMETRY,
            clean: true,
            start: 1,
        },
        pages,
        counters: Vec::new(alloc),
        commits: Vec::new(alloc),
        tree_pages: Vec::new(alloc),
    })
}

fn small_tree(alloc: Global) -> Result<TreeNodes, AllocError>
    ensures { IfOk result (λ tree. IsTree tree × (tree.forest ≡ FOREST)) }
{
    let opened = small_image(alloc)?;
    TreeNodes::from_opened(alloc, &opened, FOREST.zone, FOREST.zones)
}

// What an address of the leaf leads to, one beside it, and one of the other tree; where two pages of that one stand; and the
// address of it once the two pages are linked that its path misses.
fn find_and_link(tree: &mut TreeNodes) -> ([Found; 4], [Option<Pbn>; 2])
    requires form { IsTree tree.old }
    requires sizes { tree.old.forest ≡ FOREST }
    ensures form { IsTree tree.new }
    ensures sizes { tree.new.forest ≡ FOREST }
{
    let of_other = path(Lba(24_360), 3);
    let before = [
        tree.find(&path(Lba(243_600), 3)),
        tree.find(&path(Lba(0), 3)),
        tree.find(&of_other),
    ];
    let stand = [
        tree.at(page_at(Lba(24_360), 2)),
        tree.at(page_at(Lba(24_360), 1)),
    ];
    let _ = link_next(tree, Lba(24_360), Pbn(92), Point(8));
    let _ = link_next(tree, Lba(24_360), Pbn(93), Point(6));
    let [first, second, third] = before;
    ([first, second, third, tree.find(&of_other)], stand)
}

// What is handed out to be written: the page, its block and two of its mappings; and the low point then.
type Changed = (PageId, Pbn, [Mapping; 2], Option<Point>);

// The page that is due at this point is handed out and reported.
fn write_changed(tree: &mut TreeNodes, limit: Point) -> Option<Changed>
    requires { IsTree tree.old }
    ensures form { IsTree tree.new }
{
    let mut into = MapPage {
        head: PageHead {
            geometry: GEOMETRY,
            page: page_at(Lba(0), 0),
            at: Pbn(0),
        },
        mappings: Mappings::new(),
    };
    let page = tree.take_expired(limit, &mut into)?;
    let low = tree.low_point();
    tree.written(page);
    let mappings = [into.mappings.get(0), into.mappings.get(5)];
    Some((page, into.head.at, mappings, low))
}

// Pages that are opened lead on, and so do those that are linked, at the points 8 and 6. Each page that was changed is written.
#[test]
fn opened_pages_lead_on(rt: HostRuntime) -> Result<(), Fail> {
    let mut tree = small_tree(rt.alloc())?;
    let clean = tree.low_point();
    let found = find_and_link(&mut tree);
    let low = tree.low_point();
    let written = [
        write_changed(&mut tree, Point(5)),
        write_changed(&mut tree, Point(6)),
        write_changed(&mut tree, Point(8)),
    ];
    let finds = [
        Found::Leaf(Pbn(91)),
        Found::Missing(0),
        Found::Missing(1),
        Found::Leaf(Pbn(93)),
    ];
    let none = Mapping::Unmapped;
    let middle = (
        page_at(Lba(24_360), 1),
        Pbn(92),
        [Mapping::At(Pbn(93)), none],
        Some(Point(6)),
    );
    let root = (
        page_at(Lba(24_360), 2),
        Pbn(39),
        [Mapping::At(Pbn(92)), none],
        Some(Point(8)),
    );
    assert_eq!(rt;
        (found, clean, low),
        ((finds, [Some(Pbn(39)), None]), None, Some(Point(6)))
    );
    assert_eq!(rt;
        (written, tree.low_point()),
        ([None, Some(middle), Some(root)], None)
    );
    Ok(())
}
