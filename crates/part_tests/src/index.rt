use crate::chapters::name;
use blk_base::{Block, Geometry, Layout, Pbn};
use disk_model::{Disk, MemDisk};
use index_advice::{Advisor, Look};
use std::alloc::{AllocError, Global};
use std::test::Fail;
use uds_chapters::{OpenChapter, read_page};
use uds_index::Uds;

// The devices have the default sizes: the index is in the blocks 69 to 84, four to a chapter.
const GEOMETRY: Geometry = Geometry::DEFAULT;

/// What a look did: how many index blocks it asked for, and what it found.
type Looked = (u32, Option<Pbn>);

fn place(number: u32) -> Pbn {
    Pbn(number.wrapping_add(85))
}

// The index of a device, if that is large enough.
fn load(alloc: Global, device: &mut MemDisk) -> Result<Option<Uds>, AllocError> {
    if device.blocks() < Layout::of(&GEOMETRY).needed() {
        return Ok(None);
    }
    Ok(Some(Uds::load(alloc, &GEOMETRY, device, 64)?))
}

fn read(device: &mut MemDisk, at: Pbn) -> Option<Block> {
    let mut block = Block::zero();
    if at.0 < device.blocks() && device.read(at, &mut block).is_ok() {
        Some(block)
    } else {
        None
    }
}

fn write(device: &mut MemDisk, at: Pbn, block: &Block) {
    if at.0 < device.blocks() {
        drop(device.write(at, block));
    }
}

// Looks a name up, with the pages that the device has, or where each read fails.
fn look_up(index: &mut Uds, device: &mut MemDisk, number: u32, fails: bool) -> Looked {
    for reads in 0..13_u32 {
        match index.look(&name(number)) {
            Look::Known(at) => return (reads, Some(at)),
            Look::Nothing => return (reads, None),
            Look::Read(at) => match read(device, at) {
                Some(block) if !fails => index.page(at, Some(&block)),
                _ => index.page(at, None),
            },
        }
    }
    (13, None)
}

// Writes the pages that are to be written; how many there were.
fn write_pages(index: &mut Uds, device: &mut MemDisk) -> u32 {
    let mut block = Block::zero();
    for pages in 0..8_u32 {
        match index.write_due(&mut block) {
            Some(at) => write(device, at, &block),
            None => return pages,
        }
    }
    8
}

// Learns 681 names, each due page being written at once; how many pages were written.
fn learn_all(index: &mut Uds, device: &mut MemDisk) -> u32 {
    let mut pages: u32 = 0;
    for number in 0..681_u32 {
        index.learn(&name(number), place(number));
        pages = pages.wrapping_add(write_pages(index, device));
    }
    pages
}

// How many records a block has as a page of the first chapter.
fn records_at(device: &mut MemDisk, i: u8) -> Option<usize> {
    let block = read(device, Pbn(69_u32.wrapping_add(u32::from(i))))?;
    let records = read_page(&block, GEOMETRY.nonce, 0, i)?;
    Some(records.as_slice().len())
}

/// The pages that were written, how many chapters are kept, and looks.
type Outcome = (u32, u32, [Looked; 4]);

// What an index says that learns 681 names; and what one says that is loaded then, first where reads fail.
fn learn_and_load(alloc: Global, device: &mut MemDisk) -> Result<Option<[Outcome; 2]>, AllocError> {
    let Some(mut index) = load(alloc, device)? else {
        return Ok(None);
    };
    let pages = learn_all(&mut index, device);
    let looks = [
        look_up(&mut index, device, 0, false),
        look_up(&mut index, device, 0, false),
        look_up(&mut index, device, 680, false),
        look_up(&mut index, device, 681, false),
    ];
    let learnt = (pages, index.chapters(), looks);
    let Some(mut index) = load(alloc, device)? else {
        return Ok(None);
    };
    let looks = [
        look_up(&mut index, device, 679, true),
        look_up(&mut index, device, 679, false),
        look_up(&mut index, device, 0, false),
        look_up(&mut index, device, 680, false),
    ];
    let pages = write_pages(&mut index, device);
    Ok(Some([learnt, (pages, index.chapters(), looks)]))
}

// The first chapter is closed for the last name. Its first name is asked for on one page, and then on none; the last name is
// in the open chapter, which isn't loaded.
#[test]
fn a_full_chapter_is_written_found_and_loaded(rt: HostRuntime) -> Result<(), Fail> {
    let mut device = MemDisk::zeroed(rt.alloc(), Layout::of(&GEOMETRY).needed())?;
    let outcomes = learn_and_load(rt.alloc(), &mut device)?;
    let held = [
        records_at(&mut device, 0),
        records_at(&mut device, 1),
        records_at(&mut device, 2),
        records_at(&mut device, 3),
    ];
    let first = Some(place(0));
    let learnt = [(1, first), (0, first), (0, Some(place(680))), (0, None)];
    let loaded = [(1, None), (1, Some(place(679))), (1, first), (0, None)];
    assert_eq!(rt;
        (outcomes, held),
        (Some([(4, 1, learnt), (0, 1, loaded)]), [Some(170); 4])
    );
    Ok(())
}

// The pages that are written of a chapter that is closed with one name, how many chapters are kept, and the look for it.
fn close_early(alloc: Global) -> Result<Option<(u32, u32, Looked)>, AllocError> {
    let mut device = MemDisk::zeroed(alloc, Layout::of(&GEOMETRY).needed())?;
    let Some(mut index) = load(alloc, &mut device)? else {
        return Ok(None);
    };
    index.learn(&name(7), place(7));
    index.finish();
    let pages = write_pages(&mut index, &mut device);
    let look = look_up(&mut index, &mut device, 7, false);
    Ok(Some((pages, index.chapters(), look)))
}

#[test]
fn a_chapter_is_closed_early(rt: HostRuntime) -> Result<(), Fail> {
    let closed = close_early(rt.alloc())?;
    assert_eq!(rt; closed, Some((4, 1, (1, Some(place(7))))));
    Ok(())
}

// How many chapters are kept, and what is found of a name, where so many blocks of the index have this content, and each read
// of a page gives another block.
fn load_from(
    alloc: Global,
    block: &Block,
    count: u32,
) -> Result<Option<(u32, Looked)>, AllocError> {
    let mut device = MemDisk::zeroed(alloc, Layout::of(&GEOMETRY).needed())?;
    for k in 0..count {
        write(&mut device, Pbn(k.wrapping_add(69)), block);
    }
    let Some(mut index) = load(alloc, &mut device)? else {
        return Ok(None);
    };
    let ones = Block {
        bytes: [0xff; 4096],
    };
    write(&mut device, Pbn(69), &ones);
    let found = look_up(&mut index, &mut device, 7, false);
    Ok(Some((index.chapters(), found)))
}

// The first page of a chapter of one name.
fn page_of(number: u32) -> Block {
    let mut open = OpenChapter::new();
    open.add(&name(7), place(7));
    let mut block = Block::zero();
    open.close(number).page(0, GEOMETRY.nonce, &mut block);
    block
}

// Bytes that are no page, in one block and in all; the page of a chapter that stands there, of one that stands elsewhere, and
// of the last one.
#[test]
fn a_block_holds_the_page_of_its_place_alone(rt: HostRuntime) -> Result<(), Fail> {
    let ones = Block {
        bytes: [0xff; 4096],
    };
    let loaded = [
        load_from(rt.alloc(), &ones, 1)?,
        load_from(rt.alloc(), &ones, 16)?,
        load_from(rt.alloc(), &page_of(8), 1)?,
        load_from(rt.alloc(), &page_of(9), 1)?,
        load_from(rt.alloc(), &page_of(4_294_967_292), 1)?,
    ];
    let found = Some((1, (1, Some(place(7)))));
    let none = Some((0, (0, None)));
    assert_eq!(rt; loaded, [none, none, found, none, found]);
    Ok(())
}
