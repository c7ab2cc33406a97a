ghost use Rattle.blk_base.specs.Limits.{IsGeometry};

use blk_base::{Block, Geometry, Layout, Pbn};
use block_names::Name;
use byte_fields::put_u32;
use disk_model::{Disk, MemDisk};
use index_advice::{Advisor, Look};
use sparse_index::Sparse;
use std::alloc::{AllocError, Global};
use std::test::Fail;

/// What a look did: how many index blocks it asked for, the first of them, and what it found.
type Looked = (u32, Option<Pbn>, Option<Pbn>);

// The sizes with so many index blocks; a number that isn't within its limits is moved there. The index stands in the blocks
// from 69 on.
fn sizes(index: u32) -> Geometry
    ensures { IsGeometry result }
{
    Geometry {
        index: 4 * (index / 4).max(1).min(256),
        ..Geometry::DEFAULT
    }
}

// An empty sparse index, and its device.
fn load(alloc: Global, index: u32, cache: u32) -> Result<Option<Sparse>, AllocError> {
    let geometry = sizes(index);
    let needed = Layout::of(&geometry).needed();
    let mut device = MemDisk::zeroed(alloc, needed)?;
    if device.blocks() < needed {
        return Ok(None);
    }
    Ok(Some(Sparse::load(alloc, &geometry, &mut device, cache)?))
}

// A name whose bytes 0 to 3 are its tag, and whose byte 8 says whether it is a hook.
fn name(tag: u32, number: u32, eighth: u32) -> Name {
    let mut bytes = [0; 16];
    put_u32(&mut bytes, 0, tag);
    put_u32(&mut bytes, 4, number);
    put_u32(&mut bytes, 8, eighth);
    Name::new(bytes)
}

// Looks a name up, where all pages have this content.
fn look_up(index: &mut Sparse, name: &Name, block: Option<&Block>) -> Looked {
    let mut first = None;
    for reads in 0..11_u32 {
        match index.look(name) {
            Look::Known(at) => return (reads, first, Some(at)),
            Look::Nothing => return (reads, first, None),
            Look::Read(at) => {
                if first.is_none() {
                    first = Some(at);
                }
                index.page(at, block);
            }
        }
    }
    (11, first, None)
}

// The names 0 to 1360, of which one in 32 is a hook.
fn row_name(number: u32) -> Name {
    name(number, 0, number % 32)
}

// Learns them, each due page being written at once, and looks for two of the first chapter, the hook first where its pages can't
// be read and then where they have any bytes.
fn learn_and_look(alloc: Global) -> Result<Option<[Looked; 5]>, AllocError> {
    let Some(mut index) = load(alloc, 8, 1)? else {
        return Ok(None);
    };
    let mut block = Block::zero();
    for number in 0..1361_u32 {
        index.learn(&row_name(number), Pbn(number.wrapping_add(100)));
        for _ in 0..4_u32 {
            drop(index.write_due(&mut block));
        }
    }
    Ok(Some([
        look_up(&mut index, &row_name(1), Some(&block)),
        look_up(&mut index, &row_name(0), None),
        look_up(&mut index, &row_name(1), Some(&block)),
        look_up(&mut index, &row_name(0), Some(&block)),
        look_up(&mut index, &row_name(1), Some(&block)),
    ]))
}

// A chapter that is sparse is found by a hook alone; once it was read whole each of its names is known.
#[test]
fn a_hook_brings_its_chapter(rt: HostRuntime) -> Result<(), Fail> {
    let looks = learn_and_look(rt.alloc())?;
    let first = Some(Pbn(69));
    let none = (0, None, None);
    assert_eq!(rt;
        looks,
        Some([
            none,
            (1, first, None),
            none,
            (4, first, Some(Pbn(100))),
            (0, None, Some(Pbn(101))),
        ])
    );
    Ok(())
}

/// A run: how many index blocks and cached chapters, how many looks found a location, how many blocks were asked for and how
/// many outside the index, and the sum of all answers.
type Run = (u32, u32, u32, u32, u32, u32);

// Numbers that are drawn one after the other.
#[derive(Drop)]
struct Draws {
    state: u32,
}

impl Draws {
    // The next number below `end`.
    fn next(&mut self, end: u32) -> u32 {
        self.state = self
            .state
            .wrapping_mul(1_664_525)
            .wrapping_add(1_013_904_223);
        (self.state >> 8) % end.max(1)
    }
}

// What the looks of a run came to.
#[derive(Drop)]
struct Tally {
    known: u32,
    reads: u32,
    outside: u32,
    sum: u32,
}

impl Tally {
    fn add(&mut self, number: u32) {
        self.sum = self.sum.wrapping_mul(16_777_619) ^ number;
    }
}

// One of 768 names with 64 tags, of which a quarter are hooks.
fn drawn_name(draws: &mut Draws) -> Name {
    let number = draws.next(768);
    name(number % 64, number, number / 64 % 4 * 8)
}

// A look, in which some pages can't be read, and all others have bytes that are no page.
fn drawn_look(index: &mut Sparse, draws: &mut Draws, blocks: u32, tally: &mut Tally) {
    let name = drawn_name(draws);
    let block = Block {
        bytes: [0xff; 4096],
    };
    for _ in 0..11_u32 {
        match index.look(&name) {
            Look::Known(at) => {
                tally.known = tally.known.wrapping_add(1);
                return tally.add(at.0);
            }
            Look::Nothing => return tally.add(1),
            Look::Read(at) => {
                tally.reads = tally.reads.wrapping_add(1);
                if at.0.wrapping_sub(69) >= blocks {
                    tally.outside = tally.outside.wrapping_add(1);
                }
                tally.add(at.0);
                if draws.next(16) == 0 {
                    index.page(at, None);
                } else {
                    index.page(at, Some(&block));
                }
            }
        }
    }
}

// 10,000 looks and learnt names, and now and then a chapter that is closed early.
fn run(alloc: Global, blocks: u32, cache: u32) -> Result<Option<Run>, AllocError> {
    let Some(mut index) = load(alloc, blocks, cache)? else {
        return Ok(None);
    };
    let mut draws = Draws { state: blocks };
    let mut tally = Tally {
        known: 0,
        reads: 0,
        outside: 0,
        sum: 0,
    };
    let mut block = Block::zero();
    for step in 0..10_000_u32 {
        match draws.next(16) {
            0 => index.finish(),
            1..=7 => index.learn(&drawn_name(&mut draws), Pbn(step.wrapping_add(100))),
            _ => drawn_look(&mut index, &mut draws, blocks, &mut tally),
        }
        for _ in 0..4_u32 {
            drop(index.write_due(&mut block));
        }
    }
    Ok(Some((
        blocks,
        cache,
        tally.known,
        tally.reads,
        tally.outside,
        tally.sum,
    )))
}

// What tools/sparse.py computed.
static RUNS: [Run; 12] = [
    (4, 1, 97, 0, 0, 1_564_655_857),
    (4, 2, 97, 0, 0, 1_564_655_857),
    (4, 16, 97, 0, 0, 1_564_655_857),
    (8, 1, 123, 143, 0, 4_232_976_703),
    (8, 2, 123, 143, 0, 4_232_976_703),
    (8, 16, 123, 143, 0, 4_232_976_703),
    (64, 1, 501, 846, 0, 3_958_885_821),
    (64, 2, 517, 753, 0, 1_552_006_429),
    (64, 16, 521, 745, 0, 3_392_182_349),
    (1_024, 1, 1_135, 2_595, 0, 4_084_808_645),
    (1_024, 2, 1_181, 2_506, 0, 689_308_820),
    (1_024, 16, 1_804, 1_671, 0, 1_098_473_952),
];

#[test]
fn looks_go_by_the_order(rt: HostRuntime) -> Result<(), Fail> {
    for expected in &RUNS {
        let (blocks, cache, ..) = *expected;
        let found = run(rt.alloc(), blocks, cache)?;
        assert_eq!(rt; found, Some(*expected));
    }
    Ok(())
}
