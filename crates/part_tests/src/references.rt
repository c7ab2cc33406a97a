use blk_base::{Block, Geometry, Opened, Point, Super};
use reference_blocks::ReferenceBlocks;
use slab_codec::reference_sector;
use std::test::Fail;

// Two slabs of 9000 data blocks: 18 sectors of counters in three reference blocks each.
const WIDE: Geometry = Geometry {
    slabs: 2,
    slab_blocks: 9000,
    ..Geometry::DEFAULT
};

static COUNTERS: [u8; 9000] = [50; 9000];

// The block that is handed out, whose write is durable then.
fn write_first(blocks: &mut ReferenceBlocks, into: &mut Block) -> Option<u32> {
    let block = blocks.take_first(&COUNTERS, into)?;
    if !blocks.is_being_written(u64::from(block)) {
        return None;
    }
    blocks.written(block);
    Some(block)
}

// The reference blocks of the second slab. The block of the update with the least point is handed out first, and not again
// before it is written.
#[test]
fn the_first_dirty_block_is_first(rt: HostRuntime) -> Result<(), Fail> {
    let mut points = [Point(100); 36];
    points[35] = Point(135);
    let opened = Opened {
        head: Super {
            geometry: WIDE,
            clean: true,
            start: 1,
        },
        pages: Vec::new(rt.alloc()),
        counters: Vec::new(rt.alloc()),
        commits: points.to_vec(rt.alloc())?,
        tree_pages: Vec::new(rt.alloc()),
    };
    let mut blocks = ReferenceBlocks::new(rt.alloc(), &WIDE, 1, &opened)?;
    let mut into = Block::zero();
    let clean = blocks.take_first(&COUNTERS, &mut into);
    blocks.update(8999, Point(1024));
    blocks.update(503, Point(1025));
    let opened = blocks.handed_point(17);
    let third = blocks.take_first(&COUNTERS, &mut into);
    let said = reference_sector(&into, 1).commit;
    blocks.update(8998, Point(1026));
    let first = write_first(&mut blocks, &mut into);
    let waits = blocks.take_first(&COUNTERS, &mut into);
    assert_eq!(rt;
        [clean, third, first, waits],
        [None, Some(2), Some(0), None]
    );
    assert_eq!(rt;
        [opened, said, blocks.handed_point(17)],
        [Point(135), Point(1024), Point(1024)]
    );
    Ok(())
}
