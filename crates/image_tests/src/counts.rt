use blk_base::{Entry, Geometry, Lba, Mapping, Pbn, Point, Super};
use disk_model::{Disk, MemDisk};
use image_model::ImageFault;
use replay_counts::{RecoveredCounts, counts};
use std::alloc::{AllocError, Global};
use std::test::Fail;
use test_images::{put_block, put_journal, reference_block, slab_block, zeros};

// The image has one slab: the data blocks 85 to 148, the reference block 149, and the slab's journal, 150 to 153. Its
// bytes are put together from the definitions of the formats by their codecs, and the counts were worked out by hand. The
// window is one block, of sequence 6: its entries have the points 3072, 3074 and so on.

// The commit point of the sector with all counters.
const COMMIT: u64 = 2560;

// Counters by their offsets, what a sector of the slab's journal has (points with the offsets of their blocks), and the
// window.
type Written = (
    &'static [(u16, u8)],
    &'static [(u64, u16)],
    &'static [Entry],
);

// The first four counts and the greatest point applied to their sector, or the fault.
type Counted = Result<([u16; 4], u64), ImageFault>;

// Entries that map an address to the first block, one of them from the second.
const MAPS: Entry = Entry::Remap {
    at: Lba(5),
    old: Mapping::Unmapped,
    new: Mapping::At(Pbn(85)),
};

const REMAPS: Entry = Entry::Remap {
    at: Lba(5),
    old: Mapping::At(Pbn(86)),
    new: Mapping::At(Pbn(85)),
};

static ROWS: [(Written, Counted); 9] = [
    (
        (&[(1, 1), (2, 254), (3, 3)], &[], &[]),
        Ok(([0, 1, 254, 3], COMMIT)),
    ),
    // Below the commit point, at it, and above it.
    (
        (
            &[(1, 1), (2, 254), (3, 3)],
            &[(2558, 0), (2560, 0), (2562, 0)],
            &[],
        ),
        Ok(([1, 1, 254, 3], 2562)),
    ),
    // Points out of order; what adds and what takes away.
    (
        (
            &[(1, 1), (2, 254), (3, 3)],
            &[(3077, 0), (3074, 0), (3073, 1), (3075, 2), (3076, 2)],
            &[],
        ),
        Ok(([0, 0, 254, 3], 3077)),
    ),
    // The same update twice in the slab's journal, and in the window too.
    (
        (
            &[(1, 1), (2, 254), (3, 3)],
            &[(3072, 0), (3072, 0)],
            &[MAPS],
        ),
        Ok(([1, 1, 254, 3], 3072)),
    ),
    // The window adds to the new block, and takes from the old one at the next point.
    (
        (&[(1, 1), (2, 254), (3, 3)], &[], &[REMAPS]),
        Ok(([1, 0, 254, 3], 3073)),
    ),
    // A counter past the limit.
    (
        (&[(1, 1), (2, 254), (3, 255)], &[(3073, 3)], &[]),
        Err(ImageFault::Counter {
            at: Pbn(88),
            point: Point(COMMIT),
        }),
    ),
    // A count past the limit, and one below zero: the lower block is named.
    (
        (&[(1, 1), (2, 254), (3, 3)], &[(3074, 2)], &[]),
        Err(ImageFault::Counter {
            at: Pbn(87),
            point: Point(3074),
        }),
    ),
    (
        (&[(1, 1), (2, 254), (3, 3)], &[(3074, 2), (3077, 0)], &[]),
        Err(ImageFault::Counter {
            at: Pbn(85),
            point: Point(3077),
        }),
    ),
    (
        (
            &[(0, 1), (1, 1), (2, 254), (3, 3)],
            &[(3074, 2), (3077, 0)],
            &[],
        ),
        Err(ImageFault::Counter {
            at: Pbn(87),
            point: Point(3074),
        }),
    ),
];

// What is counted on a device of which so many calls go on, and how many calls its log has then. The second block of the slab's
// journal is one of another image.
fn count(alloc: Global, written: Written, passes: u64) -> Result<(Counted, usize), AllocError> {
    let (counters, updates, window) = written;
    let head = Super {
        geometry: Geometry::DEFAULT,
        clean: false,
        start: 6,
    };
    let mut blocks = zeros(alloc, 154)?;
    put_journal(&mut blocks, 6, 6, window);
    put_block(&mut blocks, 149, &reference_block(counters, &[COMMIT]));
    put_block(&mut blocks, 150, &slab_block(1, 7, updates));
    put_block(&mut blocks, 151, &slab_block(2, 7, &[(3000, 3)]));
    let mut device = MemDisk::from_blocks(alloc, blocks)?;
    if device.blocks() != 154 {
        return Err(AllocError);
    }
    device.set_fuse(passes);
    let counted = match counts(alloc, &head, &mut device) {
        Ok(recovered) => Ok(shown(&recovered)),
        Err(fault) => Err(fault),
    };
    Ok((counted, device.calls().len()))
}

fn shown(recovered: &RecoveredCounts) -> ([u16; 4], u64) {
    let counts = recovered.counts.as_slice();
    let applied = match recovered.sectors.first() {
        Some(points) => points.applied.0,
        None => 0,
    };
    let first = [
        count_at(counts, 0),
        count_at(counts, 1),
        count_at(counts, 2),
        count_at(counts, 3),
    ];
    (first, applied)
}

fn count_at(counts: &[u16], place: usize) -> u16 {
    match counts.get(place) {
        Some(count) => *count,
        None => 0,
    }
}

// The first row that is counted otherwise: 8 blocks of the journal, a reference block and 4 of the slab's journal are read.
fn other_row(alloc: Global) -> Result<Option<(usize, Counted, usize)>, AllocError> {
    for (i, &(written, wanted)) in ROWS.iter().enumerate() {
        let (counted, calls) = count(alloc, written, 100)?;
        if counted != wanted || calls != 13 {
            return Ok(Some((i, counted, calls)));
        }
    }
    Ok(None)
}

// The first read that fails and isn't told as one.
fn other_stop(
    alloc: Global,
    written: Written,
) -> Result<Option<(u64, Counted, usize)>, AllocError> {
    for passes in 0..13 {
        let (counted, calls) = count(alloc, written, passes)?;
        if counted != Err(ImageFault::Device) || calls as u64 != passes + 1 {
            return Ok(Some((passes, counted, calls)));
        }
    }
    Ok(None)
}

#[test]
fn images_are_counted(rt: HostRuntime) -> Result<(), Fail> {
    let others = (other_row(rt.alloc())?, other_stop(rt.alloc(), ROWS[0].0)?);
    assert_eq!(rt; others, (None, None));
    Ok(())
}
