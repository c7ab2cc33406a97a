use crate::images::{Image, Journal, LEAF, device};
use audit::{Difference, audit};
use blk_base::{Entry, Geometry, Lba, Mapping, Pbn, Point};
use image_model::ImageFault;
use image_status::{ImageStatus, read_status};
use page_codec::PageFault;
use std::alloc::{AllocError, Global};
use std::test::Fail;
use test_images::Page;

// The image has one slab: the data blocks 85 to 148, and the reference block 149. Its last session wasn't closed; the window
// is one block, of sequence 6, in block 7. The leaf of address 0 may stand at block 85.

// What the journal has; the leaf, where block 85 has it; and counters of data blocks by their offsets.
type Written = (Journal, &'static [Page], &'static [(u16, u8)]);

// How many blocks differ, the first of them, how many are used, and how many there are; or the fault.
type Audited = Result<(usize, Option<Difference>, u32, u32), ImageFault>;

const LINK: Entry = Entry::NewPage {
    page: LEAF,
    at: Pbn(85),
};

// Address 5 is mapped to block 86; and to the leaf's own block.
const MAPS: Entry = Entry::Remap {
    at: Lba(5),
    old: Mapping::Unmapped,
    new: Mapping::At(Pbn(86)),
};

const SHARES: Entry = Entry::Remap {
    at: Lba(5),
    old: Mapping::Unmapped,
    new: Mapping::At(Pbn(85)),
};

const MAPPED: Journal = &[(6, 6, &[LINK, MAPS])];

const SHARED: Journal = &[(6, 6, &[LINK, SHARES])];

const BLANK: &[Page] = &[(LEAF, 85, &[])];

static ROWS: [(Written, Audited); 7] = [
    ((&[(6, 6, &[])], &[], &[]), Ok((0, None, 0, 64))),
    // The leaf and the block of address 5 are counted by the window.
    ((MAPPED, BLANK, &[]), Ok((0, None, 2, 64))),
    // A mapping that isn't counted.
    (
        (MAPPED, &[(LEAF, 85, &[(6, Mapping::At(Pbn(87)))])], &[]),
        Ok((
            1,
            Some(Difference {
                at: Pbn(87),
                stored: 0,
                mapped: 1,
            }),
            2,
            64,
        )),
    ),
    // Counts of what isn't mapped so often.
    (
        (MAPPED, BLANK, &[(3, 9), (1, 1)]),
        Ok((
            2,
            Some(Difference {
                at: Pbn(86),
                stored: 2,
                mapped: 1,
            }),
            3,
            64,
        )),
    ),
    (
        (MAPPED, &[], &[]),
        Err(ImageFault::Page {
            at: Pbn(85),
            fault: PageFault::Header,
        }),
    ),
    // The leaf is the data of an address too; a count past its limit is found before.
    (
        (SHARED, BLANK, &[]),
        Err(ImageFault::SharedPage { at: Pbn(85) }),
    ),
    (
        (SHARED, BLANK, &[(4, 255)]),
        Err(ImageFault::Counter {
            at: Pbn(89),
            point: Point(0),
        }),
    ),
];

fn image((journal, pages, counters): Written) -> Image {
    Image {
        geometry: Geometry::DEFAULT,
        clean: false,
        start: 6,
        journal,
        pages,
        counters,
        commits: &[],
        updates: &[],
    }
}

// What the audit of a device finds of which so many calls go on, and how many calls its log has then.
fn audited(alloc: Global, written: Written, passes: u64) -> Result<(Audited, usize), AllocError> {
    let mut device = device(alloc, &image(written))?;
    device.set_fuse(passes);
    let found = match audit(alloc, &mut device) {
        Ok(report) => Ok((
            report.differs.len(),
            report.differs.first().copied(),
            report.used,
            report.total,
        )),
        Err(fault) => Err(fault),
    };
    Ok((found, device.calls().len()))
}

// The first row of which something else is found.
fn other_row(alloc: Global) -> Result<Option<(usize, Audited)>, AllocError> {
    for (i, &(written, wanted)) in ROWS.iter().enumerate() {
        let (found, _calls) = audited(alloc, written, 1000)?;
        if found != wanted {
            return Ok(Some((i, found)));
        }
    }
    Ok(None)
}

// The first read that fails and isn't told as one: those of the superblock, the journal's 8 blocks, the 60 roots, the reference
// block and the 4 blocks of the slab's journal.
fn other_stop(
    alloc: Global,
    written: Written,
) -> Result<Option<(u64, Audited, usize)>, AllocError> {
    for passes in 0..74 {
        let (found, calls) = audited(alloc, written, passes)?;
        if found != Err(ImageFault::Device) || calls as u64 != passes + 1 {
            return Ok(Some((passes, found, calls)));
        }
    }
    Ok(None)
}

// And what an image says of itself: its window, and no page of its index.
#[test]
fn images_are_audited(rt: HostRuntime) -> Result<(), Fail> {
    let alloc = rt.alloc();
    let others = (other_row(alloc)?, other_stop(alloc, ROWS[0].0)?);
    assert_eq!(rt; others, (None, None));
    let mut device = device(alloc, &image((MAPPED, BLANK, &[(3, 9)])))?;
    assert_eq!(rt;
        read_status(alloc, &mut device),
        Ok(ImageStatus {
            clean: false,
            entries: 2,
            chapters: 0,
            used: 3,
            total: 64,
            logical: 1000,
        })
    );
    Ok(())
}
