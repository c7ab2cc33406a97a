ghost use Rattle.std.specs.Prelude.{IfOk};
ghost use Rattle.disk_model.specs.Fuses.{HasNotCut};

use blk_base::Mapping::{At, Unmapped, Zero};
use blk_base::{Block, Entry, Geometry, Lba, Mapping, PageId, Pbn, Super};
use disk_model::MemDisk;
use image_layout::write_super;
use std::alloc::{AllocError, Global};
use test_images::{Page, put_block, put_journal, put_pages, reference_block, slab_block, zeros};

/// Blocks of the recovery journal, each with its sequence, the head that it names, and its entries.
pub type Journal = &'static [(u64, u64, &'static [Entry])];

/// An image of one slab, with a journal of 8 blocks.
#[derive(Clone, Copy)]
pub struct Image {
    pub geometry: Geometry,
    /// Whether its last session was closed, and where that or the next one begins.
    pub clean: bool,
    pub start: u64,
    pub journal: Journal,
    /// Its pages; the other roots have no mappings.
    pub pages: &'static [Page],
    /// The counters of data blocks by their offsets, and the commit points of the first sectors.
    pub counters: &'static [(u16, u8)],
    pub commits: &'static [u64],
    /// The entries of the slab's journal, each with its point and the offset of its block.
    pub updates: &'static [(u64, u16)],
}

/// An image of 92 blocks: the journal's blocks are 1 to 8, the roots 9 to 68, the index's 69 to 72, the data blocks 73 to 88,
/// the reference block 89, and the slab's journal 90 and 91.
pub const SMALL: Geometry = Geometry {
    slab_blocks: 16,
    index: 4,
    slab_journal: 2,
    ..Geometry::DEFAULT
};

pub const TALL: Geometry = Geometry { height: 3, ..SMALL };

/// Two sectors of counters: the data blocks are 73 to 672, the reference blocks 673, and the slab's journal 674 and 675.
pub const WIDE: Geometry = Geometry {
    slab_blocks: 600,
    ..SMALL
};

/// The first leaf, and the pages above it.
pub const LEAF: PageId = PageId {
    tree: 0,
    level: 0,
    index: 0,
};

pub const ABOVE: PageId = PageId { level: 1, ..LEAF };

pub const TOP: PageId = PageId { level: 2, ..LEAF };

const NEW_LEAF: PageId = PageId { tree: 1, ..LEAF };

const NEW_ABOVE: PageId = PageId { tree: 1, ..ABOVE };

// Two addresses are mapped.
const LEAF_SLOTS: &[(u16, Mapping)] = &[(5, At(Pbn(74))), (6, At(Pbn(75))), (8, Zero)];

// The images `CLOSED` and `HIGH`, from which others differ: a static can't be the base of one.
const ENDED: Image = Image {
    geometry: SMALL,
    clean: true,
    start: 6,
    journal: &[(5, 5, &[])],
    pages: &[(ABOVE, 9, &[(0, At(Pbn(73)))]), (LEAF, 73, LEAF_SLOTS)],
    counters: &[(0, 1), (1, 1), (2, 1)],
    commits: &[3000],
    updates: &[(2990, 2)],
};

/// The leaf of the first addresses stands at block 73. The slab's journal has an update that its counter includes.
pub static CLOSED: Image = ENDED;

/// The same with a session that wasn't closed.
pub static UNCLEAN: Image = Image {
    clean: false,
    journal: &[
        (5, 5, &[]),
        (
            6,
            6,
            &[
                Entry::Remap {
                    at: Lba(5),
                    old: At(Pbn(74)),
                    new: At(Pbn(76)),
                },
                Entry::Remap {
                    at: Lba(9),
                    old: Unmapped,
                    new: At(Pbn(75)),
                },
            ],
        ),
    ],
    ..ENDED
};

/// That session made a leaf of tree 1 at block 77, and mapped its first address.
pub static GROWN: Image = Image {
    clean: false,
    journal: &[
        (5, 5, &[]),
        (
            6,
            6,
            &[
                Entry::NewPage {
                    page: NEW_LEAF,
                    at: Pbn(77),
                },
                Entry::Remap {
                    at: Lba(812),
                    old: Unmapped,
                    new: At(Pbn(78)),
                },
            ],
        ),
    ],
    pages: &[
        (ABOVE, 9, &[(0, At(Pbn(73)))]),
        (LEAF, 73, LEAF_SLOTS),
        (NEW_LEAF, 77, &[]),
    ],
    ..ENDED
};

const ENDED_HIGH: Image = Image {
    geometry: TALL,
    pages: &[
        (TOP, 9, &[(0, At(Pbn(77)))]),
        (ABOVE, 77, &[(0, At(Pbn(73)))]),
        (LEAF, 73, LEAF_SLOTS),
    ],
    counters: &[(0, 1), (1, 1), (2, 1), (4, 1)],
    ..ENDED
};

/// A page stands between the root and the leaf, at block 77.
pub static HIGH: Image = ENDED_HIGH;

/// The same with a session that made two pages of tree 1, and wasn't closed.
pub static HIGH_GROWN: Image = Image {
    clean: false,
    journal: &[
        (5, 5, &[]),
        (
            6,
            6,
            &[
                Entry::NewPage {
                    page: NEW_ABOVE,
                    at: Pbn(79),
                },
                Entry::NewPage {
                    page: NEW_LEAF,
                    at: Pbn(78),
                },
            ],
        ),
    ],
    pages: &[
        (TOP, 9, &[(0, At(Pbn(77)))]),
        (ABOVE, 77, &[(0, At(Pbn(73)))]),
        (LEAF, 73, LEAF_SLOTS),
        (NEW_ABOVE, 79, &[]),
        (NEW_LEAF, 78, &[]),
    ],
    ..ENDED_HIGH
};

/// The blocks of this image. The slab's counters stand behind its data blocks, and its journal behind them.
pub fn blocks_of(alloc: Global, image: &Image) -> Result<Vec<Block>, AllocError> {
    let geometry = image.geometry;
    let data = geometry.index.saturating_add(69);
    let counters = data.saturating_add(geometry.slab_blocks);
    let updates = counters.saturating_add(1);
    let mut blocks = zeros(alloc, updates.saturating_add(geometry.slab_journal))?;
    let head = Super {
        geometry,
        clean: image.clean,
        start: image.start,
    };
    if let Some(into) = blocks.first_mut() {
        write_super(&head, into);
    }
    put_pages(&mut blocks, geometry, image.pages);
    for &(sequence, head, window) in image.journal {
        put_journal(&mut blocks, sequence, head, window);
    }
    let counted = reference_block(image.counters, image.commits);
    put_block(&mut blocks, counters, &counted);
    put_block(&mut blocks, updates, &slab_block(1, 2, image.updates));
    Ok(blocks)
}

/// A device with this image, on which nothing is pending.
pub fn device(alloc: Global, image: &Image) -> Result<MemDisk, AllocError>
    ensures { IfOk result (λ device. HasNotCut device.fuse) }
{
    MemDisk::from_blocks(alloc, blocks_of(alloc, image)?)
}
