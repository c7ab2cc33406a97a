ghost use Rattle.std.specs.Prelude.{◌≡◌, ◌^◌, ◌<◌};

use blk_base::Point;
use slab_codec::{SlabEntries, SlabEntry};

/// How many updates a block has at most.
pub const UPDATES_PER_BLOCK: usize = 320;

/// The updates of a block.
pub(crate) type Updates = SlabEntries<UPDATES_PER_BLOCK>;

/// The update with this point of the data block with this offset.
pub(crate) fn slab_entry(point: u64, offset: u32) -> SlabEntry
    requires { offset < 2 ^ 16 }
    ensures value { result ≡ record { point = record { 0 = point }; offset = offset } }
    ensures fits { point < 2 ^ 64 }
{
    SlabEntry {
        point: Point(point),
        offset: offset as u16,
    }
}

/// The same updates once more.
pub(crate) fn copy_of(entries: &Updates) -> Updates
    ensures { result ≡ entries.now }
{
    let mut copy = SlabEntries::new();
    copy.extend_from_slice(entries.as_slice());
    copy
}
