ghost use Rattle.std.specs.Prelude.{◌≡◌};

use crate::SlabEntry;
use blk_base::Point;
use byte_fields::{put, put_u8, put_u16, put_u32, put_u64, read_u16, read_u64};
use sector_records::Format;

/// How many entries a sector holds.
pub(crate) const PER_SECTOR: usize = 40;

/// What the sectors of a slab journal's block have in common.
#[derive(Drop)]
pub(crate) struct SlabHead {
    pub(crate) nonce: u64,
    pub(crate) sequence: u64,
    pub(crate) slab: u32,
}

impl Format for SlabHead {
    ghost use Rattle.std.specs.Prelude.{◌<◌, ◌^◌};
    ghost use Rattle.std.proofs.Common.{lit≤, lit<};
    ghost use Rattle.slab_codec.specs.BlockBytes.{entry_bytes, head_bytes};
    ghost use Rattle.slab_codec.specs.Lengths.{length-entry, length-head};

    type Record = SlabEntry;

    const WIDTH: usize = 12;

    ghost WIDTH = { 12 };

    const PER_SECTOR: usize = PER_SECTOR;

    ghost PER_SECTOR = { 40 };

    ghost head_bytes = { λ head number count.
        head_bytes head.nonce head.sequence head.slab number count };

    ghost record_bytes = { entry_bytes };

    ghost is_spelled = { λ entry. (entry.point.0 < 2 ^ 64) × (entry.offset < 2 ^ 16) };

    #[tactic(auto, unfolding(crate::specs::BlockBytes::head_bytes))]
    fn put_head(&self, number: u16, count: u16, sector: &mut [u8]) {
        put_u64(sector, 0, self.nonce);
        put_u64(sector, 8, self.sequence);
        put_u32(sector, 16, self.slab);
        put_u16(sector, 20, number);
        put_u16(sector, 22, count);
        put(sector, 24, b"VSS1");
        put_u32(sector, 28, 0);
    }

    #[tactic(auto, unfolding(crate::specs::BlockBytes::entry_bytes))]
    fn put_record(item: SlabEntry, into: &mut [u8]) {
        put_u64(into, 0, item.point.0);
        put_u16(into, 8, item.offset);
        put_u8(into, 10, (item.point.0 % 2) as u8);
        put_u8(into, 11, 0);
    }

    fn read_record(from: &[u8]) -> SlabEntry {
        SlabEntry {
            point: Point(read_u64(from, 0)),
            offset: read_u16(from, 8),
        }
    }

    ghost head_width = { λ head number count.
        length-head head.nonce head.sequence head.slab number count };

    ghost record_width = { length-entry };

    ghost fits = { lit≤ tt };

    ghost few = { lit< tt };
}
