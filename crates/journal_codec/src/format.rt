ghost use Rattle.std.specs.Prelude.{◌≡◌, length};
ghost use Rattle.journal_codec.specs.BlockBytes.{entry_form};

use blk_base::{Entry, Lba, Mapping, PageId, Pbn};
use byte_fields::{
    put, put_mapping, put_u8, put_u16, put_u32, put_u64, read_mapping, read_u8, read_u32,
};
use sector_records::Format;

/// How many entries a sector holds.
pub(crate) const PER_SECTOR: usize = 24;

/// What the sectors of a journal's block have in common.
#[derive(Drop)]
pub(crate) struct JournalHead {
    pub(crate) nonce: u64,
    pub(crate) sequence: u64,
    pub(crate) head: u64,
}

impl Format for JournalHead {
    ghost use Rattle.std.proofs.Common.{lit≤, lit<};
    ghost use Rattle.journal_codec.specs.BlockBytes.{entry_bytes, head_bytes};
    ghost use Rattle.journal_codec.specs.Grammar.{HoldsEntry};
    ghost use Rattle.journal_codec.specs.Lengths.{length-entry, length-head};

    type Record = Entry;

    const WIDTH: usize = 20;

    ghost WIDTH = { 20 };

    const PER_SECTOR: usize = PER_SECTOR;

    ghost PER_SECTOR = { 24 };

    ghost head_bytes = { λ head number count.
        head_bytes head.nonce head.sequence head.head number count };

    ghost record_bytes = { entry_bytes };

    ghost is_spelled = { HoldsEntry };

    #[tactic(auto, unfolding(crate::specs::BlockBytes::head_bytes))]
    fn put_head(&self, number: u16, count: u16, sector: &mut [u8]) {
        put_u64(sector, 0, self.nonce);
        put_u64(sector, 8, self.sequence);
        put_u64(sector, 16, self.head);
        put_u16(sector, 24, number);
        put_u16(sector, 26, count);
        put(sector, 28, b"VJS1");
    }

    fn put_record(item: Entry, into: &mut [u8]) {
        match item {
            Entry::Remap { at, old, new } => put_form(into, 0, 0, 0, at.0, old, new),
            Entry::NewPage { page, at } => put_form(
                into,
                1,
                page.tree,
                page.level,
                page.index,
                Mapping::Unmapped,
                Mapping::At(at),
            ),
        }
    }

    fn read_record(from: &[u8]) -> Entry {
        let number = read_u32(from, 4);
        if read_u8(from, 0) == 0 {
            Entry::Remap {
                at: Lba(number),
                old: read_mapping(from, 8),
                new: read_mapping(from, 13),
            }
        } else {
            Entry::NewPage {
                page: PageId {
                    tree: read_u8(from, 1),
                    level: read_u8(from, 2),
                    index: number,
                },
                at: Pbn(read_u32(from, 14)),
            }
        }
    }

    ghost head_width = { λ head number count.
        length-head head.nonce head.sequence head.head number count };

    ghost record_width = { length-entry };

    ghost fits = { lit≤ tt };

    ghost few = { lit< tt };
}

#[tactic(auto, unfolding(crate::specs::BlockBytes::entry_form))]
fn put_form(into: &mut [u8], kind: u8, tree: u8, level: u8, number: u32, old: Mapping, new: Mapping)
    requires { length into.old ≡ 20 }
    ensures { into.new ≡ entry_form kind tree level number old new }
{
    put_u8(into, 0, kind);
    put_u8(into, 1, tree);
    put_u8(into, 2, level);
    put_u8(into, 3, 0);
    put_u32(into, 4, number);
    put_mapping(into, 8, old);
    put_mapping(into, 13, new);
    put_u16(into, 18, 0);
}
