use blk_base::{Block, Entry, Geometry, Mapping, Mappings, PageId, Pbn, Point};
use journal_codec::{Entries, JournalBlock, encode as encode_journal};
use page_codec::{MapPage, PageHead, encode as encode_page};
use slab_codec::{
    ReferenceBlock, ReferenceSector, SlabEntries, SlabEntry, SlabJournalBlock, encode_reference,
    encode_slab,
};

/// The page that stands at a block, with these mappings in its slots. Slots from 812 on are left out.
pub fn page_block(geometry: Geometry, page: PageId, at: u32, slots: &[(u16, Mapping)]) -> Block {
    let mut mappings = Mappings::new();
    for &(slot, mapping) in slots {
        if slot < 812 {
            mappings.set(slot, mapping);
        }
    }
    let head = PageHead {
        geometry,
        page,
        at: Pbn(at),
    };
    let mut block = Block::zero();
    encode_page(&MapPage { head, mappings }, &mut block);
    block
}

/// A block of the recovery journal, with its sequence, the head that it names, and its entries. Those behind the first 192 are
/// left out.
pub fn journal_block(nonce: u64, sequence: u64, head: u64, window: &[Entry]) -> Block {
    let mut entries = Entries::new();
    for &entry in window {
        if !entries.is_full() {
            entries.push(entry);
        }
    }
    let mut block = Block::zero();
    encode_journal(
        &JournalBlock {
            nonce,
            sequence,
            head,
            entries,
        },
        &mut block,
    );
    block
}

/// A slab's first reference block, with counters by the offsets of their data blocks, and the commit points of its first
/// sectors. The others are 0.
pub fn reference_block(counters: &[(u16, u8)], commits: &[u64]) -> Block {
    let mut sectors = [ReferenceSector {
        commit: Point(0),
        counters: [0; 504],
    }; 8];
    for (i, &commit) in commits.iter().enumerate() {
        if let Some(sector) = sectors.get_mut(i) {
            sector.commit = Point(commit);
        }
    }
    for &(offset, count) in counters {
        let place = usize::from(offset);
        if let Some(sector) = sectors.get_mut(place / 504)
            && let Some(counter) = sector.counters.get_mut(place % 504)
        {
            *counter = count;
        }
    }
    let mut block = Block::zero();
    encode_reference(&ReferenceBlock { sectors }, &mut block);
    block
}

/// A block of the first slab's journal, with updates by their points and the offsets of their data blocks. Those behind the
/// first 320 are left out.
pub fn slab_block(nonce: u64, sequence: u64, updates: &[(u64, u16)]) -> Block {
    let mut entries = SlabEntries::new();
    for &(point, offset) in updates {
        if !entries.is_full() {
            entries.push(SlabEntry {
                point: Point(point),
                offset,
            });
        }
    }
    let mut block = Block::zero();
    encode_slab(
        &SlabJournalBlock {
            nonce,
            sequence,
            slab: 0,
            entries,
        },
        &mut block,
    );
    block
}
