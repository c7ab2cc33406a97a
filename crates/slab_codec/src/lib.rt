//! A slab's reference counters and its journal as bytes.
//!
//! A block of either has eight sectors of 512 bytes, each of which can be read by itself. All numbers are
//! little-endian.
//!
//! A sector of counters. Sector `j` of a slab's reference block `r` has the counters of the data blocks from offset
//! (`r` × 8 + `j`) × 504 on; those past the slab's end are zeros.
//!
//! | Byte in the sector | Field |
//! |---|---|
//! | 0 | commit point, 8 bytes: the updates of these counters up to it are in them |
//! | 8 | 504 counters of one byte |
//!
//! A sector of a slab's journal.
//!
//! | Byte in the sector | Field |
//! |---|---|
//! | 0 | nonce, 8 bytes |
//! | 8 | sequence, 8 bytes |
//! | 16 | slab, 4 bytes |
//! | 20 | the sector's number, 2 bytes |
//! | 22 | the number of its entries, 2 bytes |
//! | 24 | `VSS1` |
//! | 28 | four zeros |
//! | 32 | 40 entries of 12 bytes; those past the number are zeros |
//!
//! | Byte in the entry | Field |
//! |---|---|
//! | 0 | point, 8 bytes |
//! | 8 | offset of the data block in its slab, 2 bytes |
//! | 10 | half: the point mod 2 |
//! | 11 | zero |
//!
//! Only tested: vectors that another program computed; a sector for each rule.
#![tactic(auto)]

mod counters;
mod decoder;
mod encoder;
mod format;
mod forms;
mod laws;

pub use counters::{encode_reference, reference_sector, sector_counters};
pub use decoder::slab_sector;
pub use encoder::encode_slab;
pub use forms::{
    ReferenceBlock, ReferenceSector, SlabEntries, SlabEntry, SlabJournalBlock, SlabSector,
};
pub use laws::{a_counter_stands_at_its_place, bytes_have_one_reading, what_is_written_is_read};
