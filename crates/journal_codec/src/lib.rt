//! The recovery journal's blocks as bytes.
//!
//! A block has eight sectors of 512 bytes, each of which can be read by itself. All numbers are little-endian.
//!
//! | Byte in the sector | Field |
//! |---|---|
//! | 0 | nonce, 8 bytes |
//! | 8 | sequence, 8 bytes |
//! | 16 | head, 8 bytes |
//! | 24 | the sector's number, 2 bytes |
//! | 26 | the number of its entries, 2 bytes |
//! | 28 | `VJS1` |
//! | 32 | 24 entries of 20 bytes; those past the number are zeros |
//!
//! | Byte in the entry | Field |
//! |---|---|
//! | 0 | kind: 0 maps an address anew, 1 has a new page of the block map |
//! | 1 | tree of the page (kind 0: zero) |
//! | 2 | level of the page (kind 0: zero) |
//! | 3 | zero |
//! | 4 | the address, or the page's number on its level, 4 bytes |
//! | 8 | old mapping, 5 bytes; kind 1: unmapped |
//! | 13 | new mapping, 5 bytes; kind 1: the page's block |
//! | 18 | two zeros |
//!
//! A mapping's first byte is 0 for unmapped, with block 0, and else 1; then comes the block, where 0 stands for zeros.
//!
//! A sector is valid if it has this form with the reader's nonce and its own number, at most 24 entries, a sequence
//! below 2^55 that isn't 0, no head above it, and if each new page is of one of the 60 trees and its block isn't 0
//! (`specs/Grammar.antt`). A block's prefix is the longest list of sectors from sector 0 on that are valid, have sector
//! 0's sequence and head, and have no entries behind a sector with fewer than 24. It is whole if it has all eight.
//!
//! Only tested: vectors that another program computed.
#![tactic(auto)]

mod decoder;
mod encoder;
mod format;
mod forms;
mod laws;

pub use decoder::{block_prefix, sector};
pub use encoder::encode;
pub use forms::{Entries, JournalBlock, Prefix, Sector};
pub use laws::{
    a_run_is_its_sectors, a_torn_write_leaves_a_prefix, bytes_have_one_reading,
    what_is_written_is_read,
};
