//! The block map's pages as bytes.
//!
//! A page has 812 mappings. In a leaf they are those of addresses, and above they lead to pages. All numbers are
//! little-endian.
//!
//! | Byte in the page | Field |
//! |---|---|
//! | 0 | `VMP1` |
//! | 4 | nonce of the image, 8 bytes |
//! | 12 | the page's own block, 8 bytes |
//! | 20 | tree, 1 byte |
//! | 21 | level, 1 byte; a leaf has 0 |
//! | 22 | two zeros |
//! | 24 | the page's number on its level, 4 bytes |
//! | 28 | eight zeros |
//! | 36 | 812 entries of 5 bytes; that of slot `s` begins at 36 + 5 × `s` |
//!
//! An entry's first byte has its state in the low half, and in the high half the bits of its block from 32 on. Then
//! come the low 32 bits.
//!
//! | State | Block | Mapping |
//! |---|---|---|
//! | 0 | 0 | unmapped |
//! | 1 | 0, in a leaf | zeros |
//! | 1 | a data block of a slab | that block |
//! | 2 to 15 | any | refused, `Compressed` |
//! | otherwise | | refused, `OutOfRange` |
//!
//! An entry may cross two sectors. After a stop within the write of a page such an entry may be a mixture, and so each
//! slot can be read by itself.
//!
//! Most pages have few mappings: reader and writer pass over 28 slots at once where all of them are unmapped, and the
//! reader over all 812.
//!
//! Only tested: vectors that another program computed; a page for each fault.
#![tactic(auto)]

mod decoder;
mod encoder;
mod fault;
mod forms;
mod laws;

pub use decoder::{decode, decode_mappings, slot};
pub use encoder::{are_unmapped, encode, encode_unmapped};
pub use fault::PageFault;
pub use forms::{MapPage, PageHead};
pub use laws::{
    a_page_is_its_slots, a_torn_page_keeps_whole_slots, bytes_have_one_reading,
    what_is_written_is_read,
};
