//! Chapters of the index: where blocks with certain names were stored last, sorted by name, and their pages as bytes.
//!
//! A chapter has at most 680 records. It has four pages, which are filled in order with 170 records each. All numbers
//! are little-endian.
//!
//! | Byte in the page | Field |
//! |---|---|
//! | 0 | nonce of the image, 8 bytes |
//! | 8 | number of the chapter, 4 bytes |
//! | 12 | page, 0 to 3 |
//! | 13 | number of its records, at most 170 |
//! | 14 | two zeros |
//! | 16 | records of 24 bytes, whose names rise strictly |
//! | behind them | zeros |
//!
//! A record has the name, 16 bytes, and the block, 8 bytes, of which the high four are zeros. Names are ordered byte by
//! byte. A block outside this form is no page, and holds nothing.
//!
//! Only tested: a chapter of 680 names, page by page, with bytes and answers that another program computed.
#![tactic(auto)]

mod added;
mod chapter;
mod entry;
mod found;
mod laws;
mod open_chapter;
mod ordered;
mod page_reader;
mod page_search;
mod page_writer;

pub use added::Added;
pub use chapter::Chapter;
pub use entry::Record;
pub use found::PageFind;
pub use laws::{
    a_page_says_its_locations, a_record_is_found, bytes_have_one_reading, pages_have_all_records,
    what_is_added_is_one,
};
pub use open_chapter::OpenChapter;
pub use ordered::{location, place_of};
pub use page_reader::{PageRecords, read_page};
pub use page_search::page_find;
