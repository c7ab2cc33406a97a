//! Example images for the tests of several crates: blocks as their codecs spell them, put where they stand in an image; and
//! how a block or a text differs from what is wanted.
#![tactic(auto)]

mod blocks;
mod images;
mod spelled;
mod texts;

pub use blocks::{journal_block, page_block, reference_block, slab_block};
pub use images::{Page, empty_image, fresh, put_block, put_journal, put_pages, zeros};
pub use spelled::{Mismatch, Spelling, difference, with_added, with_byte};
pub use texts::{first_other, not_shown};
