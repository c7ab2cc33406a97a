//! The cache of the block map's leaf pages: which pages are in memory, and from which points of the recovery journal on
//! the entries set in them aren't durable.
//!
//! Entries of the journal change pages in memory, which are written some time later (`dirty_pages`). Only a clean page is
//! given up for another one, and only where no frame is empty: the one that has been clean for the longest time, by turns
//! that are counted in 64 bits.
//!
//! All room is taken in `Cache::new`: no later call can be refused for memory. A page is found in as many steps as the
//! logarithm of the number of pages, and so are the one that is handed out next and the one that is given up next.
//!
//! Only tested: a table of calls.
#![tactic(auto)]

mod cache;
mod clean;
mod index;
mod laws;
mod no_frame;

pub use cache::Cache;
pub use laws::{
    a_call_has_one_result, a_page_is_as_it_was_set, a_page_is_out_until_it_is_written,
    nothing_unwritten_is_lost,
};
pub use no_frame::NoFrame;
