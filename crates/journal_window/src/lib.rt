//! The window of a whole image's recovery journal: what the journal says since the oldest block that is still needed.
//!
//! The journal's blocks are read from the device once, in the order of their slots; then the window is found in them
//! alone. Its last block is the one with the greatest sequence, of those that stand in their own slots and are within
//! 2^32 of the superblock's `start`. It names the first block, and each block from there on must be there and whole, the
//! last one as far as a stop left it, with entries of this image alone (`image_model`, `specs/Windows`).
//!
//! Only tested: windows that go round the ring, torn blocks with each of 8 sectors old or new, blocks of 192 entries,
//! hostile fields, reads that fail.
//!
//! No rows yet: an accepted case of a window's fault that was read.
#![tactic(auto)]

mod entries;
mod finder;
mod journal_reader;
mod laws;
mod newest;
mod replayed_blocks;
mod window;

pub use finder::window_of;
pub use journal_reader::read_window;
pub use laws::{a_journal_has_one_answer, reads_show_the_window};
pub use window::JournalWindow;
