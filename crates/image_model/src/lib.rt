//! What the blocks of an image mean: the window of its recovery journal, its map, how often each data block is mapped
//! and how often its counters say so, when an image is sound, and what is wrong with one that isn't
//! (`specs/`). Definitions, and the laws that each names one thing.
//!
//! What is no fault: an entry of an address whose leaf isn't linked replaces a slot of no page, and its updates count;
//! nor is a new page whose parent isn't linked, or one that is linked already. A new page of level 255 puts nothing
//! anywhere. Two pages may stand at one block as far as the map is concerned: only one of them can have its own header
//! there, so the other one has a page's fault. Counts of mappings are over all addresses that the leaves have slots
//! for, past the logical size too. No block of the index is looked at (`specs/Looked`).
//!
//! Only tested: the texts of the faults.
//!
//! No rows yet: of whole images (`IsSound`) the empty one of the default sizes is accepted, and one is refused for each
//! clause but `unshared`, of which the part alone is pinned (`WholeRows` of `model_rows`). Of `IsImageFault` as a whole a device
//! without a superblock is accepted, and sound images are refused by a law.
#![tactic(auto)]

mod fault;
mod laws;

pub use fault::ImageFault;
pub use laws::{
    a_block_has_one_count, a_journal_has_one_window, a_sound_image_has_no_fault,
    an_empty_image_is_sound,
};
