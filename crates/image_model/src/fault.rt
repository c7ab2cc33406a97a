use blk_base::{Pbn, Point};
use image_layout::SuperFault;
use page_codec::PageFault;
use thiserror::Error;

// Long to prove: each fault is shown to have its own text.
/// What is wrong with the blocks of a device that are no image, or why they weren't looked at. Which fault an image has,
/// where it has several, is said in `specs/Faults`, and so is its text (`image_fault_text`).
#[derive(Clone, Copy, Debug, PartialEq, Eq, Error)]
pub enum ImageFault {
    /// Its block 0 is no superblock; or the session that was stopped has used up the journal's sequences.
    #[error(transparent)]
    Super(SuperFault),
    /// This block of the recovery journal is the first of the window that can't be replayed.
    #[error("window {sequence}")]
    Window { sequence: u64 },
    /// The page at this block is the first one of the block map that can't be read.
    #[error("page {} {fault}", at.0)]
    Page { at: Pbn, fault: PageFault },
    /// The count of this data block leaves 0 to 254 at this point: the least such block.
    #[error("counter {}", at.0)]
    Counter { at: Pbn, point: Point },
    /// This block has a page of the block map and the data of an address: the least such block.
    #[error("shared page {}", at.0)]
    SharedPage { at: Pbn },
    /// The stored count of this data block isn't the number of its mappings: the least such block.
    #[error("block {} stored {stored} mapped {mapped}", at.0)]
    Counts { at: Pbn, stored: u32, mapped: u64 },
    /// A call of the device failed.
    #[error("device fault")]
    Device,
    /// The last session wasn't closed.
    #[error("unclean")]
    Unclean,
    /// There is no memory for what is read.
    #[error("no memory")]
    Memory,
}
