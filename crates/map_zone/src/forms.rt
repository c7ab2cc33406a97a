use blk_base::{Mapping, PageId, Pbn};
use page_codec::PageFault;
use thiserror::Error;

/// What is known of an address.
#[derive(Clone, Copy, Debug, PartialEq, Eq)]
pub enum Looked {
    /// It is mapped so.
    Is(Mapping),
    /// This leaf has it, which stands at this block and isn't in memory.
    NeedLeaf(PageId, Pbn),
    /// The page of this level above it, or its leaf at level 0, isn't linked, and each page above that is.
    NoPage(u8),
}

/// What became of an entry.
#[derive(Clone, Copy, Debug, PartialEq, Eq)]
pub enum Applied {
    /// The map has it.
    Done,
    /// Its address is in this leaf, which stands at this block and isn't in memory. Nothing has changed.
    NeedLeaf(PageId, Pbn),
}

/// Why a leaf wasn't installed.
#[derive(Clone, Copy, Debug, PartialEq, Eq, Error)]
pub enum NotInstalled {
    /// The bytes aren't those of this leaf.
    #[error("page {0}")]
    Page(PageFault),
    /// Every frame has a page that is dirty or being written.
    #[error("no frame")]
    NoFrame,
}
