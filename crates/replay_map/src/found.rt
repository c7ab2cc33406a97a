use crate::Link;
use blk_base::{Mapping, PageId, Pbn};

/// A slot of a linked page into which the window puts a mapping.
#[derive(Clone, Copy, Debug, PartialEq, Eq)]
pub struct SlotChange {
    pub page: PageId,
    /// 0 to 811.
    pub slot: u16,
    pub mapping: Mapping,
}

/// What a walk over the pages of a block map finds.
#[derive(Drop)]
pub(crate) struct Found {
    /// The linked pages, but for the roots.
    pub(crate) links: Vec<Link>,
    /// Their slots that the window replaces, and those of the roots.
    pub(crate) slots: Vec<SlotChange>,
    /// The blocks to which leaves map.
    pub(crate) mapped: Vec<Pbn>,
}
