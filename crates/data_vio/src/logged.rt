use blk_base::{Lba, Mapping, PageId, Pbn, Writer};

/// A write or a discard whose journal entry was handed in: its address is mapped anew.
#[derive(Clone, Copy)]
pub struct Remapping {
    pub request: Writer,
    pub at: Lba,
    /// The number that it drew in its logical zone.
    pub place: u64,
    /// What its address is mapped to before it, and by it.
    pub old: Mapping,
    pub new: Mapping,
}

/// A page of the block map that a write made, and whose journal entry was handed in: it stands at a data block.
#[derive(Clone, Copy)]
pub struct NewPage {
    pub request: Writer,
    pub page: PageId,
    pub at: Pbn,
}

/// What a request has an entry of the journal for.
#[derive(Clone, Copy)]
pub enum Logged {
    Remaps(Remapping),
    Makes(NewPage),
}
