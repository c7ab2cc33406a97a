use crate::{Lba, Mapping, PageId, Pbn, Point};

/// What one entry of the recovery journal says.
#[derive(Clone, Copy, Debug, PartialEq, Eq)]
pub enum Entry {
    /// An address is mapped anew.
    Remap { at: Lba, old: Mapping, new: Mapping },
    /// A new page of the block map stands at a block.
    NewPage { page: PageId, at: Pbn },
}

/// An entry that changes nothing: address 0 stays unmapped.
impl Default for Entry {
    fn default() -> Entry {
        Entry::Remap {
            at: Lba(0),
            old: Mapping::Unmapped,
            new: Mapping::Unmapped,
        }
    }
}

/// An entry of a committed block of the recovery journal, with its point, that of the half that adds.
#[derive(Clone, Copy, Debug, PartialEq, Eq)]
pub struct CommittedEntry {
    pub entry: Entry,
    pub point: Point,
}

/// An update of a data block's reference count: it adds or takes away as the half of its point says.
#[derive(Clone, Copy, Debug, PartialEq, Eq)]
pub struct Update {
    pub at: Pbn,
    pub point: Point,
}
