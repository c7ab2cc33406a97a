use crate::{Link, SlotChange};
use blk_base::Pbn;

// It lists the block of each mapping, four bytes each: who counts mappings would have to read all pages again.
/// The block map of an image as its last session left it.
#[derive(Drop)]
pub struct RecoveredMap {
    /// The linked pages, but for the roots, each with its block.
    pub links: Vec<Link>,
    /// The slots of linked pages, the roots too, that the window replaces.
    pub slots: Vec<SlotChange>,
    /// The block of each address that is mapped to one, also of an address past the logical size: a block that several
    /// addresses share stands there as often.
    pub mapped: Vec<Pbn>,
    /// The last sequence of the window.
    pub last: u64,
    /// How many entries the window has.
    pub entries: u32,
}
