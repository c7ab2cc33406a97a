use blk_base::{Entry, JOURNAL_ENTRIES};
use sector_records::Records;

/// At most `N` entries of the journal.
pub type Entries<const N: usize> = Records<Entry, N>;

/// A block of the journal, as it is to be written: the image's nonce, the block's sequence, the least sequence that
/// is still needed (`head`), and its entries.
#[derive(Drop)]
pub struct JournalBlock {
    pub nonce: u64,
    pub sequence: u64,
    pub head: u64,
    pub entries: Entries<JOURNAL_ENTRIES>,
}

/// What a valid sector says. It has at most 24 entries.
#[derive(Drop)]
pub struct Sector {
    pub sequence: u64,
    pub head: u64,
    pub entries: Entries<24>,
}

/// The valid front of a block: its sequence, its head, the entries of its sectors, and whether these are all eight.
#[derive(Drop)]
pub struct Prefix {
    pub sequence: u64,
    pub head: u64,
    pub entries: Entries<JOURNAL_ENTRIES>,
    pub whole: bool,
}
