/// How many trees the block map of an image has.
pub const TREES: u8 = 60;

/// How many slots a page of the block map has.
pub const PAGE_SLOTS: u16 = 812;

/// How many counters a sector of reference counts has.
pub const SECTOR_COUNTERS: usize = 504;

/// The greatest count of a data block, with the claims on it.
pub const COUNT_LIMIT: u16 = 254;

/// How many entries a block of the recovery journal has room for.
pub const JOURNAL_ENTRIES: usize = 192;
