use blk_base::JOURNAL_ENTRIES;

/// How many streams a script may have.
pub const MOST_STREAMS: usize = 16;

/// How many requests of one stream may be under way.
pub const MOST_DEPTH: usize = 16;

/// How many requests a script may have.
pub const MOST_REQUESTS: usize = 65_536;

/// How many logical zones there may be.
pub const MOST_ZONES: usize = 4;

/// How many physical zones there may be.
pub const MOST_PHYSICAL: usize = 4;

/// How many requests may be under way.
pub const MOST_UNDER_WAY: usize = MOST_STREAMS * MOST_DEPTH;

/// How many entries of the journal there may be: each request has one for its address, and one for each level of pages below
/// the roots.
pub const MOST_ENTRIES: usize = 3 * MOST_REQUESTS;

/// How many zones may be notified of a stop: the logical zones, the physical zones and the journal.
pub const MOST_NOTICES: u32 = 9;

/// How many items may be under way: requests, a decrement or its report for each, stop notices, a block of the journal, and
/// damage from each physical zone.
pub const MOST_ITEMS: usize = 2 * MOST_UNDER_WAY + MOST_NOTICES as usize + 1 + MOST_PHYSICAL;

/// How many entries a block of the journal has at most, as the room of a list.
pub const BLOCK_ENTRIES: u32 = JOURNAL_ENTRIES as u32;

/// The room of the list of what one step posts: each request that the zone keeps, those of a block, and a few items more.
pub const POST_ROOM: u32 = MOST_ITEMS as u32 + 2 * BLOCK_ENTRIES + 16;

/// The room of a list of pages that are being made, each by a request that is under way, and one more.
pub const MAKING_ROOM: usize = MOST_ITEMS + 1;

/// The room of a lane: for all items that are under way, and then for what one step posts, or a move brings.
pub const LANE_ROOM: u32 = MOST_ITEMS as u32 + POST_ROOM;

/// The room of a list with an item for each request.
pub const REQUEST_ROOM: usize = MOST_REQUESTS + 1;

/// The room of a list with each entry of the journal.
pub const ENTRY_ROOM: usize = MOST_ENTRIES + 1;

/// How many requests may hold a lock or wait for one, and one more.
pub const LOCK_ROOM: u32 = 2 * MOST_ITEMS as u32 + 1;
