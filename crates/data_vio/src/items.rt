use crate::{BLOCK_ENTRIES, BoxedVio, Fifo, HeldTickets, Remapping};
use blk_base::{Answer, Block, Lba, Mapping, PageId, Pbn, Writer, ZoneId};
use slab_counts::{Claim, Receipt};
use vdo_model::Damage;

/// What a request asks for.
#[derive(Clone, Copy)]
pub enum Asks {
    Read,
    Write,
    Discard,
    Flush,
}

/// How far a request has come: what is done with it next, and in which zone. Each phase is a row of the table in
/// docs/DESIGN.md.
#[derive(Clone, Copy)]
pub enum Phase {
    /// Logical: it draws its place, and takes the lock of its address or waits for it.
    Arrive,
    /// Logical: it has its place, and waits for the lock.
    Wait,
    /// Logical: it has the lock of its address, and what is mapped there says where it goes.
    Look,
    /// Device: the leaf of its address is read, which says what is mapped there.
    LoadLeaf,
    /// Logical: it has the lock, and its leaf said what is mapped at its address: that says where it goes.
    LoadedLeaf,
    /// Physical: a write claims a free data block, for its data or for the page that it makes; or it is given a ticket, and asks
    /// the next zone.
    Claim,
    /// Physical: its oldest ticket is withdrawn; a block that went to it is the write's, or dropped where that has one.
    Withdraw,
    /// Device: the data of a write, or its page, is written to its block.
    Store,
    /// Journal: the entry of a write or a discard, or of its page, is handed in, or waits until there is room for it.
    Enter,
    /// Journal: its entry stands in the block being filled, or in one that is sealed and not committed.
    Pending,
    /// Physical: the entry is committed: the increment of its block is taken, and the claim spent.
    Count,
    /// Logical: the entry is committed and counted: once its decrement is reported, the slot of the address is set, and the
    /// lock released; or the page is linked.
    Settle,
    /// Device: the block of a read is read.
    Load,
    /// Logical: a read has its bytes, and the lock is released.
    Loaded,
    /// Physical: a request whose entry wasn't handed in is aborted: its claim is dropped, where it has one.
    AbortClaim,
    /// Logical: a request is aborted: it releases the lock.
    Abort,
    /// Physical: a request whose entry was handed in is aborted: its claim, where it has one, is spent and stays counted.
    AbortEnteredClaim,
    /// Logical: a write whose entry was handed in is aborted: the lock of its address is never released.
    AbortEntered,
    /// Device: the flush of a flush request is made.
    Flush,
    /// Desk: it is answered.
    Reply,
}

/// A request under way.
#[derive(Drop)]
pub struct Vio {
    pub request: Writer,
    pub asks: Asks,
    /// The address of a read, a write or a discard.
    pub at: Lba,
    /// The logical zone of the address.
    pub home: ZoneId,
    pub phase: Phase,
    /// The page of the block map that a write makes, which the path of its address lacks; `None` while it is about its own
    /// address.
    pub page: Option<PageId>,
    /// The block of the leaf of its address, while that is read.
    pub leaf: Option<Pbn>,
    /// What a write gives its address, or what a read got.
    pub bytes: Block,
    /// The number that it drew in its logical zone.
    pub place: u64,
    /// What its address was mapped to when that was looked up.
    pub old: Mapping,
    /// The last write of its address that was done in this session by then.
    pub latest: Option<Remapping>,
    /// What a write or a discard maps its address to, or where its page stands: the data block that it has claimed, or none;
    /// `Unmapped` until that is known.
    pub new: Mapping,
    /// Its claim on that block, until the increment is taken, or the claim is dropped.
    pub claim: Option<Claim>,
    /// Its tickets, while it asks for a block, and until they are withdrawn.
    pub tickets: HeldTickets,
    /// What its last ticket became to which no block went.
    pub receipt: Option<Receipt>,
    /// What it is answered with, once that is known.
    pub answer: Option<Answer>,
    /// Of a flush, how many calls of the device had succeeded when its own returned; 0 until then.
    pub calls: u64,
}

/// How far a sealed block of the journal has come.
#[derive(Clone, Copy)]
pub enum Stage {
    /// Device: the flush is made by which the data of its entries lasts.
    Cover,
    /// Device: it is written.
    Write,
    /// Device: the flush is made by which it lasts itself.
    Harden,
    /// Journal: it is committed, entry after entry, and then the next block is sealed.
    Commit,
    /// Journal: a write or flush of the device failed before it was.
    Fail,
}

/// A sealed block of the journal: its sequence, the head that it names, which is the least sequence that was needed when it
/// was sealed, and the requests of its entries that aren't committed, the oldest first.
#[derive(Drop)]
pub struct SealedBlock {
    pub stage: Stage,
    pub sequence: u64,
    pub head: u64,
    pub vios: Fifo<BoxedVio, BLOCK_ENTRIES>,
}

/// What the zones pass to each other.
#[derive(Drop)]
pub enum Item {
    Request(BoxedVio),
    Block(SealedBlock),
    /// A committed entry maps its address away from a data block: the decrement of that, for its physical zone.
    Decrement(Remapping),
    /// The decrement of this entry was taken: the report of it, for the logical zone of its address.
    Report(Remapping),
    /// What a zone found damaged, for the device's zone, which stops the session.
    Damage(Damage),
    /// A stop notice: the session is stopped. The device zone sends it to the zones, and each of them to the desk.
    StopNotice,
}
