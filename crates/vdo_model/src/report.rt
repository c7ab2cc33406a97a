use crate::{ReportList, Requests};
use blk_base::{Answer, Lba, Pbn, Writer};
use page_codec::PageFault;

/// A line of the desk log: a request is begun, or answered.
#[derive(Drop)]
pub enum DeskLine {
    Begin { request: Writer },
    Answer { request: Writer, answer: Answer },
}

/// The place of a block request: its logical zone, and the number that it drew there, from 0.
#[derive(Clone, Copy, Debug, PartialEq, Eq)]
pub struct Placed {
    pub request: Writer,
    pub zone: u32,
    pub place: u64,
}

/// What became of a write or a discard.
#[derive(Clone, Copy, Debug, PartialEq, Eq)]
pub enum Mark {
    /// It was answered Ok.
    Settled,
    /// It was stopped after its journal entry had been handed in: a stop may show it.
    Unsettled,
    /// Anything else: no stop shows it.
    Refused,
}

/// A write or discard in the history of its address.
#[derive(Clone, Copy, PartialEq, Eq)]
pub struct HistoryEntry {
    pub at: Lba,
    pub request: Writer,
    pub mark: Mark,
}

/// The mark of a flush that was answered Ok: the flush of the device that made it last.
#[derive(Clone, Copy, PartialEq, Eq)]
pub struct FlushMark {
    pub request: Writer,
    /// How many calls of the device had succeeded in the session when that flush returned, itself among them.
    pub calls: u64,
}

/// The receipt of a request that was answered `no space`.
#[derive(Clone, Copy, PartialEq, Eq)]
pub struct NoSpaceReceipt {
    pub request: Writer,
    /// When it asked the physical zone that it asked last: the number, from 0, among the steps in which that zone gave
    /// or took back a ticket.
    pub step: u64,
}

/// What was found wrong on the device in a session that was opened without a fault.
#[derive(Clone, Copy, PartialEq, Eq)]
pub enum Damage {
    /// The page of the block map at this block doesn't decode.
    Page { at: Pbn, fault: PageFault },
    /// A decrement of the counter of this data block doesn't fit it: it is this number.
    Stray { at: Pbn, count: u16 },
}

/// What a run did: the requests of its script, and what became of them. Where no session was begun, all lists are empty, and no block is counted.
#[derive(Drop)]
pub struct RunReport {
    pub requests: Requests,
    /// The desk log, in the desk's order.
    pub desk: ReportList<DeskLine>,
    /// The marks of the flushes that were answered Ok.
    pub marks: ReportList<FlushMark>,
    /// The receipts of the requests that were answered `no space`.
    pub receipts: ReportList<NoSpaceReceipt>,
    /// The place of each request that has one, in the order of each zone's numbers.
    pub places: ReportList<Placed>,
    /// The writes and discards that have a place. Those of one address are its history, in the order of their places.
    pub histories: ReportList<HistoryEntry>,
    /// The first damage that was found in the session, which stopped it.
    pub damage: Option<Damage>,
    /// How many data blocks have a counter above 0 at its end.
    pub used: u32,
    /// How many data blocks there are.
    pub total: u32,
}
