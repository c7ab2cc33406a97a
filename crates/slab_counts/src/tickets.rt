/// What a zone without a free block gives in place of a claim: the next block that becomes free there and that no older
/// ticket gets is for it. There is no other copy.
#[derive(Debug, Drop)]
pub struct Ticket {
    /// The physical zone that was asked.
    pub zone: u32,
    /// No two tickets of a zone that are out have the same number.
    pub number: u64,
    /// The zone's step that asked.
    pub asked: u64,
}

/// What a ticket to which no block went becomes when it is withdrawn. It tells that from the step that asked to the one
/// that withdrew the zone had no free block at the end of any step. There is no other copy.
#[derive(Debug, Drop)]
pub struct Receipt {
    /// The physical zone that was asked.
    pub zone: u32,
    /// The zone's step that asked.
    pub asked: u64,
    /// The zone's step in which the ticket was withdrawn.
    pub withdrawn: u64,
}
