use crate::{Asks, Phase};
use blk_base::{Lba, Writer, ZoneId};

/// A request when it is begun, but for the bytes that a write gives its address.
#[derive(Clone, Copy)]
pub struct Begun {
    pub request: Writer,
    pub asks: Asks,
    /// The address of a read, a write or a discard.
    pub at: Lba,
    /// The logical zone of the address.
    pub home: ZoneId,
    pub phase: Phase,
}
