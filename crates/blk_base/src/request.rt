use crate::{BoxedBlock, Lba};

/// A request's name: its stream, and its number there from 0.
#[derive(Clone, Copy, Debug, PartialEq, Eq)]
pub struct Writer {
    /// 0 to 15.
    pub stream: u8,
    pub number: u32,
}

/// A request of a stream. `fua` asks that the write is durable when it is answered.
#[derive(Drop)]
pub enum Request {
    Read(Lba),
    Write {
        at: Lba,
        block: BoxedBlock,
        fua: bool,
    },
    Discard(Lba),
    Flush,
}

/// What a request is answered with.
#[derive(Drop)]
pub enum Answer {
    Ok,
    /// What a read gives.
    Bytes(BoxedBlock),
    /// The address isn't below the logical size.
    Range,
    /// No data block was free.
    NoSpace,
    /// Every journal block, or every data block, was used in this run.
    Full,
    /// A read of the device for this request failed.
    ReadFault,
    /// A write or flush of the device failed earlier in this session.
    Stopped,
    /// A page that was read for this request doesn't decode.
    Damaged,
}
