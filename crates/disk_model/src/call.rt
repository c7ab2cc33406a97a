use blk_base::{Block, Pbn};

/// A call of the outside failed.
#[derive(Clone, Copy, Debug, PartialEq, Eq)]
pub struct Failed;

/// One call of a device; `ok` says whether it succeeded.
#[derive(Drop)]
pub enum Call {
    /// A read, with the bytes that it gave. Where it failed, they say nothing.
    Read { at: Pbn, bytes: Block, ok: bool },
    /// A write, with the bytes that it was handed. A write that failed may have put some sectors of them in place.
    Write { at: Pbn, bytes: Block, ok: bool },
    /// A flush: once it succeeds, the successful writes before it last.
    Flush { ok: bool },
}
