use blk_base::Writer;

/// A flush that waits: its request and its generation.
#[derive(Clone, Copy, Debug, PartialEq, Eq)]
pub struct Waiting {
    pub request: Writer,
    pub generation: u64,
}
