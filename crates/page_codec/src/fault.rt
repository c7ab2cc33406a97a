use thiserror::Error;

/// Why a block isn't the page that it was taken for.
#[derive(Clone, Copy, Debug, PartialEq, Eq, Error)]
pub enum PageFault {
    /// Its first 36 bytes aren't those of this page.
    #[error("header")]
    Header,
    /// The state of this slot is above 1.
    #[error("slot {0} compressed")]
    Compressed(u16),
    /// This slot has no mapping that the page can hold.
    #[error("slot {0} out of range")]
    OutOfRange(u16),
}
