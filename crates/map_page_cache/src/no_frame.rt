use thiserror::Error;

/// Every frame has a page that is dirty or being written.
#[derive(Debug, Drop, Error)]
#[error("no frame")]
pub struct NoFrame;
