use blk_base::Pbn;
use block_names::Name;

/// What was asked of an advisor, and what it answered.
#[derive(Clone, Copy, PartialEq, Eq)]
pub enum Advice {
    /// A look ended. It is `failed` only where an index block couldn't be read for it, or where the advisor asked for a
    /// block outside the index, or for a 13th one.
    Looked {
        name: Name,
        found: Option<Pbn>,
        failed: bool,
    },
    /// A block with this name was stored here.
    Learnt {
        name: Name,
        at: Pbn,
    },
    /// The page for this index block was given out, to be written.
    Due {
        at: Pbn,
    },
    /// The open chapter was closed, if it had a record.
    Finished,
}
