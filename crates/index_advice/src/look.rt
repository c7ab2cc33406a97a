use blk_base::Pbn;

/// What an advisor answers to a look.
#[derive(Clone, Copy, Debug, PartialEq, Eq)]
pub enum Look {
    /// A block with the name may be stored here.
    Known(Pbn),
    /// It knows of none.
    Nothing,
    /// It wants to see this index block first.
    Read(Pbn),
}
