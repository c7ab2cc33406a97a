use blk_base::Pbn;

/// What a block says of a name, taken for a page of a chapter.
#[derive(Clone, Copy, Debug, PartialEq, Eq)]
pub enum PageFind {
    /// The name has this location.
    At(Pbn),
    /// The name is below all names of the page, or the page has none.
    Before,
    /// The name is above all names of the page.
    After,
    /// The name isn't there, and there are names below and above it.
    Absent,
    /// The block isn't this page.
    NotAPage,
}
