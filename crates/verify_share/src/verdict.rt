/// Whether two blocks have the same bytes.
#[derive(Clone, Copy, Debug, PartialEq, Eq)]
pub enum Verdict {
    /// All bytes are the same.
    Same,
    /// Some byte differs.
    Different,
}
