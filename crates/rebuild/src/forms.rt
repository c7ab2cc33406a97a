/// What recovery found.
#[derive(Clone, Copy, Debug, PartialEq, Eq)]
pub enum Recovered {
    /// The last session was closed: nothing was written.
    Clean,
    /// It wasn't, and the window of the recovery journal had so many entries.
    Entries(u32),
}
