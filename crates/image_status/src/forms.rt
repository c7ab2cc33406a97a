/// What an image says of itself.
#[derive(Clone, Copy, Debug, PartialEq, Eq)]
pub struct ImageStatus {
    /// Whether its last session was closed.
    pub clean: bool,
    /// How many entries the window of its recovery journal has, at most 196,608.
    pub entries: u32,
    /// How many chapters have an index page that decodes, at most 256.
    pub chapters: u32,
    /// How many data blocks have a stored count above 0.
    pub used: u32,
    /// How many data blocks there are.
    pub total: u32,
    /// How many addresses it has.
    pub logical: u32,
}
