/// Where an entry stands: the sequence of its block and its number there, 0 to 191.
#[derive(Clone, Copy, PartialEq, Eq)]
pub struct Place {
    pub sequence: u64,
    pub entry: u16,
}
