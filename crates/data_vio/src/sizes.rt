use blk_base::Geometry;

// The logical and the physical zones are u8, though four of each are enough: so the number of each zone is a small sum that always fits.
/// What the zones know of the session that they serve.
#[derive(Clone, Copy)]
pub struct Sizes {
    pub geometry: Geometry,
    /// The first sequence of the session's journal.
    pub start: u64,
    /// How many logical zones there are.
    pub zones: u8,
    /// How many physical zones there are.
    pub physical: u8,
    /// How many requests of a stream are under way at most.
    pub depth: u32,
}
