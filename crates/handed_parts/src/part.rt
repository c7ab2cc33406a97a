use blk_base::Point;

/// A part of a committed entry: the number of the zone that handles it, and its point. That is the point of the half that
/// adds for the slot and for the block that is counted up, and of the other half for the block that is counted down.
#[derive(Clone, Copy, Debug, PartialEq, Eq)]
pub struct Part {
    pub zone: u32,
    pub point: Point,
}
