ghost use Rattle.blk_base.specs.Limits.{IsGeometry};

use crate::Geometry;

impl Geometry {
    /// The sizes of an image where none are named. It takes 154 blocks, of which 64 hold the data of 1,000 addresses.
    pub const DEFAULT: Geometry = Geometry {
        logical: 1000,
        slabs: 1,
        slab_blocks: 64,
        journal: 8,
        index: 16,
        slab_journal: 4,
        height: 2,
        nonce: 1,
    };
}

/// The default sizes are within the limits.
pub fn default_sizes_are_within_limits()
    ensures { IsGeometry Geometry.DEFAULT }
{}
