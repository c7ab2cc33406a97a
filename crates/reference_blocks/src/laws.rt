ghost use Rattle.std.specs.Prelude.{ℕ, ◌≡◌, List, length};
ghost use Rattle.blk_base.specs.Counters.{sectors_per_slab};
ghost use Rattle.blk_base.specs.declared.geometry.Geometry.{Geometry};
ghost use Rattle.blk_base.specs.declared.point.Point.{Point};
ghost use Rattle.slab_codec.specs.Reference.{reference_bytes};
ghost use Rattle.reference_blocks.specs.References.{References, HandsOutBlock, opening, point_at, sectors_of};
ghost use Rattle.reference_blocks.specs.Updates.{Operation, LeadTo, AreRising, updates_of, counters_after, newest_of, up_to};

/// Over every list of calls from an opened image on, where the points of the updates rise, a block that is handed out with
/// the counters as the updates made them has in each sector the opening counters with exactly the updates that aren't above
/// its commit point.
pub fn a_block_has_its_updates()
    ensures { (g : Geometry) (points : List Point) (first : List ℕ) (calls : List Operation)
        (old new : References) (bytes : List ℕ) (block : ℕ)
        → length points ≡ sectors_per_slab g → LeadTo (opening g points) calls old →
        AreRising g points (updates_of calls)
        → HandsOutBlock old new (counters_after first (updates_of calls)) bytes block
        →
        bytes
        ≡ reference_bytes
        (sectors_of g old.applied
        (counters_after first (up_to g old.applied (updates_of calls))) block) }
{}

/// Over every list of calls the commit point of a sector is the point of its newest update, or else the one with which it
/// was opened.
pub fn commit_points_are_of_updates()
    ensures { (g : Geometry) (points : List Point) (calls : List Operation) (new : References)
        (sector : ℕ) → length points ≡ sectors_per_slab g
        → LeadTo (opening g points) calls new →
        point_at new.applied sector
        ≡ newest_of g sector (updates_of calls) (point_at points sector) }
{}
