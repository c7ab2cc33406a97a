ghost use Rattle.std.specs.Prelude.{◌≡◌, ◌≢◌, ◌<◌, ℕ, List, length};
ghost use Rattle.blk_base.specs.Counters.{sectors_per_slab};
ghost use Rattle.blk_base.specs.Limits.{IsGeometry};
ghost use Rattle.blk_base.specs.declared.geometry.Geometry.{Geometry};
ghost use Rattle.blk_base.specs.declared.point.Point.{Point};
ghost use Rattle.dirty_pages.specs.DirtyPoints.{HasPoint, NoneIsDue, dirty_points_at};
ghost use Rattle.dirty_pages.specs.declared.dirty_points.DirtyPoints.{DirtyPoints};
ghost use Rattle.reference_blocks.specs.References.{points_of};
ghost use Rattle.reference_blocks.specs.Updates.{AreRising};
ghost use Rattle.slab_journal.specs.Unsettled.{NoneUnsettled};
ghost use Rattle.slab_writes.specs.Operations.{Operation, LeadTo, updates_of};
ghost use Rattle.slab_writes.specs.Due.{NoneDue};
ghost use Rattle.slab_writes.specs.Writes.{Writes, opening};
ghost use Rattle.slab_writes.specs.declared.forms.Need.TheVariants.{Full, Head};
ghost use Rattle.part_laws.specs.Still.{AreSpelled, NoneOut, NonePageOut};

/// Where no page is due at a point and none is being written, each change that isn't durable is above the point.
pub fn no_page_is_dirty_when_none_is_due()
    ensures { (pages : List DirtyPoints) (point : Point) (number : ℕ) (low : Point) →
        NoneIsDue pages point → NonePageOut pages
        → HasPoint (dirty_points_at pages number) low → point.0 < low.0 }
{}

/// Where no block of a slab is due for the head of the recovery journal and none is being written, each update is durable:
/// over every list of calls from an opened image on, where the points of the updates rise.
pub fn no_update_is_dirty_when_none_is_due()
    ensures { (g : Geometry) (slab : ℕ) (commits : List Point) (calls : List Operation)
        (w : Writes) →
        IsGeometry g
        → length (points_of g slab commits) ≡ sectors_per_slab g →
        LeadTo (opening g slab commits) calls w
        → AreRising g (points_of g slab commits) (updates_of calls) →
        AreSpelled (updates_of calls) → NoneOut w → NoneDue Head w
        → NoneUnsettled w.journal }
{}

/// So no update waits for room for ever: where no block of a slab is due because the journal block being filled is full, and none
/// is being written, that block isn't full.
pub fn no_block_is_full_when_none_is_due()
    ensures { (g : Geometry) (slab : ℕ) (commits : List Point) (calls : List Operation)
        (w : Writes) →
        IsGeometry g
        → length (points_of g slab commits) ≡ sectors_per_slab g →
        LeadTo (opening g slab commits) calls w
        → AreRising g (points_of g slab commits) (updates_of calls) →
        AreSpelled (updates_of calls) → NoneOut w → NoneDue Full w
        → length w.journal.filling ≢ 320 }
{}
