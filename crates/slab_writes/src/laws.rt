ghost use Rattle.std.specs.Prelude.{ℕ, ◌≡◌, ◌<◌, ◌≤◌, ◌⊎◌, List, length, Contains};
ghost use Rattle.blk_base.specs.Counters.{sectors_per_slab};
ghost use Rattle.blk_base.specs.Limits.{IsGeometry};
ghost use Rattle.blk_base.specs.declared.geometry.Geometry.{Geometry};
ghost use Rattle.blk_base.specs.declared.point.Point.{Point};
ghost use Rattle.reference_blocks.specs.References.{HandsOutBlock, point_at, points_of, sectors_of};
ghost use Rattle.reference_blocks.specs.Updates.{AreRising, counters_after, up_to};
ghost use Rattle.slab_codec.specs.Reference.{reference_bytes};
ghost use Rattle.slab_codec.specs.declared.forms.SlabEntry.{SlabEntry};
ghost use Rattle.slab_codec.specs.declared.forms.SlabJournalBlock.{SlabJournalBlock};
ghost use Rattle.slab_journal.specs.Slab.{Slab, Seals};
ghost use Rattle.slab_journal.specs.Unsettled.{IsLowPoint, NoneUnsettled};
ghost use Rattle.slab_writes.specs.declared.forms.Need.{Need};
ghost use Rattle.slab_writes.specs.declared.forms.SlabWork.{SlabWork};
ghost use Rattle.slab_writes.specs.Due.{IsDue, NoneDue};
ghost use Rattle.slab_writes.specs.Writes.{Writes, IsOut, opening};
ghost use Rattle.slab_writes.specs.Operations.{Operation, Does, LeadTo, IsDurable, updates_of};
ghost use Rattle.slab_writes.specs.Commits.{IsReported};

/// Over every list of calls from an opened image on, a journal block that is handed out has updates of these calls alone.
pub fn a_journal_block_has_updates_of_the_slab()
    ensures { (g : Geometry) (slab : ℕ) (commits : List Point) (calls : List Operation)
        (old : Writes)
        (new : Slab) (block : SlabJournalBlock) (entry : SlabEntry)
        → LeadTo (opening g slab commits) calls old → Seals old.journal new block →
        Contains block.entries entry → Contains (updates_of calls) entry }
{}

/// Over every list of calls from an opened image on, where the points of the updates rise, a reference block that is handed
/// out with the counters as the updates made them has in each sector the opening counters with exactly the updates that
/// aren't above its commit point.
pub fn a_reference_block_has_its_updates()
    ensures { (g : Geometry) (slab : ℕ) (commits : List Point) (first : List ℕ)
        (calls : List Operation)
        (old new : Writes) (bytes : List ℕ) (block : ℕ)
        → length (points_of g slab commits) ≡ sectors_per_slab g →
        LeadTo (opening g slab commits) calls old →
        AreRising g (points_of g slab commits) (updates_of calls)
        → HandsOutBlock old.blocks new.blocks (counters_after first (updates_of calls)) bytes block
        →
        bytes
        ≡ reference_bytes
        (sectors_of g old.blocks.applied
        (counters_after first (up_to g old.blocks.applied (updates_of calls))) block) }
{}

/// Over every list of calls from an opened image on, where the points of the updates rise, each update below the low point
/// of the journal is durable, and each one where there is no low point.
pub fn every_update_below_the_low_point_is_durable()
    ensures some { (g : Geometry) (slab : ℕ) (commits : List Point) (calls : List Operation)
        (new : Writes) (entry : SlabEntry) (low : Point)
        → IsGeometry g → length (points_of g slab commits) ≡ sectors_per_slab g →
        LeadTo (opening g slab commits) calls new
        → AreRising g (points_of g slab commits) (updates_of calls) →
        Contains (updates_of calls) entry → IsLowPoint new.journal low → entry.point.0 < low.0
        → IsDurable g calls entry }
    ensures none { (g : Geometry) (slab : ℕ) (commits : List Point) (calls : List Operation)
        (new : Writes) (entry : SlabEntry)
        → IsGeometry g → length (points_of g slab commits) ≡ sectors_per_slab g →
        LeadTo (opening g slab commits) calls new
        → AreRising g (points_of g slab commits) (updates_of calls) →
        Contains (updates_of calls) entry → NoneUnsettled new.journal → IsDurable g calls entry }
{}

/// A block that is handed out is being written until that is reported.
pub fn a_block_is_out_once_it_is_handed_out()
    ensures { (need : Need) (old new : Writes) (counters bytes : List ℕ) (work : SlabWork) →
        IsDue need old new counters bytes work → IsOut new work }
{}

/// Where a block is handed out, not each block that the need is for is being written.
pub fn a_block_is_due_or_none_is()
    ensures { (need : Need) (old new : Writes) (counters bytes : List ℕ) (work : SlabWork) →
        IsDue need old new counters bytes work → ¬ NoneDue need old }
{}

/// Over every list of calls from an opened image on, a commit point in the slab's journal is 0, or that with which the
/// reference block of its sector was handed out before it was reported as durable.
pub fn a_commit_point_is_of_a_reported_block()
    ensures { (g : Geometry) (slab : ℕ) (commits : List Point) (calls : List Operation)
        (new : Writes)
        (sector : ℕ)
        → IsGeometry g → length (points_of g slab commits) ≡ sectors_per_slab g →
        LeadTo (opening g slab commits) calls new
        →
        (point_at new.journal.commits sector ≡ record { 0 = 0 })
        ⊎ IsReported g calls sector (point_at new.journal.commits sector) }
{}

/// No call lowers a commit point in the slab's journal; and over calls whose updates rise none lowers the commit point with
/// which a sector is handed out.
pub fn commit_points_do_not_fall()
    ensures journal { (call : Operation) (old new : Writes) (sector : ℕ) → Does call old new
        → (point_at old.journal.commits sector).0 ≤ (point_at new.journal.commits sector).0 }
    ensures handed { (g : Geometry) (slab : ℕ) (commits : List Point) (calls : List Operation)
        (call : Operation) (old new : Writes) (sector : ℕ)
        → IsGeometry g → length (points_of g slab commits) ≡ sectors_per_slab g →
        LeadTo (opening g slab commits) calls old
        → AreRising g (points_of g slab commits) (updates_of calls) → Does call old new
        → (point_at old.blocks.handed sector).0 ≤ (point_at new.blocks.handed sector).0 }
{}
