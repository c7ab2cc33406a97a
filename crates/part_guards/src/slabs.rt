ghost use Rattle.std.specs.Prelude.{◌≡◌, ◌+◌, ◌*◌, ◌<◌, ◌≤◌, ℕ, false, None, Some, IfSome, IsSome, length};
ghost use Rattle.blk_base.specs.Regions.{SlabJournalSlot, block_of, slab_slot_of};
ghost use Rattle.blk_base.specs.declared.point.Point.{Point as At};
ghost use Rattle.dirty_pages.specs.DirtyPoints.{dirty_points_at};
ghost use Rattle.reference_blocks.specs.References.{point_at, sectors_of};
ghost use Rattle.slab_codec.specs.Reference.{reference_bytes};
ghost use Rattle.slab_codec.specs.declared.forms.SlabEntry.{SlabEntry};
ghost use Rattle.slab_journal.specs.Slab.{MayOverwrite};
ghost use Rattle.slab_journal.specs.Unsettled.{IsUnsettled};
ghost use Rattle.slab_writes.specs.Writes.{IsOut};
ghost use Rattle.slab_writes.specs.declared.forms.SlabPart.TheVariants.{References};
ghost use Rattle.slab_zone.specs.Whole.{writes_at, writes_of};
ghost use Rattle.zone_counts.specs.Zone.{slab_at};

use blk_base::{Block, Point, Update};
use dirty_pages::DirtyPages;
use slab_writes::{Need, SlabWork, SlabWrites};
use slab_zone::SlabZone;

// No page is handed out before the point of its first change is reached.
fn no_page_before_its_point(pages: &mut DirtyPages, point: Point) -> Option<usize>
    requires { (page : ℕ) (first : At) → (dirty_points_at pages.old page).dirty ≡ Some first →
        point.0 < first.0 }
    ensures none { result ≡ None }
    ensures same { pages.new ≡ pages.old }
{
    pages.take_expired(point)
}

// A journal block goes to the slot of its sequence.
fn a_journal_block_goes_to_its_slot(
    writes: &mut SlabWrites,
    counters: &[u8],
    into: &mut Block,
) -> Option<SlabWork>
    requires waits { 0 < length writes.old.journal.filling }
    requires durable { writes.old.journal.durable ≡ writes.old.journal.sequence }
    requires covered { MayOverwrite writes.old.journal }
    ensures some { IsSome result }
    ensures slot { let journal = writes.old.journal in
        IfSome result (λ work. work.at.0
        ≡ block_of journal.geometry
        (SlabJournalSlot journal.slab (slab_slot_of journal.geometry journal.sequence))) }
{
    writes.due(Need::Head, counters, into)
}

// A durable reference block raises no commit point of the sectors behind its own.
fn no_commit_point_behind_the_block(writes: &mut SlabWrites, work: SlabWork)
    ghost sector: { ℕ }
    requires out { IsOut writes.old work }
    requires part { work.part ≡ References }
    requires behind { 8 * work.number + 8 ≤ sector }
    ensures { point_at writes.new.journal.commits sector ≡ point_at writes.old.journal.commits sector }
{
    writes.durable(work);
}

// An update with a point that isn't above those before isn't taken.
fn no_update_with_an_old_point(zone: &SlabZone, update: &Update) -> bool
    requires { update.now.point.0 ≤ (writes_of zone.now update.now.at).journal.last.0 }
    ensures { result ≡ false }
{
    zone.may_take(update)
}

// The low point is not above any update that isn't durable, whichever slab has it.
fn no_unwritten_update_below_the_low_point(zone: &SlabZone) -> Option<Point>
    ghost update: { (place : ℕ) × (entry : SlabEntry) × Unit {0} }
    requires inside { update.0 < length zone.now.writes }
    requires unsettled { IsUnsettled (writes_at zone.now.writes update.0).journal update.1 }
    ensures some { IsSome result }
    ensures least { IfSome result (λ low. low.0 ≤ update.1.point.0) }
{
    zone.low_point()
}

// A reference block has the counters of its own slab.
fn a_reference_block_has_its_slabs_counters(
    zone: &mut SlabZone,
    into: &mut Block,
) -> Option<SlabWork>
    ensures { IfSome result (λ work. (place : ℕ)
        × (work.slab ≡ (writes_at zone.old.writes place).journal.slab)
        × (let blocks = (writes_at zone.old.writes place).blocks in
        into.new ≡ reference_bytes (sectors_of blocks.geometry blocks.applied
        (slab_at zone.old.counts.slabs place).counters work.number))) }
{
    zone.due(Need::All, into)
}
