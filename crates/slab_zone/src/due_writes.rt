ghost use Rattle.std.specs.Prelude.{◌≡◌, ◌≤◌, length, IfSome, IfNone};
ghost use Rattle.slab_zone.specs.Lesser.{IsLesser};
ghost use Rattle.slab_zone.specs.ZoneWrites.{IsDueAmong, NoneDueBefore, IsLowPointBefore, NoneUnsettledBefore};

use blk_base::{Block, Point};
use slab_writes::{Need, SlabWork, SlabWrites};
use zone_counts::ZoneCounts;

/// Hands out a block that the need is for, of the first of the slabs that has one which isn't being written.
pub(crate) fn first_due(
    writes: &mut Vec<SlabWrites>,
    counts: &ZoneCounts,
    need: Need,
    into: &mut Block,
) -> Option<SlabWork>
    requires { length writes.old.items ≤ length counts.now.slabs }
    ensures some { IfSome result
        (IsDueAmong need counts.now.slabs writes.old.items writes.new.items into.new) }
    ensures none { IfNone result (NoneDueBefore need writes.old.items (length writes.old.items)) }
    ensures same { IfNone result (writes.new.items ≡ writes.old.items) }
{
    let mut place = 0;
    while place < writes.len() {
        let slab = &mut writes[place];
        let work = slab.due(need, counts.counters(place), into);
        if work.is_some() {
            return work;
        }
        place += 1;
    }
    None
}

/// The least point of the updates of these slabs that aren't durable; `None` exactly where each is.
pub(crate) fn least_low_point(writes: &[SlabWrites]) -> Option<Point>
    ensures some { IfSome result (IsLowPointBefore writes.now (length writes.now)) }
    ensures none { IfNone result (NoneUnsettledBefore writes.now (length writes.now)) }
{
    let mut least = None;
    for place in 0..writes.len() {
        let slab = &writes[place];
        least = lesser(least, slab.low_point());
    }
    least
}

// The lesser of two points, of those that are there.
fn lesser(one: Option<Point>, other: Option<Point>) -> Option<Point>
    ensures { IsLesser one other result }
{
    match (one, other) {
        (None, found) => found,
        (found, None) => found,
        (Some(first), Some(second)) => {
            if second.0 < first.0 {
                Some(second)
            } else {
                Some(first)
            }
        }
    }
}
