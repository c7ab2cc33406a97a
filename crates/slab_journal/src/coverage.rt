ghost use Rattle.std.specs.Prelude.{◌≡◌, ◌↔◌, IsTrue, IfSome, IfNone, All, nat_lt, position};
ghost use Rattle.slab_journal.specs.Slab.{IsCovered, commit_of};
ghost use Rattle.slab_journal.specs.Unsettled.{IsLeastUncovered, IsRising};

use blk_base::{Layout, Point};
use slab_codec::SlabEntry;

/// Whether the counters on the device include each of these updates.
pub(crate) fn are_covered(layout: &Layout, entries: &[SlabEntry], commits: &[Point]) -> bool
    ensures { IsTrue result ↔ All (IsCovered layout.now.geometry commits.now) entries.now }
{
    entries
        .iter()
        .all(|entry| is_covered(layout, *entry, commits))
}

/// Of updates by rising points, the point of the first that the counters on the device don't include; `None` exactly where
/// they include each.
pub(crate) fn first_uncovered(
    layout: &Layout,
    entries: &[SlabEntry],
    commits: &[Point],
) -> Option<Point>
    requires { IsRising entries.now }
    ensures some { IfSome result (IsLeastUncovered layout.now.geometry commits.now entries.now) }
    ensures none { IfNone result (All (IsCovered layout.now.geometry commits.now) entries.now) }
{
    let place = place_of_uncovered(layout, entries, commits)?;
    Some(entries[place].point)
}

// Where that update stands.
fn place_of_uncovered(layout: &Layout, entries: &[SlabEntry], commits: &[Point]) -> Option<usize>
    ensures { result
        ≡ position (λ entry.
        nat_lt (commit_of layout.now.geometry commits.now entry).0 entry.point.0) entries.now }
{
    entries.iter().position(|entry| commit_of(layout, *entry, commits).0 < entry.point.0)
}

// Whether they include the update.
fn is_covered(layout: &Layout, entry: SlabEntry, commits: &[Point]) -> bool
    ensures { IsTrue result ↔ IsCovered layout.now.geometry commits.now entry }
{
    let commit = commit_of(layout, entry, commits);
    entry.point.0 <= commit.0
}

// The durable commit point of the update's sector. Past the last sector nothing is durable.
fn commit_of(layout: &Layout, entry: SlabEntry, commits: &[Point]) -> Point
    ensures { result ≡ commit_of layout.now.geometry commits.now entry }
{
    let sector = layout.sector_of_offset(u32::from(entry.offset));
    commits.get(sector as usize).copied().unwrap_or_default()
}
