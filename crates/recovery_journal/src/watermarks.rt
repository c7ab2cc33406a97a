ghost use Rattle.std.specs.Prelude.{◌≡◌, ◌/◌, ◌≤◌, All, nat_le, length, take, drop};
ghost use Rattle.std.specs.List.{list_any};
ghost use Rattle.std.specs.VecDeque.{deque_len, deque_capacity};
ghost use Rattle.recovery_journal.specs.Log.{first_sequence, IsNeeded, IsDurable};

use blk_base::{CommittedEntry, Point};
use std::collections::VecDeque;

/// How many points a block has: the two halves of each entry, and some that no entry has.
const POINTS_PER_BLOCK: u64 = 512;

/// The sequence of the block that has this point.
pub(crate) fn sequence_of(point: Point) -> u64
    ensures { result ≡ point.0 / 512 }
{
    point.0 / POINTS_PER_BLOCK
}

/// The sequence of the first of these entries, or else this one.
pub(crate) fn first_sequence(entries: &VecDeque<CommittedEntry>, sequence: u64) -> u64
    ensures { result ≡ first_sequence entries.now.items sequence }
{
    match entries.front() {
        Some(first) => sequence_of(first.point),
        None => sequence,
    }
}

/// How many entries stand before the first that some zone still needs.
pub(crate) fn count_durable(entries: &VecDeque<CommittedEntry>, watermarks: &[Point]) -> usize
    ensures inside { result ≤ deque_len entries.now }
    ensures durable { All (λ entry. IsDurable watermarks.now entry.point)
        (take result entries.now.items) }
    ensures next { All (λ entry. IsNeeded watermarks.now entry.point)
        (take 1 (drop result entries.now.items)) }
{
    match entries
        .iter()
        .position(|entry| is_needed(watermarks, entry.point))
    {
        Some(first) => first,
        None => entries.len(),
    }
}

// Whether some zone still needs the entry at this point.
fn is_needed(watermarks: &[Point], point: Point) -> bool
    ensures { result ≡ list_any (λ watermark. nat_le watermark.0 point.0) watermarks.now }
{
    watermarks.iter().any(|watermark| watermark.0 <= point.0)
}

/// Leaves out so many entries at the front.
pub(crate) fn leave_out(entries: &mut VecDeque<CommittedEntry>, count: usize)
    requires { count ≤ deque_len entries.old }
    ensures items { entries.new.items ≡ drop count entries.old.items }
    ensures capacity { deque_capacity entries.new ≡ deque_capacity entries.old }
{
    for _ in 0..count {
        let _ = entries.pop_front();
    }
}
