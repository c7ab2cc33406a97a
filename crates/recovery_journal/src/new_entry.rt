ghost use Rattle.std.specs.Prelude.{◌≡◌, ◌+◌, ◌<◌, ◌≤◌, ◌^◌, ◌++◌, length};
ghost use Rattle.std.specs.VecDeque.{deque_len, deque_capacity};
ghost use Rattle.blk_base.specs.declared.sizes.TheConstants.{JOURNAL_ENTRIES};
ghost use Rattle.recovery_journal.specs.Log.{placed};

use blk_base::{CommittedEntry, Entry, Half, Point};
use std::collections::VecDeque;

/// Adds the entries of a block with their points.
pub(crate) fn enter(entries: &mut VecDeque<CommittedEntry>, sequence: u64, filling: &[Entry])
    requires number { sequence < 2 ^ 55 }
    requires few { length filling.now ≤ JOURNAL_ENTRIES }
    requires room { deque_len entries.old + length filling.now ≤ deque_capacity entries.old }
    ensures items { entries.new.items ≡ entries.old.items ++ placed sequence 0 filling.now }
    ensures capacity { deque_capacity entries.new ≡ deque_capacity entries.old }
{
    for (number, entry) in filling.iter().enumerate() {
        entries.push_back_reserved(CommittedEntry {
            entry: *entry,
            point: Point::of(sequence, number as u16, Half::Increment),
        });
    }
}
