ghost use Rattle.std.specs.Prelude.{◌≡◌, ◌+◌, ◌<◌, ◌≤◌, ◌^◌, length};
ghost use Rattle.recovery_journal.specs.Log.{IsWriting};

use blk_base::{Entry, Geometry, Lba, Mapping, Pbn, Point};
use recovery_journal::Journal;
use std::cmp;
use std::test::Fail;

/// What is told of a block that was written: its sequence, its head and the number of its entries; whether no other could be
/// sealed meanwhile; and the place of an entry that was added meanwhile, if it was taken.
type Written = ((u64, u64, usize), bool, Option<(u64, usize)>);

fn entry(number: u32) -> Entry {
    Entry::Remap {
        at: Lba(number),
        old: Mapping::Zero,
        new: if number == 0 {
            Mapping::Unmapped
        } else {
            Mapping::At(Pbn(number))
        },
    }
}

// Adds an entry, and gives its place.
fn add(journal: &mut Journal, number: u32) -> Option<(u64, usize)>
    requires { journal.old.sequence < 2 ^ 55 }
    ensures sequence { journal.new.sequence ≡ journal.old.sequence }
    ensures committed { journal.new.committed ≡ journal.old.committed }
    ensures zones { length journal.new.watermarks ≡ length journal.old.watermarks }
{
    match journal.append(entry(number)) {
        Ok(place) => Some((place.sequence, usize::from(place.entry))),
        Err(_) => None,
    }
}

// No block is sealed while one is written, as the journal says.
fn seals_none(journal: &mut Journal) -> bool
    requires { IsWriting journal.old }
    ensures { journal.new ≡ journal.old }
{
    match journal.seal() {
        Some(_) => false,
        None => journal.writing().is_some(),
    }
}

// Seals the block and commits it; meanwhile an entry is added to the next block.
fn write(journal: &mut Journal, number: u32) -> Option<Written>
    requires { journal.old.sequence < 2 ^ 54 }
    ensures sequence { journal.new.sequence ≤ journal.old.sequence + 1 }
    ensures zones { length journal.new.watermarks ≡ length journal.old.watermarks }
{
    let block = journal.seal()?;
    let sealed = (block.sequence, block.head, block.entries.len());
    let seals_none = seals_none(journal);
    let added = add(journal, number);
    journal.committed(sealed.0);
    Some((sealed, seals_none, added))
}

// Hands out an entry.
fn hand_out(journal: &mut Journal) -> Option<(Entry, u64)>
    ensures sequence { journal.new.sequence ≡ journal.old.sequence }
    ensures zones { length journal.new.watermarks ≡ length journal.old.watermarks }
{
    match journal.next_committed() {
        Some(next) => Some((next.entry, next.point.0)),
        None => None,
    }
}

// Reports that the zone's part of every entry below this point is durable, or of all that were handed out.
fn reap(journal: &mut Journal, zone: u32, point: u64) -> u64
    requires sequence { journal.old.sequence < 2 ^ 55 }
    requires zone { zone < length journal.old.watermarks }
    ensures sequence { journal.new.sequence ≡ journal.old.sequence }
    ensures zones { length journal.new.watermarks ≡ length journal.old.watermarks }
{
    let below = cmp::min(point, journal.first_unhanded().0);
    journal.watermark(zone, Point(below));
    below
}

// An entry that is handed out, with its point, and the point below which entries are reaped then.
fn hand_out_and_reap(journal: &mut Journal) -> (Option<(Entry, u64)>, u64)
    requires sequence { journal.old.sequence < 2 ^ 55 }
    requires zones { length journal.old.watermarks ≡ 1 }
    ensures sequence { journal.new.sequence ≡ journal.old.sequence }
    ensures zones { length journal.new.watermarks ≡ 1 }
{
    let handed_out = hand_out(journal);
    (handed_out, reap(journal, 0, u64::MAX))
}

// Writes so many blocks, and tells of the last.
fn write_blocks(journal: &mut Journal, first: u32, last: u32) -> Option<Written>
    requires first { first ≤ last }
    requires sequence { journal.old.sequence ≤ first }
    requires zones { length journal.old.watermarks ≡ 1 }
    ensures sequence { journal.new.sequence ≤ last + 1 }
    ensures zones { length journal.new.watermarks ≡ 1 }
{
    for number in first..last {
        let _ = write(journal, number);
    }
    write(journal, last)
}

// Blocks 1 to 8 are written, of which the first is handed out and reaped. The place of the first entry, what is told of
// the first block and of the last, and the reaped entry with the point below which it is.
fn fill(
    journal: &mut Journal,
) -> (
    Option<(u64, usize)>,
    [Option<Written>; 2],
    (Option<(Entry, u64)>, u64),
)
    requires sequence { journal.old.sequence ≡ 1 }
    requires zones { length journal.old.watermarks ≡ 1 }
    ensures sequence { journal.new.sequence ≤ 10 }
    ensures zones { length journal.new.watermarks ≡ 1 }
{
    let added = add(journal, 1);
    let written = write(journal, 2);
    let reaped = hand_out_and_reap(journal);
    let last_written = write_blocks(journal, 3, 9);
    (added, [written, last_written], reaped)
}

// The places of an entry before and after another block is reaped, that block's entry, and the head then.
fn reap_and_add(
    journal: &mut Journal,
) -> ([Option<(u64, usize)>; 2], (Option<(Entry, u64)>, u64), u64)
    requires sequence { journal.old.sequence ≤ 10 }
    requires zones { length journal.old.watermarks ≡ 1 }
{
    let refused = add(journal, 9);
    let reaped = hand_out_and_reap(journal);
    let head = journal.head();
    let added = add(journal, 9);
    ([refused, added], reaped, head)
}

// Blocks 2 to 8 are written with head 2: an entry for block 9 waits until the head is 3.
#[test]
fn a_full_ring_waits_for_the_head(rt: HostRuntime) -> Result<(), Fail> {
    let mut journal = Journal::new(rt.alloc(), &Geometry::DEFAULT, 1, 1)?;
    let filled = fill(&mut journal);
    let added = reap_and_add(&mut journal);
    let written = [
        Some(((1, 1, 1), true, Some((2, 0)))),
        Some(((8, 2, 1), true, None)),
    ];
    let reaped = (Some((entry(1), 512)), 1024);
    let reaped_next = (Some((entry(2), 1024)), 1536);
    let wanted = (
        (Some((1, 0)), written, reaped),
        ([None, Some((9, 0))], reaped_next, 3),
    );
    assert_eq!(rt; (filled, added), wanted);
    Ok(())
}
