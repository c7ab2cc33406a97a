ghost use Rattle.std.specs.Prelude.{◌≡◌, ◌+◌, ◌<◌, ◌≤◌, length};
ghost use Rattle.slab_journal.specs.Slab.{IsWriting};

use blk_base::{Geometry, Pbn, Point, Update};
use slab_codec::SlabJournalBlock;
use slab_journal::SlabJournal;
use std::test::Fail;

// Two sectors of counters, two slots; the first data block of slab 0 is 85.
const SMALL: Geometry = Geometry {
    slab_blocks: 1000,
    slab_journal: 2,
    nonce: 7,
    ..Geometry::DEFAULT
};

/// What is told of a block that was written: its sequence, the number of its updates and the sums of their points and
/// offsets; and whether no other could be sealed meanwhile.
type Written = ((u64, usize, u64, u64), bool);

// Adds an update, and tells whether it was taken.
fn add(journal: &mut SlabJournal, point: u64, offset: u32) -> bool
    requires small { (journal.old.geometry ≡ SMALL) × (journal.old.slab ≡ 0) }
    requires offset { offset < 1000 }
    requires rises { journal.old.last.0 < point }
    ensures last { journal.new.last.0 ≤ point }
    ensures small { (journal.new.geometry ≡ SMALL) × (journal.new.slab ≡ 0) }
    ensures sectors { length journal.new.commits ≡ length journal.old.commits }
{
    let update = Update {
        at: Pbn(85 + offset),
        point: Point(point),
    };
    journal.add(&update).is_ok()
}

// The block's sequence, the number of its updates and the sums of their points and offsets.
fn told(block: &SlabJournalBlock) -> (u64, usize, u64, u64) {
    let mut points = 0_u64;
    let mut offsets = 0_u64;
    for entry in block.entries.as_slice() {
        points = points.wrapping_add(entry.point.0);
        offsets = offsets.wrapping_add(u64::from(entry.offset));
    }
    (block.sequence, block.entries.len(), points, offsets)
}

// No block is sealed while one is written.
fn seals_none(journal: &mut SlabJournal) -> bool
    requires { IsWriting journal.old }
    ensures { journal.new ≡ journal.old }
{
    match journal.seal() {
        Some(_) => false,
        None => true,
    }
}

// Seals the block, and tells it durable.
fn write(journal: &mut SlabJournal) -> Option<Written>
    requires small { (journal.old.geometry ≡ SMALL) × (journal.old.slab ≡ 0) }
    ensures last { journal.new.last ≡ journal.old.last }
    ensures small { (journal.new.geometry ≡ SMALL) × (journal.new.slab ≡ 0) }
    ensures sectors { length journal.new.commits ≡ length journal.old.commits }
{
    let block = journal.seal()?;
    let seals_none = seals_none(journal);
    journal.durable(block.sequence);
    Some((told(&block), seals_none))
}

// What waits in the block being filled: how many updates, and the first point.
type Waiting = (usize, Option<Point>);

// Two blocks are written, and an update is added to the third. Whether each update was taken, what was written before
// any, then, and last, and what waited before any and before the first block.
fn fill_both_slots(journal: &mut SlabJournal) -> ([bool; 4], [Option<Written>; 3], [Waiting; 2])
    requires small { (journal.old.geometry ≡ SMALL) × (journal.old.slab ≡ 0) }
    requires last { journal.old.last.0 ≡ 511 }
    ensures small { (journal.new.geometry ≡ SMALL) × (journal.new.slab ≡ 0) }
    ensures sectors { length journal.new.commits ≡ length journal.old.commits }
{
    let of_nothing = write(journal);
    let nothing = (journal.waiting(), journal.first_point());
    let added = add(journal, 512, 503);
    let added_too = add(journal, 513, 504);
    let two = (journal.waiting(), journal.first_point());
    let first = write(journal);
    let added_next = add(journal, 514, 999);
    let second = write(journal);
    let added_last = add(journal, 600, 0);
    (
        [added, added_too, added_next, added_last],
        [of_nothing, first, second],
        [nothing, two],
    )
}

// Both sectors of the first block are covered, one after the other. Whether its slot may be overwritten before, in
// between and then, and what is written before and then.
fn cover_first_block(journal: &mut SlabJournal) -> ([bool; 3], [Option<Written>; 2])
    requires small { (journal.old.geometry ≡ SMALL) × (journal.old.slab ≡ 0) }
    requires sectors { length journal.old.commits ≡ 2 }
{
    let at_once = journal.may_overwrite();
    let too_early = write(journal);
    journal.reference_durable(0, Point(512));
    journal.reference_durable(1, Point(512));
    let half_covered = journal.may_overwrite();
    journal.reference_durable(1, Point(513));
    let covered = journal.may_overwrite();
    let third = write(journal);
    ([at_once, half_covered, covered], [too_early, third])
}

// Block 3 goes to the slot of block 1, once both sectors of counters include its updates.
#[test]
fn a_slot_waits_for_its_sectors(rt: HostRuntime) -> Result<(), Fail> {
    let mut journal = SlabJournal::new(rt.alloc(), &SMALL, 0)?;
    let clean = journal.low_point();
    let filled = fill_both_slots(&mut journal);
    let low = journal.low_point();
    let covered = cover_first_block(&mut journal);
    let low_points = [clean, low, journal.low_point()];
    let written = [
        None,
        Some(((1, 2, 1025, 1007), true)),
        Some(((2, 1, 514, 999), true)),
    ];
    let written_then = [None, Some(((3, 1, 600, 0), true))];
    let waiting = [(0, None), (2, Some(Point(512)))];
    let wanted = (
        ([true; 4], written, waiting),
        ([false, false, true], written_then),
    );
    let low_wanted = [None, Some(Point(600)), None];
    assert_eq!(rt; (filled, covered), wanted);
    assert_eq!(rt; low_points, low_wanted);
    Ok(())
}

// How many of 330 updates are taken before the block being filled has no room.
fn fill(journal: &mut SlabJournal) -> u32
    requires small { (journal.old.geometry ≡ SMALL) × (journal.old.slab ≡ 0) }
    requires last { journal.old.last.0 ≡ 511 }
{
    let mut taken = 0_u32;
    for k in 0..330_u32 {
        taken += u32::from(add(journal, 512 + u64::from(k), k));
    }
    taken
}

#[test]
fn a_block_has_320_updates(rt: HostRuntime) -> Result<(), Fail> {
    let mut journal = SlabJournal::new(rt.alloc(), &SMALL, 0)?;
    assert_eq!(rt; (fill(&mut journal), journal.waiting()), (320, 320));
    Ok(())
}
