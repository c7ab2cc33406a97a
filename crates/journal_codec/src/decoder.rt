ghost use Rattle.std.specs.Prelude.{◌≡◌, ◌+◌, ◌*◌, ◌^◌, ◌<◌, ◌≤◌, ◌↔◌, ◌⊎◌, ℕ, List, false, IsTrue, IfSome, IfNone, All, length};
ghost use Rattle.blk_base.specs.declared.journal_entry.Entry.{Entry};
ghost use Rattle.blk_base.specs.Sectors.{sector};
ghost use Rattle.byte_fields.specs.Mappings.{HoldsMapping};
ghost use Rattle.journal_codec.specs.Grammar.{HoldsEntry, IsSector, IsRun, IsPrefix};

use crate::format::{JournalHead, PER_SECTOR};
use crate::{Entries, Prefix, Sector};
use blk_base::{Block, Entry, JOURNAL_ENTRIES, Mapping, TREES};
use byte_fields::{read_u16, read_u64};
use sector_records::{bytes_of_sector, is_sector, read_records};

/// Sequences are below this.
const SEQUENCES: u64 = 1 << 55;

/// What sector `i` of the block says; `None` exactly where it is no valid sector of this nonce.
pub fn sector(block: &Block, i: u16, nonce: u64) -> Option<Sector>
    ensures some { IfSome result (λ found.
        IsSector nonce i (sector i block.now) found.sequence found.head found.entries) }
    ensures none { IfNone result
        ((sequence head : ℕ) (entries : List Entry) →
        IsSector nonce i (sector i block.now) sequence head entries → ⊥) }
{
    read_sector(bytes_of_sector(block, i)?, i, nonce)
}

fn read_sector(bytes: &[u8], number: u16, nonce: u64) -> Option<Sector>
    requires { length bytes.now ≡ 512 }
    ensures some { IfSome result (λ found.
        IsSector nonce number bytes.now found.sequence found.head found.entries) }
    ensures none { IfNone result
        ((sequence head : ℕ) (entries : List Entry) →
        IsSector nonce number bytes.now sequence head entries → ⊥) }
{
    let sequence = read_u64(bytes, 8);
    let oldest = read_u64(bytes, 16);
    let count = read_u16(bytes, 26);
    if !is_head(sequence, oldest, count) {
        return None;
    }
    let head = JournalHead {
        nonce,
        sequence,
        head: oldest,
    };
    let entries = read_records::<JournalHead, 24>(bytes, count);
    if are_held(entries.as_slice()) && is_sector(bytes, &head, number, entries.as_slice()) {
        Some(Sector {
            sequence,
            head: oldest,
            entries,
        })
    } else {
        None
    }
}

// Whether a valid sector can have these numbers in its head.
fn is_head(sequence: u64, head: u64, count: u16) -> bool
    ensures { IsTrue result
        ↔ ((1 ≤ sequence) × (sequence < 2 ^ 55) × (head ≤ sequence) × (count ≤ 24)) }
{
    sequence != 0 && sequence < SEQUENCES && head <= sequence && usize::from(count) <= PER_SECTOR
}

// Whether the format can hold each of these entries.
fn are_held(entries: &[Entry]) -> bool
    ensures { IsTrue result ↔ All HoldsEntry entries.now }
{
    entries.iter().all(|entry| is_held(*entry))
}

// Whether the format can hold the entry.
fn is_held(entry: Entry) -> bool
    ensures { IsTrue result ↔ HoldsEntry entry }
{
    match entry {
        Entry::Remap { at: _, old, new } => is_held_mapping(old) && is_held_mapping(new),
        Entry::NewPage { page, at } => page.tree < TREES && at.0 != 0,
    }
}

fn is_held_mapping(mapping: Mapping) -> bool
    ensures { IsTrue result ↔ HoldsMapping mapping }
{
    match mapping {
        Mapping::Unmapped | Mapping::Zero => true,
        Mapping::At(block) => block.0 != 0,
    }
}

/// The prefix of the block: its first sectors that are valid, have the sequence and the head of sector 0, and whose
/// entries follow on one another. `None` exactly where sector 0 isn't valid.
pub fn block_prefix(block: &Block, nonce: u64) -> Option<Prefix>
    ensures some { IfSome result (λ p.
        IsPrefix nonce block.now p.sequence p.head p.entries p.whole) }
    ensures none { IfNone result
        ((sequence head : ℕ) (entries : List Entry) →
        IsSector nonce 0 (sector 0 block.now) sequence head entries → ⊥) }
{
    match sector(block, 0, nonce) {
        None => None,
        Some(first) => Some(prefix_from(block, nonce, &first)),
    }
}

// The prefix behind a valid sector 0.
fn prefix_from(block: &Block, nonce: u64, first: &Sector) -> Prefix
    requires { IsSector nonce 0
        (sector 0 block.now) first.now.sequence first.now.head first.now.entries }
    ensures { IsPrefix nonce block.now result.sequence result.head result.entries result.whole }
{
    let mut entries = Entries::new();
    entries.extend_from_slice(first.entries.as_slice());
    for count in 1..8 {
        if !add_next(
            block,
            nonce,
            first.sequence,
            first.head,
            count,
            &mut entries,
        ) {
            return Prefix {
                sequence: first.sequence,
                head: first.head,
                entries,
                whole: false,
            };
        }
    }
    Prefix {
        sequence: first.sequence,
        head: first.head,
        entries,
        whole: true,
    }
}

// Adds the entries of the sector behind a run, and says whether it goes on with the run.
fn add_next(
    block: &Block,
    nonce: u64,
    sequence: u64,
    head: u64,
    count: u16,
    entries: &mut Entries<JOURNAL_ENTRIES>,
) -> bool
    requires place { count < 8 }
    requires run { IsRun nonce block.now sequence head count entries.old }
    ensures longer { IsTrue result → IsRun nonce block.now sequence head (count + 1) entries.new }
    ensures ended { result ≡ false →
        (entries.new ≡ entries.old)
        × ((more : List Entry) → IsRun nonce block.now sequence head (count + 1) more → ⊥) }
{
    match sector(block, count, nonce) {
        None => false,
        Some(next) => {
            if !goes_on(&next, sequence, head, count, entries.len()) {
                return false;
            }
            entries.extend_from_slice(next.entries.as_slice());
            true
        }
    }
}

// Whether a sector goes on with a run of this many sectors and entries.
fn goes_on(next: &Sector, sequence: u64, head: u64, count: u16, entries: usize) -> bool
    ensures { IsTrue result
        ↔
        ((next.now.sequence ≡ sequence) × (next.now.head ≡ head)
        × ((entries ≡ 24 * count) ⊎ (length next.now.entries ≡ 0))) }
{
    let size = next.entries.len();
    next.sequence == sequence
        && next.head == head
        && (entries == PER_SECTOR * usize::from(count) || size == 0)
}
