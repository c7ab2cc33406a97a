ghost use Rattle.std.specs.Prelude.{◌≡◌, ◌+◌, ◌%◌, ◌<◌, ◌↔◌, ◌++◌, ℕ, All, Contains, IfOk, OnOk};
ghost use Rattle.std.specs.List.Sorted.{IsPermutation};
ghost use Rattle.blk_base.specs.declared.journal_entry.CommittedEntry.{CommittedEntry};
ghost use Rattle.count_updates.specs.Entries.{added_block, taken_block, updates_in};
ghost use Rattle.count_updates.specs.Listed.{Lists, AreInOrder};
ghost use Rattle.image_model.specs.Counts.{Updates};
ghost use Rattle.image_model.specs.Maps.{target_of};

use blk_base::{CommittedEntry, Entry, Mapping, Pbn, Point, Update};
use std::alloc::{AllocError, Global};

/// The updates that these entries make, each of which has the point of its half that adds.
pub fn updates_of_window(
    alloc: Global,
    window: &[CommittedEntry],
) -> Result<Vec<Update>, AllocError>
    requires { All (λ committed. committed.point.0 % 2 ≡ 0) window.now }
    ensures { IfOk result (λ updates. (at point : ℕ) → Lists updates.items at point
        ↔
        ((committed : CommittedEntry) × Contains window.now committed
        × Updates committed (record { 0 = at }) point)) }
{
    let mut updates = Vec::new(alloc);
    for committed in window {
        push_updates(&mut updates, committed)?;
    }
    Ok(updates)
}

// Adds the updates of an entry.
fn push_updates(updates: &mut Vec<Update>, committed: &CommittedEntry) -> Result<(), AllocError>
    requires { committed.now.point.0 % 2 ≡ 0 }
    ensures { OnOk result (updates.new.items ≡ updates.old.items ++ updates_in committed.now) }
{
    let point = committed.point;
    if let Some(at) = added_block(&committed.entry) {
        updates.push(Update { at, point })?;
    }
    if let Some(at) = taken_block(&committed.entry) {
        let next = Point(point.0 + 1);
        updates.push(Update { at, point: next })?;
    }
    Ok(())
}

// The block that an entry maps once more.
fn added_block(entry: &Entry) -> Option<Pbn>
    ensures { result ≡ added_block entry.now }
{
    match *entry {
        Entry::Remap { new, .. } => target_of(new),
        Entry::NewPage { at, .. } => Some(at),
    }
}

// The block that an entry maps once less.
fn taken_block(entry: &Entry) -> Option<Pbn>
    ensures { result ≡ taken_block entry.now }
{
    match *entry {
        Entry::Remap { old, .. } => target_of(old),
        Entry::NewPage { .. } => None,
    }
}

// The block that a mapping leads to.
fn target_of(mapping: Mapping) -> Option<Pbn>
    ensures { result ≡ target_of mapping }
{
    match mapping {
        Mapping::At(block) => Some(block),
        _ => None,
    }
}

// All at once, so that one pass over them counts all blocks: 16 bytes each, and a slab's journal has at most 20,480.
/// Puts updates in the order of their blocks, and those of a block in the order of their points.
pub fn put_in_order(updates: &mut Vec<Update>) -> Result<(), AllocError>
    ensures permutation { IsPermutation updates.old.items updates.new.items }
    ensures order { OnOk result (AreInOrder updates.new.items) }
{
    updates.sort_by_key(|update| (update.at.0, update.point.0))?;
    Ok(())
}
