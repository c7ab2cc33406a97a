ghost use Rattle.std.specs.Prelude.{◌≡◌, ◌≤◌, ◌<◌, ◌+◌, ◌++◌, ◌^◌, ◌↔◌, List, IsTrue, IfSome, IfNone, IfOk, IfErr, OnOk, All, length, reverse};
ghost use Rattle.std.specs.Bool.{OnTrue, OnFalse};
ghost use Rattle.blk_base.specs.declared.journal_entry.Entry.{Entry};
ghost use Rattle.blk_base.specs.declared.sizes.TheConstants.{JOURNAL_ENTRIES};
ghost use Rattle.image_model.specs.Windows.{IsOfImage, IsReplayable, with_points};
ghost use Rattle.journal_window.specs.Newest.{AreReplayed};
ghost use Rattle.journal_window.specs.Replays.{IsStopped, CantReplay};

use crate::entries::is_of_image;
use crate::newest::Span;
use blk_base::{Block, CommittedEntry, Entry, Half, Layout, Point};
use image_model::ImageFault;
use journal_codec::{Prefix, block_prefix};
use std::alloc::{AllocError, Global};

// The entries of all blocks of the window, the oldest first; or the first block that can't be replayed.
// A head far below the last sequence costs no more than the journal has slots: of so many sequences in a row and one
// more, two stand in one slot, so one of them isn't there.
pub(crate) fn replay(
    alloc: Global,
    journal: &[Block],
    layout: &Layout,
    span: Span,
) -> Result<Vec<CommittedEntry>, ImageFault>
    requires slots { length journal.now ≡ layout.now.geometry.journal }
    requires order { span.first ≤ span.last + 1 }
    requires small { span.last < 2 ^ 54 + 2 ^ 32 }
    ensures entries { IfOk result (λ entries.
        AreReplayed layout.now.geometry journal.now span.last span.first (span.last + 1)
        (reverse entries.items)) }
    ensures fault { IfErr result (IsStopped layout.now.geometry journal.now span.last span.first) }
{
    let mut entries = Vec::new(alloc);
    for sequence in span.first..span.last + 1 {
        add_block(&mut entries, journal, layout, span.last, sequence)?;
    }
    Ok(entries)
}

// Adds the entries of a block with their points.
fn add_block(
    entries: &mut Vec<CommittedEntry>,
    journal: &[Block],
    layout: &Layout,
    last: u64,
    sequence: u64,
) -> Result<(), ImageFault>
    requires slots { length journal.now ≡ layout.now.geometry.journal }
    requires small { sequence < 2 ^ 55 }
    ensures ok { OnOk result
        ((es : List Entry) × IsReplayable layout.now.geometry journal.now last sequence es
        × (entries.new.items ≡ entries.old.items ++ with_points sequence 0 es)) }
    ensures err { IfErr result (CantReplay layout.now.geometry journal.now last sequence) }
{
    let Some(prefix) = replayable(journal, layout, last, sequence) else {
        return Err(ImageFault::Window { sequence });
    };
    match push_with_points(entries, sequence, prefix.entries.as_slice()) {
        Ok(()) => Ok(()),
        Err(_) => Err(ImageFault::Memory),
    }
}

// The prefix of the block of a sequence, if the block can be replayed.
fn replayable(journal: &[Block], layout: &Layout, last: u64, sequence: u64) -> Option<Prefix>
    requires { length journal.now ≡ layout.now.geometry.journal }
    ensures some { IfSome result (λ p.
        IsReplayable layout.now.geometry journal.now last sequence p.entries) }
    ensures none { IfNone result
        ((es : List Entry) → IsReplayable layout.now.geometry journal.now last sequence es → ⊥) }
{
    let slot = sequence % u64::from(layout.geometry.journal);
    match block_prefix(&journal[slot as usize], layout.geometry.nonce) {
        None => None,
        Some(prefix) => {
            if is_whole(&prefix, last, sequence)
                && are_of_image(layout, prefix.entries.as_slice())
            {
                Some(prefix)
            } else {
                None
            }
        }
    }
}

// Whether a prefix is that of the block of a sequence, and all of the block where another one follows.
fn is_whole(prefix: &Prefix, last: u64, sequence: u64) -> bool
    ensures yes { OnTrue result
        ((prefix.now.sequence ≡ sequence) × (sequence < last → IsTrue prefix.now.whole)) }
    ensures no { OnFalse result
        (prefix.now.sequence ≡ sequence → (sequence < last → IsTrue prefix.now.whole) → ⊥) }
{
    prefix.sequence == sequence && (sequence >= last || prefix.whole)
}

// Whether each of these entries is of this image.
fn are_of_image(layout: &Layout, entries: &[Entry]) -> bool
    ensures { IsTrue result ↔ All (IsOfImage layout.now.geometry) entries.now }
{
    entries.iter().all(|entry| is_of_image(layout, *entry))
}

// Adds the entries of the block of a sequence with their points.
fn push_with_points(
    entries: &mut Vec<CommittedEntry>,
    sequence: u64,
    block: &[Entry],
) -> Result<(), AllocError>
    requires sequence { sequence < 2 ^ 55 }
    requires few { length block.now ≤ JOURNAL_ENTRIES }
    ensures { OnOk result
        (entries.new.items ≡ entries.old.items ++ with_points sequence 0 block.now) }
{
    for (number, entry) in block.iter().enumerate() {
        entries.push(CommittedEntry {
            entry: *entry,
            point: Point::of(sequence, number as u16, Half::Increment),
        })?;
    }
    Ok(())
}
