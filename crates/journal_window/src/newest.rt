ghost use Rattle.std.specs.Prelude.{◌≡◌, ◌≤◌, ◌<◌, ◌+◌, ◌^◌, ◌%◌, ℕ, length};
ghost use Rattle.std.specs.Bool.{OnTrue, OnFalse};
ghost use Rattle.blk_base.specs.Limits.{IsGeometry};
ghost use Rattle.image_model.specs.Windows.{IsLast, IsFirst};
ghost use Rattle.journal_window.specs.Newest.{IsNewest, IsUpTo};

use blk_base::{Block, Super};
use journal_codec::sector;

/// The window lasts so many sequences from the session's first one on.
const REACH: u64 = 1 << 32;

/// The newest block of a journal: its sequence, and the first sequence that it says is still needed.
#[derive(Clone, Copy)]
pub(crate) struct Newest {
    pub(crate) sequence: u64,
    pub(crate) head: u64,
}

/// The sequences of a window. Where the first one is behind the last one, there are none.
#[derive(Clone, Copy)]
pub(crate) struct Span {
    pub(crate) first: u64,
    pub(crate) last: u64,
}

// From where to where the window lasts.
pub(crate) fn find_span(journal: &[Block], head: &Super) -> Span
    requires sizes { IsGeometry head.now.geometry }
    requires slots { length journal.now ≡ head.now.geometry.journal }
    requires some { 1 ≤ head.now.start }
    requires below { head.now.start < 2 ^ 54 }
    ensures last { IsLast head.now.geometry head.now.start journal.now result.last }
    ensures first { IsFirst head.now.geometry head.now.start journal.now result.last result.first }
    ensures order { result.first ≤ result.last + 1 }
    ensures small { result.last < 2 ^ 54 + 2 ^ 32 }
{
    match find_newest(journal, head) {
        Some(newest) => Span {
            first: newest.head,
            last: newest.sequence,
        },
        None => Span {
            first: head.start,
            last: head.start - 1,
        },
    }
}

// The newest block in reach.
fn find_newest(journal: &[Block], head: &Super) -> Option<Newest>
    requires sizes { IsGeometry head.now.geometry }
    requires slots { length journal.now ≡ head.now.geometry.journal }
    ensures { IsNewest head.now.geometry head.now.start journal.now head.now.geometry.journal
        result }
{
    let mut newest = None;
    for slot in 0..u64::from(head.geometry.journal) {
        newest = with_slot(journal, head, slot, newest);
    }
    newest
}

// The newest block with one slot more looked at.
fn with_slot(journal: &[Block], head: &Super, slot: u64, newest: Option<Newest>) -> Option<Newest>
    requires sizes { IsGeometry head.now.geometry }
    requires slots { length journal.now ≡ head.now.geometry.journal }
    requires place { slot < head.now.geometry.journal }
    requires before { IsNewest head.now.geometry head.now.start journal.now slot newest }
    ensures { IsNewest head.now.geometry head.now.start journal.now (slot + 1) result }
{
    match sector(&journal[slot as usize], 0, head.geometry.nonce) {
        None => newest,
        Some(found) => {
            if belongs(head, slot, found.sequence) && is_past(newest, found.sequence) {
                Some(Newest {
                    sequence: found.sequence,
                    head: found.head,
                })
            } else {
                newest
            }
        }
    }
}

// Whether a sequence belongs in the slot, and is in reach.
fn belongs(head: &Super, slot: u64, sequence: u64) -> bool
    requires { IsGeometry head.now.geometry }
    ensures yes { OnTrue result
        ((sequence % head.now.geometry.journal ≡ slot) × (head.now.start ≤ sequence)
        × (sequence < head.now.start + 2 ^ 32)) }
    ensures no { OnFalse result
        (sequence % head.now.geometry.journal ≡ slot → head.now.start ≤ sequence →
        sequence < head.now.start + 2 ^ 32 → ⊥) }
{
    sequence % u64::from(head.geometry.journal) == slot
        && sequence >= head.start
        && sequence - head.start < REACH
}

// Whether a sequence is past the newest block so far.
fn is_past(newest: Option<Newest>, sequence: u64) -> bool
    ensures yes { OnTrue result ((other : ℕ) → IsUpTo newest other → other ≤ sequence) }
    ensures no { OnFalse result (IsUpTo newest sequence) }
{
    match newest {
        Some(newest) => newest.sequence < sequence,
        None => true,
    }
}
