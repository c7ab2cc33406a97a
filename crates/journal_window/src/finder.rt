ghost use Rattle.std.specs.Prelude.{◌≡◌, ◌≤◌, ◌<◌, ◌+◌, ◌^◌, false, IfOk, IfErr, length};
ghost use Rattle.std.specs.Bool.{OnTrue, OnFalse};
ghost use Rattle.blk_base.specs.Limits.{IsGeometry};
ghost use Rattle.image_model.specs.Sound.{HasSequences};
ghost use Rattle.journal_window.specs.Windows.{IsWindowOf, IsRefused};

use crate::JournalWindow;
use crate::newest::find_span;
use crate::replayed_blocks::replay;
use blk_base::{Block, Layout, Super};
use image_layout::{Field, SuperFault};
use image_model::ImageFault;
use std::alloc::Global;

/// A superblock's `start` is below this.
const STARTS: u64 = 1 << 54;

/// The window of these blocks, which are those of the recovery journal of the image with this superblock, in the order
/// of their slots.
///
/// Where the last session wasn't closed and the window's last sequence and 2 is 2^54 or more, so that the next session
/// would have no sequence, the refusal is `Super(BadField(Start))`, whatever the blocks say. Else `Window` names the
/// first block of the window that can't be replayed. `Memory` comes only for want of memory, which is taken for the
/// window's entries.
pub fn window_of(
    alloc: Global,
    head: &Super,
    journal: &[Block],
) -> Result<JournalWindow, ImageFault>
    requires sizes { IsGeometry head.now.geometry }
    requires slots { length journal.now ≡ head.now.geometry.journal }
    requires some { 1 ≤ head.now.start }
    requires below { head.now.start < 2 ^ 54 }
    ensures window { IfOk result (IsWindowOf head.now journal.now) }
    ensures fault { IfErr result (IsRefused head.now journal.now) }
{
    let span = find_span(journal, head);
    if !has_sequences(head, span.last) {
        return Err(ImageFault::Super(SuperFault::BadField(Field::Start)));
    }
    let entries = replay(alloc, journal, &Layout::of(&head.geometry), span)?;
    Ok(JournalWindow::new(span.last, entries))
}

// Whether the session after one that wasn't closed has sequences left.
// Said before any block is judged, since it is found by the last sequence alone.
fn has_sequences(head: &Super, last: u64) -> bool
    requires { last < 2 ^ 54 + 2 ^ 32 }
    ensures yes { OnTrue result (HasSequences head.now last) }
    ensures no { OnFalse result ((head.now.clean ≡ false) × (2 ^ 54 ≤ last + 2)) }
{
    head.clean || last + 2 < STARTS
}
