//! Guards of what is read of an image when it is opened: its superblock, and the window of its journal.
ghost use Rattle.std.specs.Prelude.{◌≡◌, ◌≤◌, ◌<◌, ◌^◌, ◌∷◌, ℕ, Bool, Err, IfOk, IsTrue, List, false, length, reverse};
ghost use Rattle.blk_base.specs.Limits.{IsGeometry};
ghost use Rattle.blk_base.specs.declared.journal_entry.Entry.{Entry};
ghost use Rattle.blk_base.specs.declared.place.Pbn.{Pbn};
ghost use Rattle.disk_model.specs.declared.call.Call.TheVariants.{Read};
ghost use Rattle.image_model.specs.Windows.{HasEntries, IsThere, with_points};
ghost use Rattle.image_model.specs.declared.fault.ImageFault.TheVariants.{Device};

use blk_base::{Block, Super};
use disk_model::Disk;
use image_model::ImageFault;
use image_opening::read_head;
use journal_window::{JournalWindow, window_of};
use std::alloc::Global;

// Where the read of the superblock failed, that is the answer, and nothing is said of the image.
fn a_failed_read_is_a_fault_of_the_device<D: Disk>(device: &mut D) -> Result<Super, ImageFault>
    requires { IsTrue D.trust.tells }
    ensures { (at : Pbn) (bytes : List ℕ) →
        (D.seen device.new).log ≡ Read at bytes false ∷ (D.seen device.old).log →
        result ≡ Err Device }
{
    read_head(device)
}

// Each block of a window has its own sequence: none is left from an earlier round of the ring.
fn a_window_has_no_stale_block(
    alloc: Global,
    head: &Super,
    journal: &[Block],
) -> Result<JournalWindow, ImageFault>
    requires sizes { IsGeometry head.now.geometry }
    requires slots { length journal.now ≡ head.now.geometry.journal }
    requires some { 1 ≤ head.now.start }
    requires below { head.now.start < 2 ^ 54 }
    ensures { IfOk result (λ window. (first sequence : ℕ) → head.now.start ≤ window.last →
        IsThere head.now.geometry journal.now window.last first →
        first ≤ sequence → sequence ≤ window.last →
        (oldest : ℕ) × IsThere head.now.geometry journal.now sequence oldest) }
{
    window_of(alloc, head, journal)
}

// A window whose newest block needs no older one has the entries of that block alone.
fn a_window_begins_where_its_newest_block_says(
    alloc: Global,
    head: &Super,
    journal: &[Block],
) -> Result<JournalWindow, ImageFault>
    requires sizes { IsGeometry head.now.geometry }
    requires slots { length journal.now ≡ head.now.geometry.journal }
    requires some { 1 ≤ head.now.start }
    requires below { head.now.start < 2 ^ 54 }
    ensures { IfOk result (λ window. (entries : List Entry) (whole : Bool) →
        head.now.start ≤ window.last →
        IsThere head.now.geometry journal.now window.last window.last →
        HasEntries head.now.geometry journal.now window.last entries whole →
        window.entries ≡ reverse (with_points window.last 0 entries)) }
{
    window_of(alloc, head, journal)
}
