ghost use Rattle.std.specs.Prelude.{◌≡◌, reverse};

use blk_base::CommittedEntry;
use std::marker::Model;

/// The window of a recovery journal: its last sequence, and its entries with their points. A contract sees the newest
/// entry first.
#[derive(Drop)]
pub struct JournalWindow {
    last: u64,
    entries: Vec<CommittedEntry>,
}

impl Model for JournalWindow {
    ghost use Rattle.std.specs.Prelude.{reverse};
    ghost use Rattle.journal_window.specs.States.{WindowState};

    ghost Value = { WindowState };

    ghost view = { λ w. record { last = w.last; entries = reverse w.entries.items } };
}

impl JournalWindow {
    // The window with this last sequence and these entries, the oldest first.
    pub(crate) fn new(last: u64, entries: Vec<CommittedEntry>) -> JournalWindow
        ensures { result ≡ record { last = last; entries = reverse entries.items } }
    {
        JournalWindow { last, entries }
    }

    /// The sequence of the newest block, or the one before the superblock's `start` where there is no block.
    pub fn last(&self) -> u64
        ensures { result ≡ self.now.last }
    {
        self.last
    }

    /// The entries, the oldest first.
    pub fn entries(&self) -> &[CommittedEntry]
        ensures { self.now.entries ≡ reverse result.now }
    {
        &self.entries
    }
}
