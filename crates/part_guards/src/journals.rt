ghost use Rattle.std.specs.Prelude.{◌≡◌, ◌+◌, ◌<◌, ◌≤◌, ◌^◌, ◌∷◌, List, Some, None, Err};
ghost use Rattle.blk_base.specs.declared.journal_entry.CommittedEntry.{CommittedEntry};
ghost use Rattle.recovery_journal.specs.Log.{head_of, point_at, unhanded};
ghost use Rattle.slab_codec.specs.declared.forms.SlabEntry.{SlabEntry};
ghost use Rattle.slab_journal.specs.Slab.{commit_of, next_block};

use blk_base::{CommittedEntry, Entry};
use recovery_journal::{Journal, Place};
use slab_codec::SlabJournalBlock;
use slab_journal::SlabJournal;

// Each committed entry is handed out once: the next one follows it.
fn each_entry_once(journal: &mut Journal) -> Option<CommittedEntry>
    ghost list: { (next : CommittedEntry) × (later : List CommittedEntry) × Unit {0} }
    requires next { unhanded journal.old ≡ list.0 ∷ list.1 }
    requires committed { list.0.point.0 < point_at journal.old.committed 0 }
    ensures next { result ≡ Some list.0 }
    ensures later { unhanded journal.new ≡ list.1 }
{
    journal.next_committed()
}

// An entry of a block that isn't committed is not handed out.
fn no_uncommitted_entry(journal: &mut Journal) -> Option<CommittedEntry>
    ghost list: { (next : CommittedEntry) × (later : List CommittedEntry) × Unit {0} }
    requires next { unhanded journal.old ≡ list.0 ∷ list.1 }
    requires uncommitted { point_at journal.old.committed 0 ≤ list.0.point.0 }
    ensures { result ≡ None }
{
    journal.next_committed()
}

// No entry is taken while the slot that its block would be written to has one that a zone needs.
fn no_entry_over_a_needed_block(journal: &mut Journal, entry: Entry) -> Result<Place, Entry>
    requires sequence { journal.old.sequence < 2 ^ 55 }
    requires needed { head_of journal.old + journal.old.size < journal.old.sequence + 2 }
    ensures back { result ≡ Err entry }
    ensures same { journal.new ≡ journal.old }
{
    journal.append(entry)
}

// No block is sealed while the one before isn't durable.
fn no_seal_before_the_flush(journal: &mut SlabJournal) -> Option<SlabJournalBlock>
    requires { journal.old.durable < journal.old.sequence }
    ensures none { result ≡ None }
    ensures same { journal.new ≡ journal.old }
{
    journal.seal()
}

// No block is sealed over one with an update that its sector's counters don't include.
fn no_seal_over_an_update(journal: &mut SlabJournal) -> Option<SlabJournalBlock>
    ghost list: { (first : SlabEntry) × (rest : List SlabEntry) × Unit {0} }
    requires there { next_block journal.old ≡ list.0 ∷ list.1 }
    requires above { (commit_of journal.old.geometry journal.old.commits list.0).0 < list.0.point.0 }
    ensures none { result ≡ None }
    ensures same { journal.new ≡ journal.old }
{
    journal.seal()
}
