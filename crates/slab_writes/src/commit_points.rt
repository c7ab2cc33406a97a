ghost use Rattle.std.specs.Prelude.{◌≡◌, ◌≤◌, length};
ghost use Rattle.slab_writes.specs.Writes.{Raises};

use reference_blocks::ReferenceBlocks;
use slab_journal::SlabJournal;

/// The sectors of counters from this one on, up to that one, are durable with the commit points that they were handed out
/// with.
pub(crate) fn raise_commits(
    journal: &mut SlabJournal,
    blocks: &ReferenceBlocks,
    first: u32,
    end: u32,
)
    requires rises { first ≤ end }
    requires inside { end ≤ length journal.old.commits }
    ensures raises { Raises blocks.now.handed journal.old.commits first end journal.new.commits }
    ensures same { journal.new ≡ record journal.old { commits = journal.new.commits } }
{
    for sector in first..end {
        journal.reference_durable(sector, blocks.handed_point(sector));
    }
}
