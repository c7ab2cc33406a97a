ghost use Rattle.std.specs.Prelude.{ℕ, ◌≡◌, ◌≢◌, ◌<◌, length, slice_index_or, []};
ghost use Rattle.slab_codec.specs.declared.forms.SlabJournalBlock.{SlabJournalBlock};
ghost use Rattle.slab_journal.specs.Slab.{Slab, Seals, next_slot};

/// A block that is sealed takes its slot of the ring, and each other slot stays as it was; it is one block, and one journal
/// behind it.
pub fn a_sealed_block_takes_one_slot()
    ensures here { (old new : Slab) (block : SlabJournalBlock) → Seals old new block →
        next_slot old < length old.slots
        → slice_index_or new.slots (next_slot old) [] ≡ block.entries }
    ensures others { (old new : Slab) (block : SlabJournalBlock) (slot : ℕ) → Seals old new block →
        slot ≢ next_slot old
        → slice_index_or new.slots slot [] ≡ slice_index_or old.slots slot [] }
    ensures one { (old new new' : Slab) (block block' : SlabJournalBlock) → Seals old new block →
        Seals old new' block' → (new ≡ new') × (block ≡ block') }
{}
