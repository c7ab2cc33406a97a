ghost use Rattle.std.specs.Prelude.{◌≡◌, ◌⊎◌, ◌+◌, ℕ, List, [], Result, Ok};
ghost use Rattle.blk_base.specs.declared.geometry.Geometry.{Geometry};
ghost use Rattle.blk_base.specs.declared.journal_entry.CommittedEntry.{CommittedEntry};
ghost use Rattle.blk_base.specs.declared.layout.DataPlace.{DataPlace};
ghost use Rattle.blk_base.specs.declared.place.Pbn.{Pbn};
ghost use Rattle.image_model.specs.Windows.{IsWindow, IsFaulty};
ghost use Rattle.image_model.specs.Maps.{Image};
ghost use Rattle.disk_model.specs.Log.{Blocks};
ghost use Rattle.image_model.specs.Counts.{Stores, HasMappings, count_from, adds_of, takes_of};
ghost use Rattle.image_model.specs.Empty.{IsEmpty, IsUnused, HasNothing, empty_super};
ghost use Rattle.image_model.specs.Faults.{IsImageFault};
ghost use Rattle.image_model.specs.Sound.{IsSound, image_of};
ghost use Rattle.image_model.specs.declared.fault.ImageFault.{ImageFault};
ghost use Rattle.image_model.specs.declared.fault.ImageFault.TheVariants.{Device, Unclean, Memory};

/// A journal has one window, or one block that is named where it has none, and not both.
pub fn a_journal_has_one_window()
    ensures windows { (g : Geometry) (start : ℕ) (journal : List (List ℕ)) (last last' : ℕ)
        (window window' : List CommittedEntry)
        → IsWindow g start journal last window → IsWindow g start journal last' window' →
        (last ≡ last') × (window ≡ window') }
    ensures faults { (g : Geometry) (start : ℕ) (journal : List (List ℕ)) (sequence sequence' : ℕ)
        → IsFaulty g start journal sequence → IsFaulty g start journal sequence' →
        sequence ≡ sequence' }
    ensures apart { (g : Geometry) (start : ℕ) (journal : List (List ℕ)) (last : ℕ)
        (window : List CommittedEntry) (sequence : ℕ)
        → IsWindow g start journal last window → IsFaulty g start journal sequence → ⊥ }
{}

/// A data block has one stored count, or one point at which it has none, and one number of mappings.
pub fn a_block_has_one_count()
    ensures stored { (image : Image) (place : DataPlace) (result result' : Result ℕ ℕ)
        → Stores image place result → Stores image place result' → result ≡ result' }
    ensures mapped { (image : Image) (block : Pbn) (count count' : ℕ)
        → HasMappings image block count → HasMappings image block count' → count ≡ count' }

    // The stored count is the counter, with what the updates add and without what they take away.
    ensures sum { (limit commit counter : ℕ) (points : List ℕ) (count : ℕ)
        → count_from limit commit counter points ≡ Ok count →
        counter + adds_of points ≡ count + takes_of points }
{}

/// An empty image is sound, and nothing was written to it: every address is unmapped, every stored count is 0, and so is
/// every number of mappings.
pub fn an_empty_image_is_sound()
    ensures sound { (g : Geometry) (blocks : Blocks) → IsEmpty g blocks → IsSound blocks }
    ensures nothing { (g : Geometry) (blocks : Blocks) → IsEmpty g blocks →
        HasNothing (image_of (empty_super g) blocks []) }
    ensures unused { (g : Geometry) (blocks : Blocks) → IsEmpty g blocks → IsUnused blocks }
{}

/// A sound image has none of the faults that say something of it.
pub fn a_sound_image_has_no_fault()
    ensures { (blocks : Blocks) (fault : ImageFault) → IsSound blocks → IsImageFault blocks fault →
        (fault ≡ Device) ⊎ (fault ≡ Unclean) ⊎ (fault ≡ Memory) }
{}
