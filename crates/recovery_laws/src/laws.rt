ghost use Rattle.std.specs.Prelude.{◌≡◌, ◌⊎◌, ◌∷◌, ◌++◌, true, false, List, length, Ok};
ghost use Rattle.std.specs.List.{AllByRecursion};
ghost use Rattle.disk_model.specs.declared.call.Call.{Call};
ghost use Rattle.disk_model.specs.declared.call.Call.TheVariants.{Flush};
ghost use Rattle.disk_model.specs.Log.{Blocks};
ghost use Rattle.disk_model.specs.OneImages.{AreAlikeIn};
ghost use Rattle.image_format.specs.Runs.{as_failed};
ghost use Rattle.image_layout.specs.Opened.{super_of_image};
ghost use Rattle.image_model.specs.Looked.{HasOneImageButIndex, looked_in};
ghost use Rattle.image_model.specs.Maps.{Image};
ghost use Rattle.image_model.specs.Sound.{IsSound};
ghost use Rattle.recovery_laws.specs.Calls.{ArePuts, IsBegun, IsPut, recovery_calls};
ghost use Rattle.recovery_laws.specs.Kept.{AreKept, AreStopsKept, IsRecovered, IsToRecover, SayTheSame, image_in, recovered_super};
ghost use Rattle.recovery_laws.specs.Recoverable.{AreStopsStill, HasRecoverable, IsClosedStill, IsRecoverable, StillSays, recoverable_image};
ghost use Rattle.recovery_laws.specs.Written.{AreFull, AreUnderway};

/// While a sound image is recovered it is sound and says the same, with its other blocks as they were, and afterwards it is
/// closed too: of each of these, whatever way it came there. It does nothing.
pub fn blocks_underway_say_the_same()
    ensures underway { (blocks now : Blocks) (sound : IsSound blocks) → sound.head.clean ≡ false →
        AreUnderway (image_in blocks sound) now
        → AreKept (image_in blocks sound) now }
    ensures full { (blocks now : Blocks) (sound : IsSound blocks) →
        AreFull (image_in blocks sound) now
        → super_of_image now ≡ Ok (recovered_super sound.head.geometry sound.last) →
        IsRecovered (image_in blocks sound) sound.last now }

    // What says the same as what says the same does too, and what keeps what was kept: so a second recovery after a stop
    // gives the same.
    ensures again { (old middle new : Image) → SayTheSame old middle → SayTheSame middle new →
        SayTheSame old new }
    ensures kept_again { (old : Image) (middle now : Blocks) (first : AreKept old middle) →
        length middle ≡ length old.blocks
        → AreKept (image_in middle first.sound) now → AreKept old now }
{}

/// Nothing rests on the blocks of the index: images that are alike in all others are sound alike, and say the same. It does
/// nothing.
pub fn the_index_says_nothing()
    ensures { (blocks now : Blocks) (sound : IsSound blocks) →
        AreAlikeIn (looked_in blocks) blocks now → AreKept (image_in blocks sound) now }
{}

/// Recovery makes its writes in any order, with reads among them; then a flush, the superblock, and a flush. Of a sound image
/// on which nothing is pending but in the index, whatever a stop leaves at any moment of that, also where a call failed and no
/// other was made behind it, is sound and says the same, with each block as it was that is neither the superblock's, nor a
/// page's, nor the counters', nor the index's, which it doesn't write; of block 0 no superblock is written but the old one or
/// its own; and afterwards nothing else is pending and the image is closed. It does nothing.
pub fn recovery_keeps_what_an_image_says()
    // While not all writes are made.
    ensures parts { (opening blocks : Blocks) (first calls : List Call)
        (to : IsToRecover opening first blocks) →
        AllByRecursion (IsPut (image_in blocks to.sound)) calls
        → AreStopsKept blocks to.sound opening first calls }
    ensures cut { (opening blocks : Blocks) (first calls : List Call) (call : Call)
        (to : IsToRecover opening first blocks)
        → AllByRecursion (IsPut (image_in blocks to.sound)) calls →
        IsPut (image_in blocks to.sound) call ⊎ (call ≡ Flush true)
        → AreStopsKept blocks to.sound opening first (as_failed call ∷ calls) }

    // And where all are.
    ensures stops { (opening blocks : Blocks) (first puts : List Call)
        (to : IsToRecover opening first blocks) → ArePuts (image_in blocks to.sound) puts
        →
        AreStopsKept blocks to.sound opening first
        (recovery_calls (image_in blocks to.sound) to.sound.last puts) }
    ensures failures { (opening blocks : Blocks) (first puts newer done : List Call) (call : Call)
        (to : IsToRecover opening first blocks)
        → ArePuts (image_in blocks to.sound) puts →
        recovery_calls (image_in blocks to.sound) to.sound.last puts ≡ newer ++ (call ∷ done)
        → AreStopsKept blocks to.sound opening first (as_failed call ∷ done) }
    ensures recovered { (opening blocks : Blocks) (first puts : List Call)
        (to : IsToRecover opening first blocks) → ArePuts (image_in blocks to.sound) puts
        →
        (now : Blocks)
        × HasOneImageButIndex opening
        (recovery_calls (image_in blocks to.sound) to.sound.last puts ++ first) now
        × IsRecovered (image_in blocks to.sound) to.sound.last now }
{}

/// Whether an image is sound or not: while it is recovered, and afterwards, and at whatever moment it is stopped, it can be
/// recovered and says the same, so that a stored count that wasn't the number of mappings is what it was. It does nothing.
pub fn recovery_keeps_a_wrong_count()
    // Over images alone: while it is, afterwards, and where only the index differs.
    ensures underway { (blocks now : Blocks) (is : IsRecoverable blocks) →
        AreUnderway (recoverable_image blocks is) now
        → StillSays (recoverable_image blocks is) now }
    ensures full { (blocks now : Blocks) (is : IsRecoverable blocks) →
        AreFull (recoverable_image blocks is) now
        → super_of_image now ≡ Ok (recovered_super is.head.geometry is.last) →
        IsClosedStill (recoverable_image blocks is) is.last now }
    ensures alike { (blocks now : Blocks) (is : IsRecoverable blocks) →
        AreAlikeIn (looked_in blocks) blocks now
        → StillSays (recoverable_image blocks is) now }

    // Over logs: wherever it ended, and where all calls were made.
    ensures begun { (opening blocks : Blocks) (first calls : List Call)
        (to : HasRecoverable opening first blocks)
        → IsBegun (recoverable_image blocks to.is) to.is.last calls →
        AreStopsStill blocks to.is opening first calls }
    ensures recovered { (opening blocks : Blocks) (first puts : List Call)
        (to : HasRecoverable opening first blocks)
        → ArePuts (recoverable_image blocks to.is) puts →
        (now : Blocks)
        × HasOneImageButIndex opening
        (recovery_calls (recoverable_image blocks to.is) to.is.last puts ++ first) now
        × IsClosedStill (recoverable_image blocks to.is) to.is.last now }
{}
