ghost use Rattle.std.specs.Prelude.{◌≡◌, ◌∷◌, ◌<◌, ℕ, Bool, true, false, List, length};
ghost use Rattle.disk_model.specs.declared.call.Call.{Call};
ghost use Rattle.disk_model.specs.declared.call.Call.TheVariants.{Flush};
ghost use Rattle.disk_model.specs.Images.{IsImage};
ghost use Rattle.disk_model.specs.Log.{Blocks};
ghost use Rattle.disk_model.specs.OneImages.{HasOneImageIn};
ghost use Rattle.journal_stops.specs.Mapped.{later_image};
ghost use Rattle.journal_stops.specs.Sealed.{Sealed, window_of};
ghost use Rattle.recovery_laws.specs.Written.{AreFull};
ghost use Rattle.session_stops.specs.Beginnings.{IsToServe, opened_in};
ghost use Rattle.session_stops.specs.Closings.{IsClosedImage, IsClosing, IsWrittenOut, closing_calls, closing_write};

/// Once all of a session is on the device, each image that a stop leaves says all of it by itself, and the superblock may say
/// that it is closed. While it is written, failed or not, each image is sound and says the same; once it is flushed each is
/// closed too. It does nothing.
pub fn a_session_is_closed()
    ensures full { (base : Blocks) (to : IsToServe base) (opening : Blocks) (log : List Call)
        (blocks : List Sealed) → IsWrittenOut opening log base to blocks
        → (image : Blocks) → IsImage opening log image →
        AreFull
        (later_image (opened_in base to) image (window_of to.sound.head.start blocks)) image }
    ensures writing { (base : Blocks) (to : IsToServe base) (opening : Blocks) (log : List Call)
        (blocks : List Sealed) → IsWrittenOut opening log base to blocks
        → (ok : Bool) (now : Blocks) → IsImage opening (closing_write base to blocks ok ∷ log) now →
        IsClosing opening log base to blocks now }
    ensures unflushed { (base : Blocks) (to : IsToServe base) (opening : Blocks) (log : List Call)
        (blocks : List Sealed) → IsWrittenOut opening log base to blocks
        → (ok : Bool) (now : Blocks) →
        IsImage opening (Flush false ∷ closing_write base to blocks ok ∷ log) now →
        IsClosing opening log base to blocks now }
    ensures closed { (base : Blocks) (to : IsToServe base) (opening : Blocks) (log : List Call)
        (blocks : List Sealed) → IsWrittenOut opening (Flush true ∷ log) base to blocks
        → (now : Blocks) → IsImage opening (closing_calls base to blocks log) now →
        IsClosedImage opening (Flush true ∷ log) base to blocks now }

    // Where nothing is pending before, in all blocks or in some, nothing is pending afterwards.
    ensures one { (base : Blocks) (to : IsToServe base) (opening : Blocks) (log : List Call)
        (blocks : List Sealed) (image : Blocks) → 0 < length opening
        → (looked : ℕ → Bool) → HasOneImageIn looked opening (Flush true ∷ log) image →
        (now : Blocks) × HasOneImageIn looked opening (closing_calls base to blocks log) now }
{}
