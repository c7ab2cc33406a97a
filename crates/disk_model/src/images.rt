ghost use Rattle.std.specs.Prelude.{◌≡◌, ◌≢◌, ◌<◌, [], ◌∷◌, ◌++◌, ℕ, Bool, IsTrue, true, false, List, length};
ghost use Rattle.std.specs.List.{AllByRecursion};
ghost use Rattle.blk_base.specs.declared.place.Pbn.{Pbn};
ghost use Rattle.disk_model.specs.declared.call.Call.{Call};
ghost use Rattle.disk_model.specs.declared.call.Call.TheVariants.{Read, Write, Flush};
ghost use Rattle.disk_model.specs.Images.{IsImage, HasOneImage};
ghost use Rattle.disk_model.specs.OneImages.{AreAlikeIn, HasOneImageIn, IsImageIn};
ghost use Rattle.disk_model.specs.Log.{Blocks, Misses, block_at, settled, contents};

/// What each call does to the contents that a stop may leave, and what an image shows of them. It does nothing.
pub fn images_of_a_log()
    // A write, failed or not, adds its content to those of its block, and changes those of no other block.
    ensures write { (opening : Blocks) (log : List Call) (at : Pbn) (bytes : List ℕ) (ok : Bool)
        → contents opening (Write at bytes ok ∷ log) at.0 ≡ bytes ∷ contents opening log at.0 }
    ensures write_elsewhere { (opening : Blocks) (log : List Call) (at : Pbn) (bytes : List ℕ)
        (ok : Bool) (b : ℕ)
        → at.0 ≢ b → contents opening (Write at bytes ok ∷ log) b ≡ contents opening log b }

    // A read and a flush that failed change none.
    ensures read { (opening : Blocks) (log : List Call) (at : Pbn) (bytes : List ℕ) (ok : Bool)
        (b : ℕ)
        → contents opening (Read at bytes ok ∷ log) b ≡ contents opening log b }
    ensures failed_flush { (opening : Blocks) (log : List Call) (b : ℕ)
        → contents opening (Flush false ∷ log) b ≡ contents opening log b }

    // After a flush the contents are that of the last successful write, and those of the failed ones since.
    ensures flush { (opening : Blocks) (log : List Call) (b : ℕ)
        → contents opening (Flush true ∷ log) b ≡ settled opening log b }
    ensures settled { (opening : Blocks) (log : List Call) (at : Pbn) (bytes : List ℕ)
        → settled opening (Write at bytes true ∷ log) at.0 ≡ bytes ∷ [] }
    ensures unsettled { (opening : Blocks) (log : List Call) (at : Pbn) (bytes : List ℕ)
        → settled opening (Write at bytes false ∷ log) at.0 ≡ bytes ∷ settled opening log at.0 }
    ensures settled_elsewhere { (opening : Blocks) (log : List Call) (at : Pbn) (bytes : List ℕ)
        (ok : Bool) (b : ℕ)
        → at.0 ≢ b → settled opening (Write at bytes ok ∷ log) b ≡ settled opening log b }

    // A block all of whose contents are the same is that content in each image.
    ensures agreed { (opening : Blocks) (log : List Call) (image : Blocks) (b : ℕ) (value : List ℕ)
        → b < length opening → length value ≡ 4096
        → AllByRecursion (λ content. content ≡ value) (contents opening log b)
        → IsImage opening log image → block_at image b ≡ value }

    // Where nothing is pending, a stop leaves that one image, and later images are those of a device that opened with it.
    ensures one_image { (opening : Blocks) (log : List Call) (image other : Blocks)
        → HasOneImage opening log image → IsImage opening log other → other ≡ image }
    ensures is_image { (opening : Blocks) (log : List Call) (image : Blocks)
        → HasOneImage opening log image → IsImage opening log image }
    ensures later { (opening : Blocks) (log later : List Call) (image other : Blocks)
        → HasOneImage opening log image → IsImage opening (later ++ log) other →
        IsImage image later other }
{}

/// The same of the blocks that are looked at, where others are pending: the device has one image there, whatever was written
/// to the others. It does nothing.
pub fn images_of_what_is_looked_at()
    ensures all { (looked : ℕ → Bool) (opening : Blocks) (log : List Call) (image : Blocks)
        → HasOneImage opening log image → HasOneImageIn looked opening log image }
    ensures every { (opening : Blocks) (log : List Call) (image : Blocks) →
        HasOneImageIn (λ b. true) opening log image → HasOneImage opening log image }

    ensures part { (looked : ℕ → Bool) (opening : Blocks) (log : List Call) (image : Blocks) →
        IsImage opening log image → IsImageIn looked opening log image }

    // A call that writes none of the blocks that are looked at leaves them as they are.
    ensures aside { (looked : ℕ → Bool) (opening : Blocks) (log : List Call) (image : Blocks)
        (call : Call) → ((b : ℕ) → IsTrue (looked b) → Misses call b)
        → HasOneImageIn looked opening log image → HasOneImageIn looked opening (call ∷ log) image }

    // A stop leaves them, and later images are there those of a device that opened with them.
    ensures alike { (looked : ℕ → Bool) (opening : Blocks) (log : List Call) (image other : Blocks)
        → HasOneImageIn looked opening log image → IsImage opening log other →
        AreAlikeIn looked image other }
    ensures later { (looked : ℕ → Bool) (opening : Blocks) (log later : List Call)
        (image other : Blocks)
        → HasOneImageIn looked opening log image → IsImageIn looked opening (later ++ log) other →
        IsImageIn looked image later other }
{}
