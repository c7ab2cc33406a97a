ghost use Rattle.std.specs.Prelude.{◌≡◌, ◌≤◌, ◌<◌, ◌++◌, ◌∷◌, ℕ, List};
ghost use Rattle.blk_base.specs.Sectors.{zero_block};
ghost use Rattle.disk_model.specs.declared.call.Call.{Call};
ghost use Rattle.disk_model.specs.Log.{Blocks};
ghost use Rattle.image_format.specs.Runs.{as_failed};
ghost use Rattle.image_model.specs.Looked.{HasOneImageButIndex};
ghost use Rattle.image_model.specs.Maps.{value_of};
ghost use Rattle.image_model.specs.Sound.{IsSound};
ghost use Rattle.recovery_laws.specs.Kept.{image_in};
ghost use Rattle.grow_image.specs.Calls.{grow_calls};
ghost use Rattle.grow_image.specs.Kept.{AreStopsRight, AreUnmapped, IsGrown, IsToGrow};

/// Of a closed sound image, on which nothing is pending but in the index, whatever a stop leaves at any moment while it
/// grows, also where a call failed and no other was made behind it, is sound, and is the image as it was or the one with
/// more addresses and slabs; the index isn't written. Afterwards nothing else is pending, and it is the latter. It does
/// nothing.
pub fn an_image_grows_with_its_superblock()
    ensures stops { (base : Blocks) (sound : IsSound base) (logical slabs : ℕ)
        (to : IsToGrow base sound logical slabs) (opening : Blocks)
        (first front calls : List Call) → HasOneImageButIndex opening first base →
        grow_calls sound.head logical slabs ≡ front ++ calls →
        AreStopsRight base sound logical slabs opening first calls }
    ensures failures { (base : Blocks) (sound : IsSound base) (logical slabs : ℕ)
        (to : IsToGrow base sound logical slabs) (opening : Blocks)
        (first front done : List Call) (call : Call) → HasOneImageButIndex opening first base →
        grow_calls sound.head logical slabs ≡ front ++ (call ∷ done) →
        AreStopsRight base sound logical slabs opening first (as_failed call ∷ done) }
    ensures grown { (base : Blocks) (sound : IsSound base) (logical slabs : ℕ)
        (to : IsToGrow base sound logical slabs) (opening : Blocks) (first : List Call) →
        HasOneImageButIndex opening first base →
        (now : Blocks)
        × HasOneImageButIndex opening (grow_calls sound.head logical slabs ++ first) now
        × IsGrown base sound logical slabs now }

    // Where no new address was mapped, each has zeros.
    ensures fresh { (base now : Blocks) (sound : IsSound base) (logical slabs : ℕ)
        (grown : IsGrown base sound logical slabs now) →
        AreUnmapped (image_in base sound) logical →
        (address : ℕ) → sound.head.geometry.logical ≤ address → address < logical
        → value_of (image_in now grown.grown) address ≡ zero_block }
{}
