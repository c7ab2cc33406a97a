ghost use Rattle.std.specs.Prelude.{◌≡◌, ◌≤◌, ◌∷◌, ℕ, true, List, length, Ok};
ghost use Rattle.disk_model.specs.declared.call.Call.{Call};
ghost use Rattle.disk_model.specs.declared.call.Call.TheVariants.{Write, Flush};
ghost use Rattle.disk_model.specs.Images.{IsImage};
ghost use Rattle.disk_model.specs.Log.{Blocks, Misses};
ghost use Rattle.image_layout.specs.Opened.{super_of_image};
ghost use Rattle.image_layout.specs.Superblock.{super_block, super_of};
ghost use Rattle.recovery_laws.specs.Kept.{PutsOnly};
ghost use Rattle.session_stops.specs.Beginnings.{HeadStands, IsAsOpened, IsBeginning, IsHeadOf, IsToServe, head_in};
ghost use Rattle.image_model.specs.Looked.{HasOneImageButIndex};

/// While nothing was written but the superblock, as it was or as the session has it, each image is sound and says the same
/// as the one that was opened. Once the session's superblock was written and a flush returned, it
/// stands. It does nothing.
pub fn a_session_begins_on_a_sound_image()
    ensures begins { (base : Blocks) (to : IsToServe base) (opening : Blocks) (log : List Call) →
        HasOneImageButIndex opening log base → IsBeginning opening log base to }
    ensures goes_on { (base : Blocks) (to : IsToServe base) (opening : Blocks) (log : List Call)
        (call : Call) → PutsOnly 0 (IsHeadOf base to) call
        → ((b : ℕ) → 1 ≤ b → Misses call b) → IsBeginning opening log base to →
        IsBeginning opening (call ∷ log) base to }
    ensures image { (base : Blocks) (to : IsToServe base) (opening : Blocks) (log : List Call) →
        IsBeginning opening log base to → (image : Blocks) → IsImage opening log image
        → IsAsOpened base to image }

    // The superblock of the session.
    ensures read { (base : Blocks) (to : IsToServe base) →
        super_of (super_block (head_in base to)) (length base) ≡ Ok (head_in base to) }
    ensures stands { (base : Blocks) (to : IsToServe base) (opening : Blocks) (log : List Call) →
        HeadStands opening
        (Flush true ∷ Write (record { 0 = 0 }) (super_block (head_in base to)) true ∷ log) base to }
    ensures head { (base : Blocks) (to : IsToServe base) (opening : Blocks) (log : List Call)
        (image : Blocks) → length opening ≡ length base → HeadStands opening log base to
        → IsImage opening log image → super_of_image image ≡ Ok (head_in base to) }
{}
