ghost use Rattle.std.specs.Prelude.{ℕ, ◌≡◌, ◌<◌, ◌≤◌, ◌++◌, List, length, Ok};
ghost use Rattle.blk_base.specs.Regions.{needed_blocks};
ghost use Rattle.blk_base.specs.declared.geometry.Geometry.{Geometry};
ghost use Rattle.blk_base.specs.declared.geometry.Super.{Super};
ghost use Rattle.core_model.specs.Steps.{Core, Leads};
ghost use Rattle.core_model.specs.Trace.{calls};
ghost use Rattle.data_vio.specs.declared.sizes.Sizes.{Sizes};
ghost use Rattle.disk_model.specs.Images.{IsImage};
ghost use Rattle.disk_model.specs.Log.{Blocks, block_at};
ghost use Rattle.disk_model.specs.Since.{OnlyReads};
ghost use Rattle.disk_model.specs.declared.call.Call.{Call};
ghost use Rattle.image_layout.specs.Opened.{super_of_image};
ghost use Rattle.image_model.specs.Looked.{HasOneImageButIndex};
ghost use Rattle.recovery_laws.specs.Kept.{AreInside};

/// Whatever events lead a core on, and whatever its device gives and answers, none of its calls writes a block behind the image;
/// and so whatever a stop leaves, each block there has the bytes that it had. It does nothing.
pub fn nothing_behind_the_image_is_written()
    ensures session { (sizes : Sizes) (old new : Core) → 1 ≤ sizes.geometry.journal →
        Leads sizes old new → AreInside sizes.geometry (calls old.trace)
        → AreInside sizes.geometry (calls new.trace) }
    ensures reads { (g : Geometry) (reads : List Call) → OnlyReads reads → AreInside g reads }
    ensures both { (g : Geometry) (newer older : List Call) → AreInside g newer →
        AreInside g older → AreInside g (newer ++ older) }
    ensures unchanged { (opening blocks : Blocks) (first calls : List Call) (head : Super) →
        super_of_image blocks ≡ Ok head → HasOneImageButIndex opening first blocks
        → AreInside head.geometry calls → (b : ℕ) → needed_blocks head.geometry ≤ b →
        b < length blocks → (now : Blocks) → IsImage opening (calls ++ first) now
        → block_at now b ≡ block_at blocks b }
{}
