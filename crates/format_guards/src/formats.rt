ghost use Rattle.std.specs.Prelude.{◌≡◌, ◌∷◌, ◌<◌, IsTrue, OnOk, true};
ghost use Rattle.blk_base.specs.Forms.{pbn};
ghost use Rattle.disk_model.specs.declared.call.Call.TheVariants.{Flush, Write};
ghost use Rattle.image_layout.specs.Superblock.{super_block};

use blk_base::Geometry;
use disk_model::{Disk, Failed};
use image_format::calls::close;

// The superblock of a closed image is written once the writes before it last, and then it lasts too.
fn the_superblock_stands_between_two_flushes<D: Disk>(
    device: &mut D,
    sizes: &Geometry,
    start: u64,
) -> Result<(), Failed>
    requires { 0 < (D.seen device.old).size }
    ensures { OnOk result (IsTrue D.trust.tells → (D.seen device.new).log
        ≡ Flush true
        ∷ Write (pbn 0)
        (super_block (record { geometry = sizes.now; clean = true; start = start })) true
        ∷ Flush true ∷ (D.seen device.old).log) }
{
    close(device, sizes, start)
}
