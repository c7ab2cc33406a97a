ghost use Rattle.std.specs.Prelude.{◌≡◌, ◌<◌, ◌+◌, ◌*◌, ℕ, List, map};
ghost use Rattle.blk_base.specs.Sectors.{sector};
ghost use Rattle.disk_model.specs.declared.call.Call.{Call};
ghost use Rattle.disk_model.specs.Images.{IsImage, IsMixOf};
ghost use Rattle.disk_model.specs.Log.{contents, settled};
ghost use Rattle.file_disk.specs.FileBlocks.{AreWhole, file_calls};
ghost use Rattle.file_disk.specs.FileBytes.{blocks_of, file_block};
ghost use Rattle.file_disk.specs.FileLog.{HoldsCalls, IsFileImage, sector_contents, sector_settled};

/// What the calls that a device makes on its file leave in it is what the device's log says, sector by sector. It does
/// nothing.
pub fn files_as_devices()
    ensures settled { (opening : List ℕ) (log : List Call) (blocks b i : ℕ)
        → AreWhole log → b < blocks → i < 8
        → sector_settled opening (file_calls log) (8 * b + i)
        ≡ map (sector i) (settled (blocks_of blocks opening) log b) }
    ensures contents { (opening : List ℕ) (log : List Call) (blocks b i : ℕ)
        → AreWhole log → b < blocks → i < 8
        → sector_contents opening (file_calls log) (8 * b + i)
        ≡ map (sector i) (contents (blocks_of blocks opening) log b) }

    // A stop of the file leaves an image of the device, and a read of it gives what a device may give.
    ensures images { (opening : List ℕ) (log : List Call) (blocks : ℕ) (image : List ℕ)
        → AreWhole log → IsFileImage opening (file_calls log) image
        → IsImage (blocks_of blocks opening) log (blocks_of blocks image) }
    ensures reads { (opening : List ℕ) (log : List Call) (blocks b : ℕ) (bytes : List ℕ)
        → AreWhole log → b < blocks → HoldsCalls opening (file_calls log) bytes
        → IsMixOf (settled (blocks_of blocks opening) log b) (file_block b bytes) }
{}
