ghost use Rattle.std.specs.Prelude.{◌≡◌, ◌<◌};

use blk_base::{Block, Pbn};
use disk_model::Disk;
use file_disk::{ByteFile, FileDisk};

/// Whether a block reads as wanted.
pub(crate) fn reads<F: ByteFile + Drop>(disk: &mut FileDisk<F>, at: u32, wanted: &Block) -> bool
    requires { at < disk.old.blocks }
    ensures { disk.new.blocks ≡ disk.old.blocks }
{
    let mut into = Block { bytes: [9; 4096] };
    let read = disk.read(Pbn(at), &mut into);
    read.is_ok() && into.bytes == wanted.bytes
}
