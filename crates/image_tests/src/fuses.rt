ghost use Rattle.std.specs.Prelude.{◌≡◌, length};

use blk_base::{Block, Pbn};
use disk_model::{Disk, MemDisk};
use std::test::Fail;

// Which of six calls succeed.
fn call_six(device: &mut MemDisk) -> [bool; 6]
    requires { length device.old.opening ≡ 2 }
{
    let mut into = Block::zero();
    [
        device.write(Pbn(0), &Block::zero()).is_ok(),
        device.flush().is_ok(),
        device.write(Pbn(1), &Block::zero()).is_ok(),
        device.read(Pbn(0), &mut into).is_ok(),
        device.write(Pbn(0), &Block::zero()).is_ok(),
        device.flush().is_ok(),
    ]
}

// Fuses, and which calls go on. Each call stands in the log.
static ROWS: [(u64, [bool; 6]); 5] = [
    (0, [false, false, false, false, false, false]),
    (1, [true, false, false, false, false, false]),
    (3, [true, true, true, false, false, false]),
    (5, [true, true, true, true, true, false]),
    (6, [true, true, true, true, true, true]),
];

#[test]
fn a_fuse_cuts(rt: HostRuntime) -> Result<(), Fail> {
    for (passes, wanted) in ROWS {
        let mut device = MemDisk::zeroed(rt.alloc(), 2)?;
        device.set_fuse(passes);
        let ok = call_six(&mut device);
        assert_eq!(rt; (passes, ok, device.calls().len()), (passes, wanted, 6));
    }
    Ok(())
}
