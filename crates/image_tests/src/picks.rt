ghost use Rattle.std.specs.Prelude.{◌≡◌, length};

use blk_base::{Block, Pbn};
use disk_model::{CallKind, Disk, FaultAt, MemDisk};
use std::test::Fail;

// A number, and the byte of each sector of each of four blocks in the image that it picks, computed by tools/picks.py.
static PICKED: [(u64, [u8; 32]); 5] = [
    (
        0,
        [
            1, 1, 1, 1, 1, 1, 1, 1, 0, 0, 0, 0, 0, 0, 0, 0, 0, 0, 0, 0, 0, 0, 0, 0, 0, 0, 0, 0, 0,
            0, 0, 0,
        ],
    ),
    (
        1,
        [
            3, 3, 3, 3, 3, 3, 3, 3, 5, 5, 5, 5, 5, 5, 5, 5, 0, 0, 0, 0, 0, 0, 0, 0, 4, 4, 4, 4, 4,
            4, 4, 4,
        ],
    ),
    (
        2,
        [
            2, 1, 1, 3, 3, 3, 1, 1, 5, 0, 5, 0, 0, 0, 0, 0, 0, 0, 0, 0, 0, 0, 0, 0, 0, 4, 0, 4, 0,
            0, 0, 0,
        ],
    ),
    (
        7,
        [
            3, 3, 1, 3, 2, 3, 2, 1, 5, 0, 5, 5, 0, 0, 5, 0, 0, 0, 0, 0, 0, 0, 0, 0, 4, 4, 0, 4, 0,
            4, 0, 0,
        ],
    ),
    (
        18446744073709551615,
        [
            2, 3, 2, 3, 1, 3, 1, 3, 0, 0, 5, 0, 0, 0, 0, 0, 0, 0, 0, 0, 0, 0, 0, 0, 4, 0, 0, 0, 4,
            0, 4, 4,
        ],
    ),
];

// A write that fails, and one more.
static FAULTS: [FaultAt; 2] = [
    FaultAt {
        kind: CallKind::Write,
        at: Pbn(2),
        nth: 0,
        effect: true,
    },
    FaultAt {
        kind: CallKind::Write,
        at: Pbn(0),
        nth: 1,
        effect: false,
    },
];

// Writes a block of this byte, whether or not that fails.
fn write(device: &mut MemDisk, at: u32, byte: u8)
    requires { length device.old.opening ≡ 4 }
    ensures { length device.new.opening ≡ 4 }
{
    if at < 4 {
        let _ = device.write(
            Pbn(at),
            &Block {
                bytes: [byte; 4096],
            },
        );
    }
}

// What was written, flushed, and written since, until the device was cut off.
fn write_all(device: &mut MemDisk)
    requires { length device.old.opening ≡ 4 }
    ensures { length device.new.opening ≡ 4 }
{
    write(device, 0, 1);
    write(device, 2, 9);
    let _ = device.flush();
    write(device, 0, 2);
    write(device, 0, 3);
    write(device, 3, 4);
    write(device, 1, 5);
    write(device, 0, 6);
}

// The byte of each sector of each block; 255 where it can't be read.
fn bytes_of(image: &mut MemDisk) -> [u8; 32] {
    let mut bytes = [255; 32];
    let mut into = Block::zero();
    for (i, byte) in bytes.iter_mut().enumerate() {
        let at = Pbn((i / 8) as u32);
        if at.0 < image.blocks() && image.read(at, &mut into).is_ok() {
            *byte = into.bytes[512 * (i % 8)];
        }
    }
    bytes
}

// A device of four blocks that was cut off at the seventh of these calls.
#[test]
fn numbers_pick_images(rt: HostRuntime) -> Result<(), Fail> {
    let mut device = MemDisk::zeroed(rt.alloc(), 4)?;
    device.set_faults(FAULTS.to_vec(rt.alloc())?);
    device.set_fuse(6);
    write_all(&mut device);
    for (number, wanted) in PICKED {
        let mut image = device.pick_image(rt.alloc(), number)?;
        assert_eq!(rt; (number, bytes_of(&mut image)), (number, wanted));
    }
    Ok(())
}
