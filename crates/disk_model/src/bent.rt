ghost use Rattle.std.specs.Prelude.{◌≡◌, ◌≤◌, length};

use crate::{Disk, Failed, MemDisk};
use blk_base::{Block, Pbn};

/// A byte of a block that reads give otherwise, once so many writes of the device succeeded. A byte past 4,095 is none.
#[derive(Clone, Copy, Debug, PartialEq, Eq)]
pub struct BendAt {
    pub at: Pbn,
    pub after: u64,
    pub byte: u16,
    pub value: u8,
}

/// A device in memory of which some reads give another byte than is there. So it tells nothing; its calls fail exactly where
/// those of the device below it do.
#[derive(Drop)]
pub struct BentDisk {
    disk: MemDisk,
    bends: Vec<BendAt>,
    writes: u64,
}

impl BentDisk {
    /// Over this device, with these bends. Writes are counted from now on.
    pub fn over(disk: MemDisk, bends: Vec<BendAt>) -> BentDisk
        ensures disk { result.disk ≡ disk }
        ensures bends { result.bends ≡ bends }
        ensures none { result.writes ≡ 0 }
    {
        BentDisk {
            disk,
            bends,
            writes: 0,
        }
    }

    /// The device below it.
    pub fn inner(&self) -> &MemDisk
        ensures { result.now ≡ self.now.disk }
    {
        &self.disk
    }
}

// Puts the byte of a bend.
fn bend(bend: BendAt, into: &mut Block)
    requires { length into.old ≡ 4096 }
    ensures { length into.new ≡ 4096 }
{
    let byte = usize::from(bend.byte);
    if byte < 4096 {
        into.bytes[byte] = bend.value;
    }
}

// Puts the bytes of those bends that are of this block and are due after so many writes.
fn bend_all(bends: &[BendAt], writes: u64, at: Pbn, into: &mut Block)
    requires { length into.old ≡ 4096 }
    ensures { length into.new ≡ 4096 }
{
    for one in bends {
        if one.at == at && one.after <= writes {
            bend(*one, into);
        }
    }
}

impl Disk for BentDisk {
    ghost use Rattle.std.specs.Prelude.{[], false, length};
    ghost use Rattle.disk_model.specs.Trust.{trust_of};

    ghost trust = { trust_of false false };

    ghost seen = { λ d. record { opening = []; size = length d.disk.opening; log = []; faults = d.disk.faults; unkept = d.disk.unkept } };

    ghost told = { λ device tells. absurd (cc tells) };

    fn blocks(&self) -> u32 {
        self.disk.blocks()
    }

    fn read(&mut self, at: Pbn, into: &mut Block) -> Result<(), Failed> {
        match self.disk.read(at, into) {
            Ok(()) => {
                bend_all(&self.bends, self.writes, at, into);
                Ok(())
            }
            Err(failed) => Err(failed),
        }
    }

    fn write(&mut self, at: Pbn, from: &Block) -> Result<(), Failed> {
        match self.disk.write(at, from) {
            Ok(()) => {
                self.writes = self.writes.saturating_add(1);
                Ok(())
            }
            Err(failed) => Err(failed),
        }
    }

    fn flush(&mut self) -> Result<(), Failed> {
        self.disk.flush()
    }
}
