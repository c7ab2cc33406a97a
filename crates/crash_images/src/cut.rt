ghost use Rattle.std.specs.Prelude.{◌≡◌};
ghost use Rattle.disk_model.specs.declared.fuse.Fuse.TheVariants as fuse;
ghost use Rattle.disk_model.specs.Log.{Blocks};
ghost use Rattle.disk_model.specs.Memory.{fresh};
ghost use Rattle.crash_images.specs.Cuts.{IsCutDisk};

use blk_base::{Block, Pbn};
use disk_model::{Disk, Failed, MemDisk};
use std::marker::Model;

/// A device in memory of which the first so many calls go on, and every later one fails. It tells and is honest.
#[derive(Drop)]
pub struct CutDisk {
    disk: MemDisk,
    passes: u64,
}

impl Model for CutDisk {
    ghost use Rattle.crash_images.specs.Cuts.{Cut, IsCutDisk};

    ghost Value = { Cut };

    ghost view = { λ d. record { disk = d.disk; passes = d.passes } };

    ghost invariant = { λ d. IsCutDisk d.passes d.disk };
}

impl CutDisk {
    /// A device that was just made, cut off behind so many calls.
    pub fn over(disk: MemDisk, passes: u64) -> CutDisk
        requires { (blocks : Blocks) × (disk ≡ fresh blocks) }
        ensures disk { result.disk ≡ record disk { fuse = fuse.Passes passes } }
        ensures passes { result.passes ≡ passes }
    {
        let mut disk = disk;
        disk.set_fuse(passes);
        CutDisk { disk, passes }
    }

    /// How many calls go on.
    pub fn passes(&self) -> u64
        ensures { result ≡ self.now.passes }
    {
        self.passes
    }

    /// The device as its calls left it.
    pub fn into_disk(self) -> MemDisk
        ensures disk { result ≡ self.disk }
        ensures cut { IsCutDisk self.passes self.disk }
    {
        self.disk
    }
}

impl Disk for CutDisk {
    ghost use Rattle.std.specs.Prelude.{true, refl};
    ghost use Rattle.disk_model.specs.Memory.{seen_of};
    ghost use Rattle.disk_model.specs.Trust.{trust_of};

    ghost trust = { trust_of true true };

    ghost seen = { λ d. seen_of d.disk };

    ghost told = { λ device tells. refl };

    fn blocks(&self) -> u32 {
        self.disk.blocks()
    }

    fn read(&mut self, at: Pbn, into: &mut Block) -> Result<(), Failed> {
        self.disk.read(at, into)
    }

    fn write(&mut self, at: Pbn, from: &Block) -> Result<(), Failed> {
        self.disk.write(at, from)
    }

    fn flush(&mut self) -> Result<(), Failed> {
        self.disk.flush()
    }
}
