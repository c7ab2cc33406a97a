ghost use Rattle.std.specs.Prelude.{◌≡◌, [], IsTrue, List, ℕ};
ghost use Rattle.disk_model.specs.Images.{IsImage};
ghost use Rattle.file_disk.specs.FileBytes.{blocks_of};
ghost use Rattle.file_disk.specs.FileLog.{IsFileImage};
ghost use Rattle.file_disk.specs.FileSeen.{IsJustOpened};

use crate::byte_file::ByteFile;
use crate::history::History;
use crate::places::{read_block, write_block};
use blk_base::{Block, Pbn};
use disk_model::{Disk, Failed};
use std::marker::Model;

/// A file as a device of blocks of 4,096 bytes. Block n is the bytes from 4,096 n on; what lies behind the end of the file
/// reads as zeros. The file grows as blocks are written, and never past the last block.
///
/// A write is in the file once the call returns, and lasts once a flush returns: that is the system's own sync of the file
/// to its device. It tells what its file tells, by a log that clauses alone see. Each call that fails raises a count.
#[derive(Drop)]
pub struct FileDisk<F: ByteFile> {
    file: F,
    blocks: u32,
    faults: u64,
    history: History,
}

impl<F: ByteFile> Model for FileDisk<F> {
    ghost use Rattle.file_disk.specs.FileBlocks.{FileBlocks, IsTied};

    ghost Value = { FileBlocks F };

    ghost view = { λ d. record {
      file = d.file;
      blocks = d.blocks;
      log = d.history;
      faults = d.faults;
    } };

    ghost invariant = { λ d. IsTied F.trust (F.seen d.file) d.history };
}

impl<F: ByteFile + Drop> FileDisk<F> {
    /// An open file as a device of so many blocks. No call failed yet, and its log begins now.
    pub fn new(file: F, blocks: u32) -> FileDisk<F>
        requires { IsTrue F.trust.tells → IsJustOpened (F.seen file) }
        ensures { result ≡ record { file = file; blocks = blocks; log = []; faults = 0 } }
    {
        FileDisk {
            file,
            blocks,
            faults: 0,
            history: History::new(),
        }
    }

    /// How many calls failed; it stays at its last value.
    pub fn faults(&self) -> u64
        ensures { result ≡ self.now.faults }
    {
        self.faults
    }

    /// The file.
    pub fn into_file(self) -> F
        ensures { result ≡ self.file }
    {
        self.file
    }

    /// What a stop may leave of its file is an image of the device. It does nothing.
    pub fn stops(&self)
        ensures { IsTrue F.trust.tells → (image : List ℕ)
            → IsFileImage (F.seen self.now.file).opening (F.seen self.now.file).log image
            → IsImage (blocks_of self.now.blocks (F.seen self.now.file).opening) self.now.log
            (blocks_of self.now.blocks image) }
    {
        let _ = &self.file;
    }
}

impl<F: ByteFile + Drop> Disk for FileDisk<F> {
    ghost use Rattle.file_disk.specs.FileBlocks.{disk_seen};
    ghost use Rattle.file_disk.specs.BlockLaws.{length-blocks};

    ghost trust = { F.trust };

    ghost seen = { disk_seen F.seen };

    ghost told = { λ device tells. length-blocks device.blocks (F.seen device.file).opening };

    fn blocks(&self) -> u32 {
        self.blocks
    }

    fn read(&mut self, at: Pbn, into: &mut Block) -> Result<(), Failed> {
        match read_block(&mut self.file, at, into) {
            Ok(()) => {
                self.history.add_read(at, into, true);
                Ok(())
            }
            Err(_) => {
                self.history.add_read(at, into, false);
                self.faults = self.faults.saturating_add(1);
                Err(Failed)
            }
        }
    }

    fn write(&mut self, at: Pbn, from: &Block) -> Result<(), Failed> {
        match write_block(&mut self.file, at, from) {
            Ok(()) => {
                self.history.add_write(at, from, true);
                Ok(())
            }
            Err(_) => {
                self.history.add_write(at, from, false);
                self.faults = self.faults.saturating_add(1);
                Err(Failed)
            }
        }
    }

    // The data and the length of the file: one that grew must keep its last blocks.
    fn flush(&mut self) -> Result<(), Failed> {
        match self.file.sync_all() {
            Ok(()) => {
                self.history.add_flush(true);
                Ok(())
            }
            Err(_) => {
                self.history.add_flush(false);
                self.faults = self.faults.saturating_add(1);
                Err(Failed)
            }
        }
    }
}
