use crate::byte_file::ByteFile;
use blk_base::Block;
use std::fs::File;
use std::io;
use std::io::ErrorKind;
use std::os::unix::fs::FileExt;

/// The system's file, which it may allow to have so many bytes and no more. It tells nothing.
#[derive(Drop)]
pub struct SystemFile {
    file: File,
    most: Option<u64>,
}

impl SystemFile {
    /// An open file, and how many bytes the system lets it have, where there is a limit: a write behind that isn't made.
    pub fn new(file: File, most: Option<u64>) -> SystemFile {
        SystemFile { file, most }
    }

    /// The open file.
    pub fn into_file(self) -> File {
        self.file
    }
}

impl ByteFile for SystemFile {
    ghost use Rattle.std.specs.Prelude.{[], false};
    ghost use Rattle.disk_model.specs.Trust.{trust_of};

    ghost trust = { trust_of false false };

    ghost seen = { λ file. record { opening = []; log = []; bytes = [] } };

    fn read_at(&mut self, into: &mut [u8], offset: u64) -> io::Result<usize> {
        self.file.read_at(into, offset)
    }

    // The system would answer by a signal that ends the program.
    fn write_all_at(&mut self, bytes: &Block, offset: u64) -> io::Result<()> {
        let end = offset.saturating_add(bytes.bytes.len() as u64);
        match self.most {
            Some(most) if end > most => Err(io::Error::from(ErrorKind::FileTooLarge)),
            _ => self.file.write_all_at(&bytes.bytes, offset),
        }
    }

    fn sync_all(&mut self) -> io::Result<()> {
        self.file.sync_all()
    }
}
