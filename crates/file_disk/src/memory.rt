ghost use Rattle.std.specs.Prelude.{◌≡◌, ◌≤◌, ◌+◌, ◌++◌, [], drop, length, take};

use crate::byte_file::ByteFile;
use crate::file_history::FileHistory;
use blk_base::Block;
use std::io;
use std::io::ErrorKind;
use std::marker::Model;
use std::snapshot::Snapshot;

/// A file in memory of fixed length, which tells and is honest. A read gives at most so many bytes. A write past its end
/// fails and changes nothing, and no other call fails.
#[derive(Drop)]
pub struct MemFile {
    bytes: Vec<u8>,
    most: usize,
    opening: Snapshot<Vec<u8>>,
    history: FileHistory,
}

impl Model for MemFile {
    ghost use Rattle.file_disk.specs.FileLog.{HoldsCalls};
    ghost use Rattle.file_disk.specs.FileSeen.{FileSeen};

    ghost Value = { FileSeen };

    ghost view = { λ file. record {
      opening = file.opening.value.items;
      log = file.history;
      bytes = file.bytes.items;
    } };

    ghost invariant = { λ file.
        HoldsCalls file.opening.value.items file.history file.bytes.items };
}

// Copies bytes over those from a place on.
fn put_over(into: &mut Vec<u8>, start: usize, from: &[u8])
    requires { start + length from.now ≤ length into.old.items }
    ensures { into.new.items ≡ take start into.old.items
        ++ (from.now ++ drop (start + length from.now) into.old.items) }
{
    into[start..start + from.len()].copy_from_slice(from);
}

// Copies so many bytes from a place on to the front.
fn copy_front(into: &mut [u8], from: &[u8], start: usize, count: usize)
    requires room { count ≤ length into.old }
    requires inside { start + count ≤ length from.now }
    ensures { into.new ≡ take count (drop start from.now) ++ drop count into.old }
{
    into[..count].copy_from_slice(&from[start..start + count]);
}

impl MemFile {
    /// A file of these bytes, of which a read gives at most `most`, and one where that is 0.
    pub fn new(bytes: Vec<u8>, most: usize) -> MemFile
        ensures { result ≡ record { opening = bytes.items; log = []; bytes = bytes.items } }
    {
        MemFile {
            opening: Snapshot::of(&bytes),
            bytes,
            most,
            history: FileHistory::new(),
        }
    }
}

impl ByteFile for MemFile {
    ghost use Rattle.std.specs.Prelude.{true};
    ghost use Rattle.disk_model.specs.Trust.{trust_of};

    ghost trust = { trust_of true true };

    ghost seen = { λ file. file };

    fn read_at(&mut self, into: &mut [u8], offset: u64) -> io::Result<usize> {
        let length = self.bytes.len();
        if offset >= length as u64 {
            return Ok(0);
        }
        let start = offset as usize;
        let most = self.most.max(1);
        let count = into.len().min(most).min(length - start);
        copy_front(into, &self.bytes, start, count);
        Ok(count)
    }

    fn write_all_at(&mut self, bytes: &Block, offset: u64) -> io::Result<()> {
        let length = self.bytes.len();
        if length < 4096 || offset > (length - 4096) as u64 {
            self.history.add_write(offset, bytes, false);
            return Err(io::Error::from(ErrorKind::StorageFull));
        }
        let start = offset as usize;
        put_over(&mut self.bytes, start, &bytes.bytes);
        self.history.add_write(offset, bytes, true);
        Ok(())
    }

    fn sync_all(&mut self) -> io::Result<()> {
        self.history.add_sync(true);
        Ok(())
    }
}
