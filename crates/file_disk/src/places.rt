ghost use Rattle.std.specs.Prelude.{◌≡◌, ◌∷◌, ◌+◌, ◌*◌, ◌<◌, ◌≤◌, ◌^◌, IfOk, IsTrue, OnErr, OnOk, is_ok, length};
ghost use Rattle.blk_base.specs.declared.place.Pbn.{Pbn};
ghost use Rattle.file_disk.specs.FileBytes.{file_block};
ghost use Rattle.file_disk.specs.FileLog.{HoldsCalls, WriteAt};
ghost use Rattle.file_disk.specs.FileReads.{IsReadTo};
ghost use Rattle.file_disk.specs.FileSeen.{FileSeen};

use crate::byte_file::ByteFile;
use blk_base::{Block, Pbn};
use std::io;
use std::io::ErrorKind;

const BLOCK_BYTES: u64 = 4096;

// Reads on, where the first `filled` bytes from an offset on are read. At the end of the file the rest is zeros.
fn read_on<F: ByteFile>(
    file: &mut F,
    offset: u64,
    filled: usize,
    into: &mut [u8],
) -> io::Result<usize>
    requires more { filled < length into.old }
    requires inside { offset + length into.old < 2 ^ 63 }
    ensures count { IfOk result (λ n. filled + n ≤ length into.new) }
    ensures ok { IfOk result (λ n. (before : FileSeen)
        → IsReadTo F.trust before (F.seen file.old) offset into.old filled
        → IsReadTo F.trust before (F.seen file.new) offset into.new (filled + n)) }
    ensures err { OnErr result ((before : FileSeen)
        → IsReadTo F.trust before (F.seen file.old) offset into.old filled
        → IsReadTo F.trust before (F.seen file.new) offset into.new filled) }
{
    let rest = &mut into[filled..];
    let count = file.read_at(rest, offset + filled as u64)?;
    if count > 0 {
        return Ok(count);
    }
    rest.fill(0);
    Ok(rest.len())
}

// Bytes of a file from an offset on. Where the file has ended they are zeros.
fn read_bytes<F: ByteFile>(file: &mut F, offset: u64, into: &mut [u8]) -> io::Result<()>
    requires { offset + length into.old < 2 ^ 63 }
    ensures ok { OnOk result
        (IsReadTo F.trust (F.seen file.old) (F.seen file.new) offset into.new (length into.new)) }
    ensures err { OnErr result
        (IsReadTo F.trust (F.seen file.old) (F.seen file.new) offset into.new 0) }
{
    let mut filled = 0;
    for _ in 0..u64::MAX {
        if filled >= into.len() {
            return Ok(());
        }
        match read_on(file, offset, filled, into) {
            Ok(count) => filled += count,
            Err(error) if error.kind() == ErrorKind::Interrupted => {}
            Err(error) => return Err(error),
        }
    }
    Err(io::Error::from(ErrorKind::Interrupted))
}

/// Reads a block of a file.
pub(crate) fn read_block<F: ByteFile>(file: &mut F, at: Pbn, into: &mut Block) -> io::Result<()>
    ensures whole { length into.new ≡ 4096 }
    ensures opening { (F.seen file.new).opening ≡ (F.seen file.old).opening }
    ensures stays { IsTrue F.trust.tells → F.seen file.new ≡ F.seen file.old }
    ensures honest { IsTrue F.trust.tells → IsTrue F.trust.honest → OnOk result
        (HoldsCalls (F.seen file.old).opening (F.seen file.old).log (F.seen file.old).bytes) }
    ensures given { IsTrue F.trust.tells → IsTrue F.trust.honest → OnOk result
        (into.new ≡ file_block at.0 (F.seen file.old).bytes) }
{
    read_bytes(file, u64::from(at.0) * BLOCK_BYTES, &mut into.bytes)
}

/// Writes a block of a file.
pub(crate) fn write_block<F: ByteFile>(file: &mut F, at: Pbn, from: &Block) -> io::Result<()>
    ensures whole { length from.now ≡ 4096 }
    ensures opening { (F.seen file.new).opening ≡ (F.seen file.old).opening }
    ensures log { IsTrue F.trust.tells → (F.seen file.new).log
        ≡ WriteAt (4096 * at.0) from.now (is_ok result) ∷ (F.seen file.old).log }
{
    let _whole = &from.bytes;
    file.write_all_at(from, u64::from(at.0) * BLOCK_BYTES)
}
