ghost use Rattle.std.specs.Prelude.{◌≡◌, ◌≤◌, ◌∷◌, IfOk, IsTrue, is_ok, length};
ghost use Rattle.disk_model.specs.Trust.{Trust};
ghost use Rattle.file_disk.specs.FileLog.{HoldsCalls, Sync, WriteAt};
ghost use Rattle.file_disk.specs.FileSeen.{BeginsSector, FileSeen, Gives};

use blk_base::Block;
use std::io;

/// A file by the system's calls on it. One that tells says which bytes it had when its log began, which writes and syncs
/// were made since, and which bytes it has. One that tells and is honest has, sector by sector, what the last successful
/// write put there, or a failed write since; and a stop leaves of it what its log says (`IsFileImage`).
pub trait ByteFile {
    /// Whether files of this type tell their bytes and their log, and whether those that tell are honest.
    ghost trust: { Trust };

    /// What contracts see of a file: its opening bytes, its log, and its bytes.
    ghost seen: { Self → FileSeen };

    /// Reads bytes from an offset on, and gives how many it read: none only at the end of the file, or where `into` has no
    /// room. It fails as the system does, and with `Interrupted` where it is to be called again; then `into` has any
    /// content.
    fn read_at(&mut self, into: &mut [u8], offset: u64) -> io::Result<usize>
        ensures count { IfOk result (λ n. n ≤ length into.new) }
        ensures opening { (seen self.new).opening ≡ (seen self.old).opening }
        ensures stays { IsTrue trust.tells → seen self.new ≡ seen self.old }
        ensures honest { IsTrue trust.tells → IsTrue trust.honest →
            HoldsCalls (seen self.old).opening (seen self.old).log (seen self.old).bytes }
        ensures given { IsTrue trust.tells → IsTrue trust.honest →
            IfOk result (Gives (seen self.old) offset into.new) };

    /// Writes 4,096 bytes at an offset where a sector begins; the file grows where it ends before. It fails as the system
    /// does; then each of these sectors may be the one before or the one written.
    fn write_all_at(&mut self, bytes: &Block, offset: u64) -> io::Result<()>
        requires { BeginsSector offset }
        ensures opening { (seen self.new).opening ≡ (seen self.old).opening }
        ensures log { IsTrue trust.tells →
            (seen self.new).log ≡ WriteAt offset bytes.now (is_ok result) ∷ (seen self.old).log };

    /// Makes the writes so far last, and the length of the file. It fails as the system does; then no more of them need
    /// last than before.
    fn sync_all(&mut self) -> io::Result<()>
        ensures opening { (seen self.new).opening ≡ (seen self.old).opening }
        ensures log { IsTrue trust.tells →
            (seen self.new).log ≡ Sync (is_ok result) ∷ (seen self.old).log };
}
