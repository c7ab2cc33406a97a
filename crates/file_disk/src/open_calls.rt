ghost use Rattle.std.specs.Prelude.{◌≡◌, ◌∷◌, Bool, IsTrue, List, is_ok};
ghost use Rattle.std.specs.Result.{result_ok};
ghost use Rattle.file_disk.specs.OpenLog.{AskedKind, Copied, Locked, OpenCall, Opened, SyncedFolder, found_in};

use crate::open_files::Access;
use std::io;

/// What is at a path.
#[derive(Debug, Clone, Copy, PartialEq, Eq)]
pub enum FileKind {
    /// Nothing.
    Missing,
    /// A pipe.
    Pipe,
    /// Anything else.
    Other,
}

/// How a file is opened.
#[derive(Debug, Clone, Copy, PartialEq, Eq)]
pub enum OpenMode {
    /// To be read.
    Read,
    /// To be read and written.
    Change,
    /// To be read and written, and made where there is none.
    Make,
}

/// What came of a call that a file system may not have.
#[derive(Debug, Clone, Copy, PartialEq, Eq)]
pub enum Attempt {
    /// It is done.
    Done,
    /// It can't be done here.
    LeftOut,
}

/// The system's calls that open the file at one path. Calls that tell say which of them were made, and what came of each.
/// Each fails as the system does.
pub trait OpenCalls {
    /// An open file, which is closed when it is dropped.
    type File: Drop;

    /// Whether calls of this type tell their log.
    ghost tells: { Bool };

    /// The log, the newest call first.
    ghost log: { Self → List OpenCall };

    /// Asks what is at the path, behind all links.
    fn kind(&mut self) -> io::Result<FileKind>
        ensures { IsTrue tells → log self.new ≡ AskedKind (result_ok result) ∷ log self.old };

    /// Opens the file at the path; none where there is none.
    fn open(&mut self, mode: OpenMode) -> io::Result<Option<Self::File>>
        ensures { IsTrue tells → log self.new ≡ Opened mode (found_in result) ∷ log self.old };

    /// Syncs the folder in which the file at the path lies, behind all links, so that a power cut doesn't take its name
    /// away. A folder that may not be read, and one whose file system knows no sync of folders, is left out.
    fn sync_folder(&mut self) -> io::Result<Attempt>
        ensures { IsTrue tells →
            log self.new ≡ SyncedFolder (result_ok result) ∷ log self.old };

    /// The same open file by a descriptor of its own, which is at least 3.
    fn copy(&mut self, file: &Self::File) -> io::Result<Self::File>
        ensures { IsTrue tells → log self.new ≡ Copied (is_ok result) ∷ log self.old };

    /// Locks a file until it is closed: alone to change it, and together with others to look at it. It fails with
    /// `WouldBlock` where another program holds the file, and is left out where its file system knows no locks.
    fn lock(&mut self, file: &Self::File, access: Access) -> io::Result<Attempt>
        ensures { IsTrue tells →
            log self.new ≡ Locked access (result_ok result) ∷ log self.old };
}
