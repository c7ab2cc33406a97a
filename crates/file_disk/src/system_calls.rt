use crate::open_calls::{Attempt, FileKind, OpenCalls, OpenMode};
use crate::open_files::Access;
use std::fs::{File, OpenOptions, TryLockError};
use std::os::unix::fs::FileTypeExt;
use std::rt::Files;
use std::{fs, io};

// The system's number for a file system that has no room for a lock, or knows none, as a remote one without its service.
const NO_LOCKS: i32 = 37;

/// The system's own calls on the file at a path. They tell nothing.
#[derive(Drop)]
pub(crate) struct SystemCalls<'a, R> {
    pub(crate) rt: &'a R,
    pub(crate) path: &'a str,
}

impl<'a, R: Files<File = File> + Alloc> OpenCalls for SystemCalls<'a, R> {
    ghost use Rattle.std.specs.Prelude.{[], false};

    type File = File;

    ghost tells = { false };

    ghost log = { λ calls. [] };

    fn kind(&mut self) -> io::Result<FileKind> {
        match fs::metadata(self.rt, self.path) {
            Ok(found) if found.file_type().is_fifo() => Ok(FileKind::Pipe),
            Ok(_) => Ok(FileKind::Other),
            Err(error) if error.kind() == io::ErrorKind::NotFound => Ok(FileKind::Missing),
            Err(error) => Err(error),
        }
    }

    fn open(&mut self, mode: OpenMode) -> io::Result<Option<File>> {
        match options(mode).open(self.rt, self.path) {
            Ok(file) => Ok(Some(file)),
            Err(error) if error.kind() == io::ErrorKind::NotFound => Ok(None),
            Err(error) => Err(error),
        }
    }

    fn sync_folder(&mut self) -> io::Result<Attempt> {
        let place = fs::canonicalize(self.rt, self.path)?;
        let Some(folder) = place.parent() else {
            return Ok(Attempt::LeftOut);
        };
        let synced = match options(OpenMode::Read).open(self.rt, folder) {
            Ok(opened) => opened.sync_all(),
            Err(error) => Err(error),
        };
        match synced {
            Ok(()) => Ok(Attempt::Done),
            Err(error) if knows_no_sync(&error) => Ok(Attempt::LeftOut),
            Err(error) => Err(error),
        }
    }

    // The system gives a copy a number of at least 3.
    fn copy(&mut self, file: &File) -> io::Result<File> {
        file.try_clone()
    }

    // The lock is the system's advisory one, so it holds between programs that ask for it. None waits.
    fn lock(&mut self, file: &File, access: Access) -> io::Result<Attempt> {
        let locked = match access {
            Access::Look => file.try_lock_shared(),
            Access::Change => file.try_lock(),
        };
        match locked {
            Ok(()) => Ok(Attempt::Done),
            Err(TryLockError::Error(error)) if knows_no_locks(&error) => Ok(Attempt::LeftOut),
            Err(error) => Err(io::Error::from(error)),
        }
    }
}

fn options(mode: OpenMode) -> OpenOptions {
    let mut options = OpenOptions::new();
    options
        .read(true)
        .write(mode != OpenMode::Read)
        .create(mode == OpenMode::Make);
    options
}

// Whether a folder can't be synced for want of the right to read it, or of a system that does.
fn knows_no_sync(error: &io::Error) -> bool {
    matches!(
        error.kind(),
        io::ErrorKind::PermissionDenied | io::ErrorKind::Unsupported | io::ErrorKind::InvalidInput
    )
}

// A file system without locks could never be used otherwise.
fn knows_no_locks(error: &io::Error) -> bool {
    error.kind() == io::ErrorKind::Unsupported || error.raw_os_error() == Some(NO_LOCKS)
}
