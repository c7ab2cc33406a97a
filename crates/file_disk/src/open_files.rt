ghost use Rattle.std.specs.Prelude.{◌≡◌, ◌∷◌, IfOk, IsTrue, OnErr, OnOk, Some, true};
ghost use Rattle.file_disk.specs.declared.open_calls.Attempt.{Attempt};
ghost use Rattle.file_disk.specs.declared.open_calls.OpenMode.TheVariants.{Make};
ghost use Rattle.file_disk.specs.declared.open_files.Access.TheVariants.{Change, Look};
ghost use Rattle.file_disk.specs.OpenLog.{IsMade, IsOpened, IsRefused, Opened, SyncedFolder};

use crate::disk::FileDisk;
use crate::limits::largest_file;
use crate::open_calls::{FileKind, OpenCalls, OpenMode};
use crate::system_calls::SystemCalls;
use crate::system_file::SystemFile;
use std::fs::File;
use std::rt::Files;
use std::{fs, io};

/// What is done to the blocks of a device whose file is opened.
#[derive(Debug, Clone, Copy, PartialEq, Eq)]
pub enum Access {
    /// They are looked at alone: a file that is there is opened for reading, and others may look at it meanwhile.
    Look,
    /// They are written: nobody else may hold the file meanwhile.
    Change,
}

/// Opens a file as a device of so many blocks, 0 to 4,294,967,295, as [`open_file`] does, and locks it until the device is
/// dropped. A write that would make it larger than the system allows fails.
///
/// It fails as the system does, and with `WouldBlock` where another program holds the file.
pub fn open_disk<R: Files<File = File> + Alloc>(
    rt: &R,
    path: &str,
    blocks: u32,
    access: Access,
) -> io::Result<FileDisk<SystemFile>>
    ensures blocks { IfOk result (λ disk. disk.blocks ≡ blocks) }
    ensures faults { IfOk result (λ disk. disk.faults ≡ 0) }
{
    let file = open_file(&mut SystemCalls { rt, path }, access)?;
    let most = most_bytes(rt, path, access);
    Ok(FileDisk::new(SystemFile::new(file, most), blocks))
}

// How many bytes the system lets a file have that is to be written, where it sets a limit. It limits files alone.
fn most_bytes<R: Files<File = File> + Alloc>(rt: &R, path: &str, access: Access) -> Option<u64> {
    match (access, fs::metadata(rt, path)) {
        (Access::Change, Ok(found)) if found.file_type().is_file() => largest_file(rt),
        _ => None,
    }
}

/// Opens a file, and locks it: alone to change it, and together with others to look at it. Where there is none, an empty
/// one is made, and its folder is synced, so that a power cut doesn't take it away again. With two writers at once an image
/// would be a mixture of both.
///
/// It fails as a call fails, with `Unsupported` where a pipe is to be looked at, which would wait for a writer, and with
/// `NotFound` where the file went away meanwhile. On a file system that knows no locks, or no sync of folders, it goes on
/// without. What it gives is a copy of the descriptor, which is at least 3: what is meant for a standard stream that was
/// closed never lands in the file.
pub fn open_file<C: OpenCalls>(calls: &mut C, access: Access) -> io::Result<C::File>
    ensures opened { IsTrue C.tells → OnOk result
        (IsOpened access (C.log calls.old) (C.log calls.new)) }
    ensures refused { IsTrue C.tells → OnErr result (IsRefused (C.log calls.new)) }
{
    let opened = open_or_make(calls, access)?;
    let file = calls.copy(&opened)?;
    calls.lock(&file, access)?;
    Ok(file)
}

// Opens the file that is there, or makes one.
fn open_or_make<C: OpenCalls>(calls: &mut C, access: Access) -> io::Result<C::File>
    ensures opened { IsTrue C.tells → OnOk result
        (IsMade access (C.log calls.old) (C.log calls.new)) }
    ensures refused { IsTrue C.tells → OnErr result (IsRefused (C.log calls.new)) }
{
    match access {
        Access::Look => open_to_look(calls),
        Access::Change => open_to_change(calls),
    }
}

// It can't write, so a snapshot, a file of mode 444 and a read-only mount can be looked at.
fn open_to_look<C: OpenCalls>(calls: &mut C) -> io::Result<C::File>
    ensures opened { IsTrue C.tells → OnOk result
        (IsMade Look (C.log calls.old) (C.log calls.new)) }
    ensures refused { IsTrue C.tells → OnErr result (IsRefused (C.log calls.new)) }
{
    match calls.kind()? {
        FileKind::Missing => make(calls),
        FileKind::Pipe => Err(io::Error::from(io::ErrorKind::Unsupported)),
        FileKind::Other => open_there(calls, OpenMode::Read),
    }
}

fn open_to_change<C: OpenCalls>(calls: &mut C) -> io::Result<C::File>
    ensures opened { IsTrue C.tells → OnOk result
        (IsMade Change (C.log calls.old) (C.log calls.new)) }
    ensures refused { IsTrue C.tells → OnErr result (IsRefused (C.log calls.new)) }
{
    match calls.open(OpenMode::Change)? {
        Some(file) => Ok(file),
        None => make(calls),
    }
}

// Makes an empty file that lasts.
fn make<C: OpenCalls>(calls: &mut C) -> io::Result<C::File>
    ensures made { IsTrue C.tells → OnOk result ((synced : Attempt) × (C.log calls.new
        ≡ SyncedFolder (Some synced) ∷ Opened Make (Some true) ∷ C.log calls.old)) }
    ensures refused { IsTrue C.tells → OnErr result (IsRefused (C.log calls.new)) }
{
    let file = open_there(calls, OpenMode::Make)?;
    calls.sync_folder()?;
    Ok(file)
}

// Opens a file that is to be there.
fn open_there<C: OpenCalls>(calls: &mut C, mode: OpenMode) -> io::Result<C::File>
    ensures opened { IsTrue C.tells → OnOk result
        (C.log calls.new ≡ Opened mode (Some true) ∷ C.log calls.old) }
    ensures refused { IsTrue C.tells → OnErr result (IsRefused (C.log calls.new)) }
{
    match calls.open(mode)? {
        Some(file) => Ok(file),
        None => Err(io::Error::from(io::ErrorKind::NotFound)),
    }
}
