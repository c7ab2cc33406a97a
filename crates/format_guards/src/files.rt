//! Guards of a file as a device.
ghost use Rattle.std.specs.Prelude.{◌≡◌, ◌∷◌, IsTrue, List, OnOk, Some, true};
ghost use Rattle.file_disk.specs.declared.open_calls.Attempt.{Attempt};
ghost use Rattle.file_disk.specs.declared.open_files.Access.TheVariants.{Change};
ghost use Rattle.file_disk.specs.OpenLog.{Copied, Locked, OpenCall};

use disk_model::Disk;
use file_disk::{Access, ByteFile, FileDisk, OpenCalls, open_file};
use std::io;

// A call that failed is counted, but where the count stands at its last value.
fn a_failed_call_is_counted<F: ByteFile + Drop>(disk: &mut FileDisk<F>) -> bool
    ensures { result ≡ true }
{
    let before = disk.faults();
    match disk.flush() {
        Ok(()) => true,
        Err(_) => before < disk.faults() || before == u64::MAX,
    }
}

// A file that is to be changed is locked by the last call, and its lock wasn't refused.
fn a_file_is_locked_to_be_changed<C: OpenCalls>(calls: &mut C) -> io::Result<C::File>
    ensures { IsTrue C.tells → OnOk result ((locked : Attempt) × (older : List OpenCall)
        × (C.log calls.new ≡ Locked Change (Some locked) ∷ Copied true ∷ older)) }
{
    open_file(calls, Access::Change)
}
