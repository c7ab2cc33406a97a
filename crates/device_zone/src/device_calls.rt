ghost use Rattle.std.specs.Prelude.{◌<◌, [], ◌∷◌, true, false, OnOk, OnErr};
ghost use Rattle.disk_model.specs.declared.call.Call.TheVariants as call;
ghost use Rattle.disk_model.specs.Seen.{Stays};
ghost use Rattle.core_model.specs.Trace.{Calls};
ghost use Rattle.step_parts.specs.DeviceLog.{HasCalled};
ghost use Rattle.device_zone.specs.DeviceCalls.{HasFailed};

use blk_base::{Block, Pbn};
use disk_model::{Disk, Failed};

/// Reads a block.
pub(crate) fn read_block<D: Disk>(disk: &mut D, at: Pbn, into: &mut Block) -> Result<(), Failed>
    requires { at.0 < (D.seen disk.old).size }
    ensures stays { Stays (D.seen disk.old) (D.seen disk.new) }
    ensures ok { OnOk result
        (HasCalled D.trust (D.seen disk.old) (D.seen disk.new)
        (Calls (call.Read at into.new true) ∷ [])) }
    ensures err { OnErr result
        (HasFailed D.trust (D.seen disk.old) (D.seen disk.new)
        (call.Read at into.new false)) }
{
    disk.read(at, into)
}

/// Writes a block.
pub(crate) fn write_block<D: Disk>(disk: &mut D, at: Pbn, from: &Block) -> Result<(), Failed>
    requires { at.0 < (D.seen disk.old).size }
    ensures stays { Stays (D.seen disk.old) (D.seen disk.new) }
    ensures ok { OnOk result
        (HasCalled D.trust (D.seen disk.old) (D.seen disk.new)
        (Calls (call.Write at from.now true) ∷ [])) }
    ensures err { OnErr result
        (HasFailed D.trust (D.seen disk.old) (D.seen disk.new)
        (call.Write at from.now false)) }
{
    disk.write(at, from)
}

/// Makes the writes so far last.
pub(crate) fn flush<D: Disk>(disk: &mut D) -> Result<(), Failed>
    ensures stays { Stays (D.seen disk.old) (D.seen disk.new) }
    ensures ok { OnOk result
        (HasCalled D.trust (D.seen disk.old) (D.seen disk.new)
        (Calls (call.Flush true) ∷ [])) }
    ensures err { OnErr result
        (HasFailed D.trust (D.seen disk.old) (D.seen disk.new) (call.Flush false)) }
{
    disk.flush()
}
