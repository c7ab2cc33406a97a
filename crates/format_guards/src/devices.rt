//! Guards of the devices.
ghost use Rattle.std.specs.Prelude.{◌≡◌, ◌<◌, ◌⊎◌, ◌∷◌, ◌^◌, false, true, OnErr};
ghost use Rattle.disk_model.specs.declared.call.Call.TheVariants.{Flush};

use disk_model::{Disk, Failed, MemDisk};

// A flush that failed stands in the log as one that failed, or not at all.
fn a_failed_flush_is_logged_as_failed(device: &mut MemDisk) -> Result<(), Failed>
    ensures { OnErr result ((device.new.log ≡ Flush false ∷ device.old.log)
        ⊎ (device.new.log ≡ device.old.log)) }
{
    device.flush()
}
