ghost use Rattle.std.specs.Prelude.{◌≡◌};
ghost use Rattle.disk_model.specs.Seen.{Stays};
ghost use Rattle.core_model.specs.Trace.{Trace};
ghost use Rattle.device_zone.specs.DeviceCalls.{Fits};
ghost use Rattle.vdo_core.specs.Plays.{vdo};
ghost use Rattle.schedule.specs.Turns.{PlaysUntilDone};

use disk_model::Disk;
use vdo_core::{Core, Event};

/// Plays events one after another, and ends before the first at which the core is done, else with the last. It takes no
/// handle: that it returns is proved. It asks for no memory.
pub fn play<D: Disk>(core: &mut Core, events: &[Event], device: &mut D)
    requires { Fits core.old.sizes (D.seen device.old) }
    ensures stays { Stays (D.seen device.old) (D.seen device.new) }
    ensures sizes { core.new.sizes ≡ core.old.sizes }
    ensures plays { (made : Trace)
        × PlaysUntilDone D.trust core.old.sizes events.now
        (vdo core.old.zones (D.seen device.old)) (vdo core.new.zones (D.seen device.new)) made }
{
    for event in events {
        if core.done() {
            return;
        }
        core.step(*event, device);
    }
}
