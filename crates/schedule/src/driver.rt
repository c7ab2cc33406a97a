ghost use Rattle.std.specs.Prelude.{◌≡◌, List};
ghost use Rattle.disk_model.specs.Seen.{Stays};
ghost use Rattle.core_model.specs.Trace.{Trace};
ghost use Rattle.device_zone.specs.DeviceCalls.{Fits};
ghost use Rattle.vdo_core.specs.Done.{IsDone};
ghost use Rattle.vdo_core.specs.declared.events.Event.{Event};
ghost use Rattle.schedule.specs.Turns.{Drives, driving};

use crate::events::EventList;
use crate::turns::Schedule;
use disk_model::Disk;
use std::sync::Wait;
use vdo_core::Core;

/// Makes the turns of a schedule, and returns only where the core is done. It takes the handle since it isn't proved that a
/// run ends. It asks for no memory.
pub fn drive<R: Wait, D: Disk>(rt: &R, core: &mut Core, schedule: &mut Schedule, device: &mut D)
    requires { Fits core.old.sizes (D.seen device.old) }
    ensures stays { Stays (D.seen device.old) (D.seen device.new) }
    ensures sizes { core.new.sizes ≡ core.old.sizes }
    ensures drives { (events : List Event) × (made : Trace)
        × Drives D.trust core.old.sizes events
        (driving schedule.old core.old.zones (D.seen device.old))
        (driving schedule.new core.new.zones (D.seen device.new)) made }
    ensures done { IsDone core.new.zones }
{
    let mut ready = EventList::new();
    for _ in rt.forever() {
        if core.done() {
            return;
        }
        schedule.turn(core, &mut ready, device);
    }
}
