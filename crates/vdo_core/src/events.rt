ghost use Rattle.std.specs.Prelude.{◌≡◌, ◌≤◌, Some, length, slice_get};
ghost use Rattle.disk_model.specs.Seen.{Stays};
ghost use Rattle.core_model.specs.Trace.{Trace};
ghost use Rattle.device_zone.specs.DeviceCalls.{Fits};
ghost use Rattle.vdo_core.specs.Conditions.{AllCanStep};
ghost use Rattle.vdo_core.specs.declared.events.Event.TheVariants as event;
ghost use Rattle.vdo_core.specs.Plays.{ComesTo, StepsAt, HasNoWork, PlaysOne, LeadsTo, vdo};
ghost use Rattle.vdo_core.specs.declared.numbers.TheConstants.{MOST_ZONES};

use crate::moves::move_items;
use crate::stepped::Stepped;
use crate::steps::step_with;
use crate::zones::Zones;
use data_vio::Sizes;
use disk_model::Disk;

/// What may happen next.
#[derive(Clone, Copy, Debug, PartialEq, Eq)]
pub enum Event {
    /// The zone of this number steps.
    Step(u32),
    /// What the first zone posted to the second one moves there.
    Move(u32, u32),
}

// One zone of a core steps. It is idle where no zone has the number.
fn step<D: Disk>(sizes: &Sizes, zones: &mut Zones, number: u32, disk: &mut D) -> Stepped
    requires can { AllCanStep sizes.now zones.old }
    requires fits { Fits sizes.now (D.seen disk.old) }
    ensures stays { Stays (D.seen disk.old) (D.seen disk.new) }
    ensures steps { ComesTo
        ((made : Trace)
        × StepsAt D.trust sizes.now number (vdo zones.old (D.seen disk.old))
        (vdo zones.new (D.seen disk.new)) made)
        (HasNoWork sizes.now zones.old (event.Step number))
        ((zones.new ≡ zones.old) × (D.seen disk.new ≡ D.seen disk.old)) result }
{
    zones.posts.clear();
    match zones.zones.get_mut(number as usize) {
        Some(zone) => step_with(sizes, zone, &mut zones.posts, disk),
        None => Stepped::Idle,
    }
}

/// One event.
pub(crate) fn play_one<D: Disk>(
    sizes: &Sizes,
    zones: &mut Zones,
    event: Event,
    disk: &mut D,
) -> Stepped
    requires can { AllCanStep sizes.now zones.old }
    requires few { length zones.old ≤ MOST_ZONES }
    requires fits { Fits sizes.now (D.seen disk.old) }
    ensures stays { Stays (D.seen disk.old) (D.seen disk.new) }
    ensures plays { (made : Trace)
        × PlaysOne D.trust sizes.now event (vdo zones.old (D.seen disk.old))
        (vdo zones.new (D.seen disk.new)) made }
    ensures leads { LeadsTo D.trust sizes.now zones.old zones.new (D.seen disk.old)
        (D.seen disk.new) }
    ensures work { ComesTo (Unit {0}) (HasNoWork sizes.now zones.old event)
        (zones.new ≡ zones.old) result }
{
    match event {
        Event::Step(number) => step(sizes, zones, number, disk),
        Event::Move(from, to) => move_items(zones, from, to),
    }
}
