//! Each event of a core does what there is to do, and the core knows what is left.

ghost use Rattle.std.specs.Prelude.{ℕ, ◌≡◌, ◌≢◌, ◌+◌, ◌*◌, ◌<◌, ◌∷◌, ◌++◌, [], List, Some, true, false, length, slice_get};
ghost use Rattle.data_vio.specs.declared.items.Item.{Item};
ghost use Rattle.core_model.specs.DeskData.{Desk};
ghost use Rattle.core_model.specs.SessionLimits.{requests_in};
ghost use Rattle.core_model.specs.Steps.{step_limit};
ghost use Rattle.core_model.specs.Trace.{Trace};
ghost use Rattle.core_model.specs.ZoneSets.{is_in};
ghost use Rattle.core_model.specs.declared.zones.Zone.{Zone};
ghost use Rattle.core_model.specs.declared.zones.ZoneData.TheVariants as at;
ghost use Rattle.device_zone.specs.DeviceCalls.{Fits};
ghost use Rattle.disk_model.specs.Numbers.{next_state};
ghost use Rattle.schedule.specs.Turns.{Drives, IsTurn, driving};
ghost use Rattle.vdo_core.specs.Done.{IsDone};
ghost use Rattle.vdo_core.specs.Plays.{HasNoWork, PlaysOne, Vdo, vdo};
ghost use Rattle.vdo_core.specs.declared.events.Event.{Event as Happens};

use core_model::{Slots, ZoneSet};
use data_vio::{REQUEST_ROOM, Remapping};
use disk_model::Disk;
use schedule::{Schedule, a_turn_takes_one_event, drive};
use std::sync::Wait;
use vdo_core::{Core, Event, Stepped};

// An event for which there is work is done, whatever memory there is.
fn what_has_work_is_done<D: Disk>(core: &mut Core, event: Event, device: &mut D) -> bool
    requires fits { Fits core.old.sizes (D.seen device.old) }
    requires work { HasNoWork core.old.sizes core.old.zones event → ⊥ }
    ensures { result ≡ true }
{
    match core.step(event, device) {
        Stepped::Did => true,
        Stepped::Idle => false,
    }
}

// All that one zone posted to another stands behind what that had in its inbox.
fn nothing_is_lost_in_a_move<D: Disk>(core: &mut Core, from: u32, to: u32, device: &mut D)
    requires fits { Fits core.old.sizes (D.seen device.old) }
    requires apart { from ≢ to }
    ensures { (source target : Zone) (first : Item) (rest : List Item) →
        slice_get core.old.zones from ≡ Some source → slice_get core.old.zones to ≡ Some target →
        slice_get source.ports.outboxes to ≡ Some (first ∷ rest)
        → (after : Zone) × (slice_get core.new.zones to ≡ Some after)
        × (after.ports.inbox ≡ target.ports.inbox ++ (first ∷ rest)) }
{
    core.step(Event::Move(from, to), device);
}

// A core knows that there is work for the zone to which something moved.
fn who_gets_something_has_work<D: Disk>(
    core: &mut Core,
    from: u32,
    to: u32,
    device: &mut D,
) -> ZoneSet
    requires fits { Fits core.old.sizes (D.seen device.old) }
    requires apart { from ≢ to }
    ensures { (source target : Zone) (first : Item) (rest : List Item) →
        slice_get core.old.zones from ≡ Some source → slice_get core.old.zones to ≡ Some target →
        slice_get source.ports.outboxes to ≡ Some (first ∷ rest) → target.steps < step_limit →
        is_in result to ≡ true }
{
    core.step(Event::Move(from, to), device);
    core.workers()
}

// A core knows that nothing is left to move where all has moved.
fn what_has_moved_moves_no_more<D: Disk>(
    core: &mut Core,
    from: u32,
    to: u32,
    device: &mut D,
) -> ZoneSet
    requires fits { Fits core.old.sizes (D.seen device.old) }
    requires apart { from ≢ to }
    requires there { from < length core.old.zones }
    ensures { is_in result to ≡ false }
{
    core.step(Event::Move(from, to), device);
    core.receivers(from)
}

// A core isn't done while a request is left to answer.
fn not_done_while_a_line_is_missing(core: &Core) -> bool
    ensures { (zone : Zone) (desk : Desk) → slice_get core.now.zones 0 ≡ Some zone →
        zone.keeps ≡ at.Desk desk → length desk.log < 2 * requests_in desk.requests →
        result ≡ false }
{
    core.done()
}

// The write of an address is found again behind one of another address.
fn a_write_is_found_behind_another(
    slots: &mut Slots,
    write: Remapping,
    other: Remapping,
) -> Option<Remapping>
    requires room { length slots.old + 1 < REQUEST_ROOM }
    requires apart { write.at.0 ≢ other.at.0 }
    ensures { result ≡ Some write }
{
    slots.push(write);
    slots.push(other);
    slots.latest(write.at)
}

// The number of a schedule chooses the first event, of all for which there is work, and the next number chooses the next.
fn each_number_chooses_one_event<R: Wait, D: Disk>(
    rt: &R,
    core: &mut Core,
    schedule: &mut Schedule,
    device: &mut D,
)
    requires fits { Fits core.old.sizes (D.seen device.old) }
    ensures { (e : Happens) → (IsDone core.old.zones → ⊥) →
        IsTurn core.old.sizes core.old.zones schedule.old e
        → (between : Vdo) × (first later : Trace) × (events : List Happens)
        × PlaysOne D.trust core.old.sizes e (vdo core.old.zones (D.seen device.old)) between first
        × Drives D.trust core.old.sizes events
        (driving (next_state schedule.old) between.zones between.seen)
        (driving schedule.new core.new.zones (D.seen device.new)) later }
{
    a_turn_takes_one_event();
    drive(rt, core, schedule, device);
}
