ghost use Rattle.std.specs.Prelude.{ℕ, ◌≡◌, ◌≤◌, ◌<◌, ◌+◌, ◌*◌, [], List, MatchOption, length, map};
ghost use Rattle.disk_model.specs.Numbers.{next_state, number_in};
ghost use Rattle.disk_model.specs.Seen.{Stays};
ghost use Rattle.core_model.specs.Trace.{Trace};
ghost use Rattle.device_zone.specs.DeviceCalls.{Fits};
ghost use Rattle.vdo_core.specs.Done.{IsDone};
ghost use Rattle.vdo_core.specs.declared.events.Event.{Event};
ghost use Rattle.schedule.specs.Turns.{AreReady, Drives, IsTurn, driving, event_count, event_of};

use crate::events::EventList;
use disk_model::{Disk, next_state, number_in};
use std::marker::Model;
use vdo_core::{Core, Event};

/// An order of the events of a core, made from a number: the state of a row of numbers, each of which chooses one event of
/// those for which there is work.
#[derive(Clone, Copy, Debug, PartialEq, Eq)]
pub struct Schedule {
    state: u64,
}

impl Model for Schedule {
    ghost use Rattle.std.specs.Prelude.{ℕ};

    ghost Value = { ℕ };

    ghost view = { λ s. s.state };

    ghost inverse = { λ n. record { state = n } };
}

impl Schedule {
    /// The order that a number makes.
    pub fn from_number(number: u64) -> Schedule
        ensures { result ≡ number }
    {
        Schedule { state: number }
    }

    // Long to prove: each clause is shown on each way out.
    /// One turn of a core that isn't done: one event of those for which there is work. Where there is none, nothing changes.
    /// The list is room for the numbers of those events, whatever is in it.
    pub(crate) fn turn<D: Disk>(&mut self, core: &mut Core, ready: &mut EventList, device: &mut D)
        requires { Fits core.old.sizes (D.seen device.old) }
        ensures stays { Stays (D.seen device.old) (D.seen device.new) }
        ensures sizes { core.new.sizes ≡ core.old.sizes }
        ensures drives { (IsDone core.old.zones → ⊥)
            → (events : List Event) × (made : Trace)
            × Drives D.trust core.old.sizes events
            (driving self.old core.old.zones (D.seen device.old))
            (driving self.new core.new.zones (D.seen device.new)) made }
    {
        let next = next_state(self.state);
        let Some(event) = choose(core, number_in(next), ready) else {
            return;
        };
        self.state = next;
        core.step(event, device);
    }
}

// The event of a number, from 0, of a core of so many zones.
fn event_of(zones: u32, k: u32) -> Event
    requires { 0 < zones }
    ensures { result ≡ event_of zones k }
{
    if k < zones {
        return Event::Step(k);
    }
    let place = k - zones;
    Event::Move(place / zones, place % zones)
}

// The numbers of the steps for which there is work, in their order, in an empty list.
fn list_steps(core: &Core, ready: &mut EventList)
    requires none { ready.old ≡ [] }
    ensures room { length ready.new ≤ length core.now.zones }
    ensures ready { AreReady core.now.sizes core.now.zones (length core.now.zones)
        (map (event_of (length core.now.zones)) ready.new) }
{
    // Asked for the proof alone: a core has few zones.
    let _zones = core.zone_count();
    let mut workers = core.workers();
    while let Some(zone) = workers.take_first() {
        ready.push(zone as u16);
    }
}

// Those of the moves from one zone, behind the steps and the moves from the zones before it.
fn add_moves(core: &Core, from: u32, ready: &mut EventList)
    requires there { from < length core.now.zones }
    requires room { length ready.old ≤ length core.now.zones + from * length core.now.zones }
    requires ready { AreReady core.now.sizes core.now.zones
        (length core.now.zones + from * length core.now.zones)
        (map (event_of (length core.now.zones)) ready.old) }
    ensures room { length ready.new
        ≤ length core.now.zones + (from + 1) * length core.now.zones }
    ensures ready { AreReady core.now.sizes core.now.zones
        (length core.now.zones + (from + 1) * length core.now.zones)
        (map (event_of (length core.now.zones)) ready.new) }
{
    let zones = core.zone_count();
    let first = zones + from * zones;
    let mut receivers = core.receivers(from);
    while let Some(to) = receivers.take_first() {
        ready.push((first + to) as u16);
    }
}

// The numbers of the events for which there is work, in their order, in an empty list.
// Listed anew each turn, so that no list has to follow what steps and moves change.
fn list_ready(core: &Core, ready: &mut EventList)
    requires none { ready.old ≡ [] }
    ensures { AreReady core.now.sizes core.now.zones (event_count (length core.now.zones))
        (map (event_of (length core.now.zones)) ready.new) }
{
    list_steps(core, ready);
    let mut senders = core.senders();
    while let Some(from) = senders.take_first() {
        add_moves(core, from, ready);
    }
}

// The event that a turn takes by this number, if there is work for any. The list is of no use to the next turn but for
// its room.
// Long to prove: the numbers are shown to fit for each index.
fn choose(core: &Core, number: u32, ready: &mut EventList) -> Option<Event>
    ensures { MatchOption result
        (AreReady core.now.sizes core.now.zones (event_count (length core.now.zones)) []) (λ event.
        (state : ℕ) → number ≡ number_in (next_state state) →
        IsTurn core.now.sizes core.now.zones state event) }
{
    ready.clear();
    list_ready(core, ready);
    let count = ready.as_slice().len() as u64;
    if count == 0 {
        return None;
    }
    let place = u64::from(number) % count;
    let k = ready.as_slice()[place as usize];
    Some(event_of(core.zone_count(), u32::from(k)))
}
