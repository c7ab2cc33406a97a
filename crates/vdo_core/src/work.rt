ghost use Rattle.std.specs.Prelude.{◌≡◌, ◌*◌, ◌≤◌, length, IsTrue, false};
ghost use Rattle.core_model.specs.SessionLimits.{requests_in};
ghost use Rattle.core_model.specs.Steps.{IsIdle, MayBegin};
ghost use Rattle.vdo_core.specs.Conditions.{CanBeginAt};
ghost use Rattle.vdo_core.specs.Done.{IsDone};
ghost use Rattle.vdo_core.specs.Notes.{IsKnown};
ghost use Rattle.vdo_core.specs.Plays.{HasNoWork};
ghost use Rattle.vdo_core.specs.declared.numbers.TheConstants.{MOST_ZONES};

use crate::events::Event;
use crate::moves::can_move;
use crate::notes::WorkNotes;
use crate::steps::has_steps_left;
use crate::zones::Zones;
use core_model::{Desk, Zone, ZoneData};
use data_vio::Sizes;
use desk_zone::may_begin;

// Whether the zone is a desk that may begin a request.
fn begins(sizes: &Sizes, keeps: &ZoneData) -> bool
    requires { CanBeginAt sizes.now keeps.now }
    ensures yes { IsTrue result → MayBegin sizes.now keeps.now }
    ensures no { (result ≡ false) → MayBegin sizes.now keeps.now → ⊥ }
{
    match keeps {
        ZoneData::Desk(desk) => may_begin(sizes, desk),
        _ => false,
    }
}

/// Whether there is work for a step of a zone.
pub(crate) fn has_work(sizes: &Sizes, zone: &Zone) -> bool
    requires { CanBeginAt sizes.now zone.now.keeps }
    ensures yes { IsTrue result → IsIdle sizes.now zone.now → ⊥ }
    ensures no { (result ≡ false) → IsIdle sizes.now zone.now }
{
    has_steps_left(zone) && (zone.ports.has_item() || begins(sizes, &zone.keeps))
}

// Whether a desk began each request, and answered it.
fn is_full(desk: &Desk) -> bool
    ensures yes { IsTrue result → length desk.now.log ≡ 2 * requests_in desk.now.requests }
    ensures no { (result ≡ false) → length desk.now.log ≡ 2 * requests_in desk.now.requests → ⊥ }
{
    desk.lines().len() as u128 == 2 * desk.count() as u128
}

/// Whether each request is answered, without looking through the desk's log.
pub(crate) fn is_done(zones: &Zones) -> bool
    ensures yes { IsTrue result → IsDone zones.now }
    ensures no { (result ≡ false) → IsDone zones.now → ⊥ }
{
    let Some(zone) = zones.zones.first() else {
        return false;
    };
    match &zone.keeps {
        ZoneData::Desk(desk) => is_full(desk),
        _ => false,
    }
}

/// Whether there is work for an event: exactly where a step of the zone, or a move between the two, isn't idle.
pub(crate) fn ready(sizes: &Sizes, zones: &Zones, notes: &WorkNotes, event: Event) -> bool
    requires known { IsKnown sizes.now notes.now zones.now }
    requires few { length zones.now ≤ MOST_ZONES }
    ensures yes { IsTrue result → HasNoWork sizes.now zones.now event → ⊥ }
    ensures no { (result ≡ false) → HasNoWork sizes.now zones.now event }
{
    match event {
        Event::Step(number) => notes.has_work(sizes, zones, number),
        Event::Move(from, to) => can_move(zones, from, to),
    }
}
