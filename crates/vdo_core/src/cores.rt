ghost use Rattle.std.specs.Prelude.{◌≡◌, ◌<◌, ◌≤◌, [], IfOk, IsTrue, false, length};
ghost use Rattle.disk_model.specs.Seen.{Stays};
ghost use Rattle.core_model.specs.Legal.{Legal};
ghost use Rattle.core_model.specs.Reports.{report_of};
ghost use Rattle.core_model.specs.Sessions.{IsSession, Session};
ghost use Rattle.core_model.specs.Start.{IsFirst};
ghost use Rattle.core_model.specs.Trace.{Trace};
ghost use Rattle.vdo_core.specs.declared.events.Event.TheVariants as event;
ghost use Rattle.vdo_core.specs.declared.stepped.Stepped.TheVariants.{Did, Idle};
ghost use Rattle.device_zone.specs.DeviceCalls.{Fits};
ghost use Rattle.vdo_core.specs.Cores.{CanBegin, IsWhole, sizes_of};
ghost use Rattle.vdo_core.specs.Done.{IsDone};
ghost use Rattle.vdo_core.specs.Notes.{IsSetOfSenders, IsSetOfWork};
ghost use Rattle.vdo_core.specs.Plays.{HasNoWork, PlaysOne, core_with, vdo};
ghost use Rattle.vdo_core.specs.Starts.{IsOf};
ghost use Rattle.vdo_core.specs.declared.numbers.TheConstants.{MOST_ZONES};

use crate::events::{Event, play_one};
use crate::notes::WorkNotes;
use crate::start::begin;
use crate::stepped::Stepped;
use crate::work::{is_done, ready};
use crate::zones::Zones;
use blk_base::Opened;
use core_model::ZoneSet;
use core_reports::{ReportRoom, report};
use data_vio::Sizes;
use disk_model::Disk;
use std::alloc::{AllocError, Global};
use std::marker::Model;
use vdo_model::{Requests, RunReport};

/// How a core is set up.
#[derive(Clone, Copy, Debug, PartialEq, Eq)]
pub struct Setup {
    /// How many logical zones there are, 1 to 4.
    pub logical_zones: u8,
    /// How many physical zones there are, 1 to 4.
    pub physical_zones: u8,
    /// How many requests of a stream are under way at most, 1 to 16.
    pub depth: u32,
}

/// A core in a session: some events lead to it from a start. So each of its zones can step.
#[derive(Drop)]
pub struct Core {
    sizes: Sizes,
    zones: Zones,
    room: ReportRoom,
    notes: WorkNotes,
}

/// The zones of a core, with what it needs beside them to be a core again.
#[derive(Drop)]
pub struct CoreZones {
    /// What the zones know of the session.
    pub sizes: Sizes,
    /// The zones, by their numbers.
    pub zones: Zones,
    /// Room for the report of the session.
    pub room: ReportRoom,
}

impl Model for Core {
    ghost use Rattle.vdo_core.specs.Cores.{CoreState, IsWhole};
    ghost use Rattle.vdo_core.specs.Notes.{IsKnown};

    ghost Value = { CoreState };

    ghost view = { λ c. record { sizes = c.sizes; zones = c.zones } };

    ghost invariant = { λ c. record {
      whole : IsWhole c.sizes c.zones c.room;
      known : IsKnown c.sizes c.notes c.zones;
    } };
}

impl Core {
    // Long to prove: each way out while what was taken is alive has searches of its own.
    /// The core at the start of a session over an image that was opened. It has the requests, no one of which is begun, and
    /// takes all the room that the session will need. It fails where no memory is found for it.
    pub fn begin(
        alloc: Global,
        setup: &Setup,
        opened: &Opened,
        requests: Requests,
    ) -> Result<Core, AllocError>
        requires { CanBegin (sizes_of setup.now opened.now.head) requests opened.now }
        ensures sizes { IfOk result (λ core. core.sizes ≡ sizes_of setup.now opened.now.head) }
        ensures first { IfOk result (λ core.
            (s : Session) → IsOf s core.sizes requests opened.now →
            IsFirst s (core_with core.zones [])) }
    {
        let sizes = Sizes {
            geometry: opened.head.geometry,
            start: opened.head.start,
            zones: setup.logical_zones,
            physical: setup.physical_zones,
            depth: setup.depth,
        };
        let room = ReportRoom::with_room_for(alloc, &requests)?;
        let zones = begin(alloc, &sizes, requests, opened)?;
        let notes = WorkNotes::of(&sizes, &zones);
        Ok(Core {
            sizes,
            zones,
            room,
            notes,
        })
    }

    /// One event: a zone steps, or what it posted to another moves there. It is idle exactly where there is no work for it,
    /// and then nothing changes. It asks for no memory.
    pub fn step<D: Disk>(&mut self, event: Event, device: &mut D) -> Stepped
        requires { Fits self.old.sizes (D.seen device.old) }
        ensures stays { Stays (D.seen device.old) (D.seen device.new) }
        ensures sizes { self.new.sizes ≡ self.old.sizes }
        ensures plays { (made : Trace)
            × PlaysOne D.trust self.old.sizes event
            (vdo self.old.zones (D.seen device.old)) (vdo self.new.zones (D.seen device.new)) made }
        ensures did { result ≡ Did → HasNoWork self.old.sizes self.old.zones event → ⊥ }
        ensures idle { result ≡ Idle → HasNoWork self.old.sizes self.old.zones event }
        ensures same { result ≡ Idle → self.new ≡ self.old }
    {
        let stepped = play_one(&self.sizes, &mut self.zones, event, device);
        self.notes.follow(&self.sizes, &self.zones, event);
        stepped
    }

    /// Whether there is work for an event: exactly where `step` isn't idle.
    pub fn ready(&self, event: Event) -> bool
        ensures yes { IsTrue result → HasNoWork self.now.sizes self.now.zones event → ⊥ }
        ensures no { (result ≡ false) → HasNoWork self.now.sizes self.now.zones event }
    {
        ready(&self.sizes, &self.zones, &self.notes, event)
    }

    /// The zones for a step of which there is work.
    pub fn workers(&self) -> ZoneSet
        ensures { IsSetOfWork self.now.sizes self.now.zones (λ number. event.Step number) result }
    {
        self.notes.works
    }

    /// The zones that posted something that hasn't moved yet: from no other there is work for a move.
    pub fn senders(&self) -> ZoneSet
        ensures { IsSetOfSenders self.now.zones result }
    {
        self.notes.senders
    }

    /// The zones for a move to which, from this one, there is work.
    pub fn receivers(&self, from: u32) -> ZoneSet
        requires { from < length self.now.zones }
        ensures { IsSetOfWork self.now.sizes self.now.zones (λ to. event.Move from to) result }
    {
        self.notes.posted[from as usize]
    }

    /// Whether each request is answered.
    pub fn done(&self) -> bool
        ensures yes { IsTrue result → IsDone self.now.zones }
        ensures no { (result ≡ false) → IsDone self.now.zones → ⊥ }
    {
        is_done(&self.zones)
    }

    /// How many zones there are, at least 5.
    pub fn zone_count(&self) -> u32
        ensures count { result ≡ length self.now.zones }
        ensures few { result ≤ MOST_ZONES }
    {
        self.zones.as_slice().len() as u32
    }

    /// What its zones know of the session.
    pub fn sizes(&self) -> Sizes
        ensures { result ≡ self.now.sizes }
    {
        self.sizes
    }

    /// The report of the session, where each request is answered. It asks for no memory, and its time is linear in the
    /// requests. The places of the logical zones stand one zone's behind the other's, in the order of their numbers.
    pub fn report(self) -> RunReport
        ensures { (s : Session) (t : Trace) → IsSession s → Legal s (core_with self.zones t) →
            IsDone self.zones → result ≡ report_of s t }
    {
        report(self.zones.into_vec(), self.room)
    }

    /// Its zones.
    pub fn into_zones(self) -> CoreZones
        ensures sizes { result.sizes ≡ self.sizes }
        ensures zones { result.zones ≡ self.zones }
        ensures whole { IsWhole result.sizes result.zones result.room }
    {
        CoreZones {
            sizes: self.sizes,
            zones: self.zones,
            room: self.room,
        }
    }

    /// The core of these zones, to which some events of a session lead.
    pub fn from_zones(core: CoreZones) -> Core
        requires { IsWhole core.sizes core.zones core.room }
        ensures { result ≡ record { sizes = core.sizes; zones = core.zones } }
    {
        let notes = WorkNotes::of(&core.sizes, &core.zones);
        Core {
            sizes: core.sizes,
            zones: core.zones,
            room: core.room,
            notes,
        }
    }
}
