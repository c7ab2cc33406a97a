ghost use Rattle.std.specs.Prelude.{◌≡◌, ◌<◌, ◌≤◌, List, IsTrue, Some, false, length, slice_get};
ghost use Rattle.core_model.specs.declared.zones.Zone.{Zone};
ghost use Rattle.vdo_core.specs.Conditions.{AllCanStep, CanBeginAt};
ghost use Rattle.vdo_core.specs.Notes.{IsKnown, KnowsPosts, KnowsWork, OtherPostsStay, OthersStay, TellsPosts, TellsWork, sender_of, worker_of};
ghost use Rattle.vdo_core.specs.Plays.{HasNoWork};
ghost use Rattle.vdo_core.specs.declared.events.Event.TheVariants as event;
ghost use Rattle.vdo_core.specs.declared.numbers.TheConstants.{MOST_ZONES};

use crate::events::Event;
use crate::numbers::MOST_ZONES;
use crate::work::has_work;
use crate::zones::Zones;
use core_model::{Zone, ZoneSet};
use data_vio::Sizes;

/// What is known of the work of a core's zones, so that a turn needn't look through all of them.
#[derive(Drop)]
pub(crate) struct WorkNotes {
    /// The zones for a step of which there is work.
    pub(crate) works: ZoneSet,
    /// The zones that posted something that hasn't moved yet.
    pub(crate) senders: ZoneSet,
    /// Of each zone by its number, the zones to which it posted something that hasn't moved yet.
    pub(crate) posted: [ZoneSet; MOST_ZONES],
}

// Those of so many zones to which the zone of this number posted something that hasn't moved yet.
fn receivers_of(zone: &Zone, number: u32, count: u32) -> ZoneSet
    requires few { count ≤ MOST_ZONES }
    requires there { number < count }
    ensures { TellsPosts count number result zone.now }
{
    let mut receivers = zone.ports.posts().below(count);
    receivers.put(number, false);
    receivers
}

// The zone that steps, or from which something moves.
fn sender_of(event: Event) -> u32
    ensures { result ≡ sender_of event }
{
    match event {
        Event::Step(number) => number,
        Event::Move(from, _) => from,
    }
}

// The zone that steps, or to which something moves.
fn worker_of(event: Event) -> u32
    ensures { result ≡ worker_of event }
{
    match event {
        Event::Step(number) => number,
        Event::Move(_, to) => to,
    }
}

impl WorkNotes {
    // It is noted what a zone of so many posted.
    fn note_posts(&mut self, zone: &Zone, number: u32, count: u32)
        requires few { count ≤ MOST_ZONES }
        requires there { number < count }
        ensures posts { (before now : List Zone) → slice_get now number ≡ Some zone.now →
            OtherPostsStay count number before now →
            KnowsPosts count self.old.posted self.old.senders before →
            KnowsPosts count self.new.posted self.new.senders now }
        ensures works { self.new.works ≡ self.old.works }
    {
        let receivers = receivers_of(zone, number, count);
        self.posted[number as usize] = receivers;
        self.senders.put(number, !receivers.is_empty());
    }

    // It is noted whether there is work for a zone of so many.
    fn note_work(&mut self, sizes: &Sizes, zone: &Zone, number: u32, count: u32)
        requires can { CanBeginAt sizes.now zone.now.keeps }
        requires few { count ≤ MOST_ZONES }
        requires there { number < count }
        ensures work { (before now : List Zone) → slice_get now number ≡ Some zone.now →
            OthersStay (TellsWork sizes.now) number before now →
            KnowsWork count sizes.now self.old.works before →
            KnowsWork count sizes.now self.new.works now }
        ensures posted { self.new.posted ≡ self.old.posted }
        ensures senders { self.new.senders ≡ self.old.senders }
    {
        self.works.put(number, has_work(sizes, zone));
    }

    /// What is known of these zones, each of which is looked at.
    pub(crate) fn of(sizes: &Sizes, zones: &Zones) -> WorkNotes
        requires can { AllCanStep sizes.now zones.now }
        requires few { length zones.now ≤ MOST_ZONES }
        ensures { IsKnown sizes.now result zones.now }
    {
        let mut notes = WorkNotes {
            works: ZoneSet::empty(),
            senders: ZoneSet::empty(),
            posted: [ZoneSet::empty(); MOST_ZONES],
        };
        let count = zones.zones.len() as u32;
        for number in 0..count {
            let zone = &zones.zones[number as usize];
            notes.note_posts(zone, number, count);
            notes.note_work(sizes, zone, number, count);
        }
        notes
    }

    // What the zones posted is known after that of this number was looked at, where no other changed that.
    fn follow_posts(&mut self, zones: &Zones, number: u32)
        requires few { length zones.now ≤ MOST_ZONES }
        ensures posts { (before : List Zone) →
            OtherPostsStay (length zones.now) number before zones.now →
            KnowsPosts (length zones.now) self.old.posted self.old.senders before →
            KnowsPosts (length zones.now) self.new.posted self.new.senders zones.now }
        ensures works { self.new.works ≡ self.old.works }
    {
        match zones.zones.get(number as usize) {
            Some(zone) => self.note_posts(zone, number, zones.zones.len() as u32),
            None => {}
        }
    }

    // What work there is is known after the zone of this number was looked at, where no other has more or less.
    fn follow_work(&mut self, sizes: &Sizes, zones: &Zones, number: u32)
        requires can { AllCanStep sizes.now zones.now }
        requires few { length zones.now ≤ MOST_ZONES }
        ensures work { (before : List Zone) →
            OthersStay (TellsWork sizes.now) number before zones.now →
            KnowsWork (length zones.now) sizes.now self.old.works before →
            KnowsWork (length zones.now) sizes.now self.new.works zones.now }
        ensures posted { self.new.posted ≡ self.old.posted }
        ensures senders { self.new.senders ≡ self.old.senders }
    {
        match zones.zones.get(number as usize) {
            Some(zone) => self.note_work(sizes, zone, number, zones.zones.len() as u32),
            None => {}
        }
    }

    // Inlined, since a call would be a fifth of what it does.
    /// What is known after an event: only the zone that stepped, or from which and to which something moved, is looked at.
    #[inline(always)]
    pub(crate) fn follow(&mut self, sizes: &Sizes, zones: &Zones, event: Event)
        requires can { AllCanStep sizes.now zones.now }
        requires few { length zones.now ≤ MOST_ZONES }
        ensures { (before : List Zone) → length before ≡ length zones.now →
            OtherPostsStay (length zones.now) (sender_of event) before zones.now →
            OthersStay (TellsWork sizes.now) (worker_of event) before zones.now →
            IsKnown sizes.now self.old before → IsKnown sizes.now self.new zones.now }
    {
        self.follow_posts(zones, sender_of(event));
        self.follow_work(sizes, zones, worker_of(event));
    }

    /// Whether the zone of this number is there, and there is work for a step of it.
    pub(crate) fn has_work(&self, sizes: &Sizes, zones: &Zones, number: u32) -> bool
        requires known { IsKnown sizes.now self.now zones.now }
        requires few { length zones.now ≤ MOST_ZONES }
        ensures yes { IsTrue result → HasNoWork sizes.now zones.now (event.Step number) → ⊥ }
        ensures no { (result ≡ false) → HasNoWork sizes.now zones.now (event.Step number) }
    {
        number < zones.zones.len() as u32 && self.works.has(number)
    }
}
