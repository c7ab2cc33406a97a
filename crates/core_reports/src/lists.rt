ghost use Rattle.std.specs.Prelude.{◌≡◌, ◌+◌, ◌<◌, ◌≤◌, ◌^◌, ◌++◌, Option, List, [], length, reverse};
ghost use Rattle.blk_base.specs.declared.geometry.Geometry.{Geometry};
ghost use Rattle.blk_base.specs.Regions.{data_blocks};
ghost use Rattle.core_model.specs.DeskData.{Desk as DeskData};
ghost use Rattle.core_model.specs.SessionLimits.{most_requests};
ghost use Rattle.data_vio.specs.declared.logged.Logged.{Logged as Entered};
ghost use Rattle.core_reports.specs.Listed.{HasDamage, HasDesk, HasEntered, HasGeometry, places_at, places_of_all, used_by, used_by_all};
ghost use Rattle.vdo_model.specs.declared.report.Damage.{Damage as Found};

use core_model::{DeskReport, Zone, ZoneData};
use data_vio::{Logged, REQUEST_ROOM, Register};
use vdo_model::{Damage, Placed, ReportList, Requests};

// Adds the places that a zone drew, the oldest first, while there is room for them.
fn add_places(drawn: &[Placed], places: &mut Register<Placed, REQUEST_ROOM>)
    ensures { length places.old + length drawn.now ≤ most_requests →
        places.new ≡ reverse drawn.now ++ places.old }
{
    for placed in drawn {
        if places.len() < REQUEST_ROOM {
            places.push(*placed);
        }
    }
}

// The places that a zone drew, the oldest first.
fn drawn(zone: &Zone) -> &[Placed]
    ensures { places_at zone.now.keeps ≡ reverse result.now }
{
    match &zone.keeps {
        ZoneData::Logical(logical) => logical.places(),
        _ => &[],
    }
}

/// Lists the places of all zones, in their order.
pub(crate) fn list_places(zones: &[Zone], places: &mut Register<Placed, REQUEST_ROOM>)
    ensures { places.old ≡ [] → length (places_of_all zones.now) ≤ most_requests →
        places.new ≡ places_of_all zones.now }
{
    for zone in zones {
        add_places(drawn(zone), places);
    }
}

/// The entries that the journal handed in, the oldest first.
pub(crate) fn entries(zones: &[Zone]) -> &[Logged]
    ensures { (entries : List Entered) → HasEntered entries zones.now →
        reverse result.now ≡ entries }
{
    for zone in zones {
        if let ZoneData::Journal(journal) = &zone.keeps {
            return journal.entered();
        }
    }
    &[]
}

/// The first damage that the device's zone found.
pub(crate) fn damage(zones: &[Zone]) -> Option<Damage>
    ensures { (damage : Option Found) → HasDamage damage zones.now → result ≡ damage }
{
    for zone in zones {
        if let ZoneData::Device(device) = &zone.keeps {
            return device.damage;
        }
    }
    None
}

// How many data blocks of a zone have a counter above 0: of one that isn't physical, none.
fn used_blocks(zone: &Zone) -> u32
    ensures { result ≡ used_by zone.now.keeps }
{
    match &zone.keeps {
        ZoneData::Physical(physical) => physical.counts.used(),
        _ => 0,
    }
}

/// How many data blocks are used: each counter stands in one physical zone.
pub(crate) fn used_space(zones: &[Zone]) -> u32
    ensures { used_by_all zones.now < 2 ^ 32 → result ≡ used_by_all zones.now }
{
    let mut used = 0_u32;
    for zone in zones {
        used = used.saturating_add(used_blocks(zone));
    }
    used
}

/// How many data blocks there are.
pub(crate) fn total_space(zones: &[Zone]) -> u32
    ensures { (geometry : Geometry) → HasGeometry geometry zones.now →
        result ≡ data_blocks geometry }
{
    for zone in zones {
        if let ZoneData::Physical(physical) = &zone.keeps {
            return physical.counts.total();
        }
    }
    0
}

// Long to prove: whichever zone is taken out, the others are let go.
/// What a report has of the desk.
pub(crate) fn desk_report(mut zones: Vec<Zone>) -> DeskReport
    ensures { (desk : DeskData) → HasDesk desk zones.items →
        result
        ≡ record {
          requests = desk.requests;
          log = desk.log;
          marks = desk.marks;
          receipts = desk.receipts;
        } }
{
    let alloc = *zones.allocator();
    if !zones.is_empty() {
        let Zone { keeps, .. } = zones.swap_remove(0);
        if let ZoneData::Desk(desk) = keeps {
            return desk.into_list();
        }
    }
    DeskReport {
        requests: Requests::new(alloc),
        log: ReportList::new(alloc),
        marks: ReportList::new(alloc),
        receipts: ReportList::new(alloc),
    }
}
