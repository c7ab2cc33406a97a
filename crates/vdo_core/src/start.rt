ghost use Rattle.std.specs.Prelude.{◌≡◌, ◌+◌, ◌<◌, ◌≤◌, ◌^◌, [], ◌∷◌, ◌++◌, IfOk, OnOk, length};
ghost use Rattle.std.specs.List.{AllByRecursion};
ghost use Rattle.blk_base.specs.Limits.{IsGeometry};
ghost use Rattle.block_map_tree.specs.OpenedTree.{IsOpened, all_trees};
ghost use Rattle.data_vio.specs.Zones as numbers;
ghost use Rattle.core_model.specs.PageLinks.{opened_page};
ghost use Rattle.core_model.specs.Sessions.{AreCounters, Session};
ghost use Rattle.vdo_model.specs.Scripts.{IsServed};
ghost use Rattle.core_model.specs.SessionLimits.{most_depth, most_requests, most_streams, requests_in};
ghost use Rattle.core_model.specs.Start.{IsFirst, IsFirstZone, IsFirstData};
ghost use Rattle.plain_laws.specs.Sums.{Each};
ghost use Rattle.step_parts.specs.ZoneSizes.{AreFew};
ghost use Rattle.vdo_core.specs.Plays.{core_with};
ghost use Rattle.vdo_core.specs.Starts.{IsOf};

use crate::numbers::{
    DESK, device_number, journal_number, logical_number, physical_number, zone_count,
};
use crate::zones::Zones;
use blk_base::Opened;
use core_model::{Desk, Ports, Zone, ZoneData};
use data_vio::Sizes;
use std::alloc::{AllocError, Global};
use vdo_model::Requests;

// An item more, behind the others.
fn push<T: Drop>(items: &mut Vec<T>, item: T) -> Result<(), AllocError>
    ensures { OnOk result (items.new.items ≡ items.old.items ++ item ∷ []) }
{
    items.push(item)?;
    Ok(())
}

// A zone with nothing in its lanes, behind the others.
fn add(
    alloc: Global,
    sizes: &Sizes,
    number: u32,
    keeps: ZoneData,
    zones: &mut Vec<Zone>,
) -> Result<(), AllocError>
    requires there { length zones.old.items ≡ number }
    requires few { AreFew sizes.now }
    ensures count { OnOk result (length zones.new.items ≡ length zones.old.items + 1) }
    ensures first { OnOk result ((s : Session) → s.sizes ≡ sizes.now → IsFirstData s number keeps
        → Each (IsFirstZone s) zones.old.items → Each (IsFirstZone s) zones.new.items) }
{
    let ports = Ports::new(alloc, zone_count(sizes))?;
    let zone = Zone {
        number,
        steps: 0,
        keeps,
        ports,
    };
    push(zones, zone)?;
    Ok(())
}

// The logical zones, behind the desk.
fn add_logical(
    alloc: Global,
    sizes: &Sizes,
    opened: &Opened,
    zones: &mut Vec<Zone>,
) -> Result<(), AllocError>
    requires desk { length zones.old.items ≡ 1 }
    requires geometry { IsGeometry opened.now.head.geometry }
    requires same { sizes.now.geometry ≡ opened.now.head.geometry }
    requires few { AreFew sizes.now }
    requires pages { IsOpened (all_trees opened.now.head.geometry) opened.now.pages.items }
    ensures count { OnOk result (length zones.new.items ≡ 1 + sizes.now.zones) }
    ensures first { OnOk result
        ((s : Session) → s.sizes ≡ sizes.now → s.links ≡ opened_page opened.now.pages.items →
        Each (IsFirstZone s) zones.old.items → Each (IsFirstZone s) zones.new.items) }
{
    for zone in 0..sizes.zones {
        let number = logical_number(zone);
        let logical = logical_zone::first(alloc, sizes, opened, zone)?;
        add(alloc, sizes, number, ZoneData::Logical(logical), zones)?;
    }
    Ok(())
}

// The physical zones, behind the logical ones.
fn add_physical(
    alloc: Global,
    sizes: &Sizes,
    opened: &Opened,
    zones: &mut Vec<Zone>,
) -> Result<(), AllocError>
    requires count { length zones.old.items ≡ 1 + sizes.now.zones }
    requires geometry { IsGeometry opened.now.head.geometry }
    requires same { sizes.now.geometry ≡ opened.now.head.geometry }
    requires few { AreFew sizes.now }
    requires depth { sizes.now.depth ≤ most_depth }
    requires counters { AreCounters sizes.now.geometry opened.now.counters.items }
    ensures count { OnOk result (length zones.new.items ≡ numbers.journal_number sizes.now) }
    ensures first { OnOk result
        ((s : Session) → s.sizes ≡ sizes.now → s.counters ≡ opened.now.counters.items →
        Each (IsFirstZone s) zones.old.items → Each (IsFirstZone s) zones.new.items) }
{
    for zone in 0..sizes.physical {
        let number = physical_number(sizes, zone);
        let physical = physical_zone::first(alloc, sizes, opened, zone)?;
        add(alloc, sizes, number, ZoneData::Physical(physical), zones)?;
    }
    Ok(())
}

// The journal and the device, behind the physical zones.
fn add_last(alloc: Global, sizes: &Sizes, zones: &mut Vec<Zone>) -> Result<(), AllocError>
    requires count { length zones.old.items ≡ numbers.journal_number sizes.now }
    requires geometry { IsGeometry sizes.now.geometry }
    requires start { (1 ≤ sizes.now.start) × (sizes.now.start < 2 ^ 54) }
    requires few { AreFew sizes.now }
    requires physical { 0 < sizes.now.physical }
    ensures count { OnOk result (length zones.new.items ≡ numbers.zone_count sizes.now) }
    ensures first { OnOk result
        ((s : Session) → s.sizes ≡ sizes.now →
        Each (IsFirstZone s) zones.old.items → Each (IsFirstZone s) zones.new.items) }
{
    let journal = journal_zone::first(alloc, sizes)?;
    add(
        alloc,
        sizes,
        journal_number(sizes),
        ZoneData::Journal(journal),
        zones,
    )?;
    let device = ZoneData::Device(device_zone::first());
    add(alloc, sizes, device_number(sizes), device, zones)?;
    Ok(())
}

/// The core at the start of a session: it has the requests, no one of which is begun, the pages that the opened image links,
/// and the counters of its data blocks. There are 4 logical and 4 physical zones at most. Each request must be one that is served, and there may be 16
/// streams, 16 requests of each under way, and 65,536 requests in all. It takes all the room that the session will need, and
/// fails where no memory is found for it.
pub fn begin(
    alloc: Global,
    sizes: &Sizes,
    requests: Requests,
    opened: &Opened,
) -> Result<Zones, AllocError>
    requires geometry { IsGeometry sizes.now.geometry }
    requires same { sizes.now.geometry ≡ opened.now.head.geometry }
    requires start { (1 ≤ sizes.now.start) × (sizes.now.start < 2 ^ 54) }
    requires zones { AreFew sizes.now }
    requires physical { 0 < sizes.now.physical }
    requires depth { sizes.now.depth ≤ most_depth }
    requires pages { IsOpened (all_trees opened.now.head.geometry) opened.now.pages.items }
    requires counters { AreCounters sizes.now.geometry opened.now.counters.items }
    requires served { AllByRecursion (AllByRecursion IsServed) requests }
    requires streams { length requests ≤ most_streams }
    requires few { requests_in requests ≤ most_requests }
    ensures { IfOk result (λ zones.
        (s : Session) → IsOf s sizes.now requests opened.now → IsFirst s (core_with zones [])) }
{
    let mut zones = Vec::new(alloc);
    let desk = Desk::new(alloc, requests)?;
    add(alloc, sizes, DESK, ZoneData::Desk(desk), &mut zones)?;
    add_logical(alloc, sizes, opened, &mut zones)?;
    add_physical(alloc, sizes, opened, &mut zones)?;
    add_last(alloc, sizes, &mut zones)?;
    Zones::from_vec(alloc, zones)
}
