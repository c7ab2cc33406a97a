//! Sessions: an image, a device with it, and a core that is led to its end by a schedule or by events.

ghost use Rattle.std.specs.Prelude.{◌≡◌, IfOk};
ghost use Rattle.std.specs.List.{AllByRecursion};
ghost use Rattle.blk_base.specs.Limits.{IsGeometry};
ghost use Rattle.vdo_model.specs.Scripts.{IsServed};
ghost use Rattle.device_zone.specs.DeviceCalls.{Fits};
ghost use Rattle.rebuild.specs.Openings.{Fits as HasItsSizes};

use crate::asks::{Script, requests_of};
use blk_base::{Geometry, Layout, Opened};
use core_model::is_limited;
use disk_model::{Disk, FaultAt, MemDisk};
use rebuild::{open_clean, recover};
use schedule::{Schedule, drive, play};
use std::alloc::{AllocError, Global};
use std::sync::Wait;
use test_images::empty_image;
use vdo_core::{Core, CoreZones, Event, Setup};
use vdo_model::{Requests, RunReport};

/// Why a session wasn't played.
#[derive(Clone, Copy, Debug)]
pub(crate) enum Unplayed {
    Memory,
    TooLarge,
    /// An image that it left has a fault.
    Refused,
}

impl From<AllocError> for Unplayed {
    fn from(_: AllocError) -> Unplayed {
        Unplayed::Memory
    }
}

/// The sizes of an image: the default ones but for these. In a tall one there are pages between the leaves and the roots.
pub(crate) struct Image {
    pub(crate) is_tall: bool,
    pub(crate) logical: u32,
    pub(crate) slabs: u32,
    pub(crate) slab_blocks: u32,
    pub(crate) journal: u32,
}

impl Image {
    pub(crate) const LOW: Image = Image {
        is_tall: false,
        logical: 1000,
        slabs: 1,
        slab_blocks: 64,
        journal: 8,
    };

    /// A slab of 16 data blocks, of which each leaf takes one, and a journal for more entries than a run has.
    pub(crate) const SMALL: Image = Image {
        slab_blocks: 16,
        journal: 128,
        ..Image::LOW
    };

    /// The sizes. One that isn't within its limits is moved there.
    pub(crate) fn geometry(&self) -> Geometry
        ensures { IsGeometry result }
    {
        let height = if self.is_tall { 3 } else { 2 };
        Geometry {
            height,
            logical: self.logical.max(1).min(1000),
            slabs: self.slabs.max(1).min(1024),
            slab_blocks: self.slab_blocks.max(16).min(32768),
            journal: self.journal.max(8).min(1024),
            ..Geometry::DEFAULT
        }
    }
}

/// A device with an empty image, of whose calls this one fails, if any, and each behind so many.
pub(crate) fn device_of(
    alloc: Global,
    image: &Image,
    fault: Option<FaultAt>,
    passes: u64,
) -> Result<MemDisk, AllocError> {
    let mut plan = Vec::new(alloc);
    if let Some(fault) = fault {
        plan.push(fault)?;
    }
    let blocks = empty_image(alloc, &image.geometry())?;
    let mut device = MemDisk::from_blocks(alloc, blocks)?;
    device.set_fuse(passes);
    device.set_faults(plan);
    Ok(device)
}

// A core over what was opened of an image, if it may be as large.
fn begin(
    alloc: Global,
    setup: &Setup,
    opened: &Opened,
    requests: Requests,
) -> Result<Core, Unplayed>
    requires fits { HasItsSizes opened.now }
    requires served { AllByRecursion (AllByRecursion IsServed) requests }
    ensures { IfOk result (λ core. core.sizes.geometry ≡ opened.now.head.geometry) }
{
    let small = 0 < setup.logical_zones
        && setup.logical_zones <= 4
        && 0 < setup.physical_zones
        && setup.physical_zones <= 4
        && 0 < setup.depth
        && setup.depth <= 16
        && 0 < opened.head.start
        && opened.head.start < 1 << 54;
    if !small || !is_limited(&requests) {
        return Err(Unplayed::TooLarge);
    }
    match Core::begin(alloc, setup, opened, requests) {
        Ok(core) => Ok(core),
        Err(_) => Err(Unplayed::Memory),
    }
}

// What a session starts with, of an image that was recovered where its last session wasn't closed.
fn open<D: Disk>(alloc: Global, device: &mut D) -> Result<Opened, Unplayed>
    ensures { IfOk result HasItsSizes }
{
    let Ok(_) = recover(alloc, device) else {
        return Err(Unplayed::Refused);
    };
    match open_clean(alloc, device) {
        Ok(opened) => Ok(opened),
        Err(_) => Err(Unplayed::Refused),
    }
}

/// A core over the image on a device.
pub(crate) fn open_over<D: Disk>(
    alloc: Global,
    setup: &Setup,
    requests: Requests,
    device: &mut D,
) -> Result<Core, Unplayed>
    requires served { AllByRecursion (AllByRecursion IsServed) requests }
    ensures { IfOk result (λ core. Fits core.sizes (D.seen device.new)) }
{
    let opened = open(alloc, device)?;
    if device.blocks() < Layout::of(&opened.head.geometry).needed() {
        return Err(Unplayed::TooLarge);
    }
    begin(alloc, setup, &opened, requests)
}

/// The report of a session by the schedule of a number.
pub(crate) fn driven<R: Wait, D: Disk>(
    rt: &R,
    alloc: Global,
    setup: &Setup,
    asks: &Script,
    number: u64,
    device: &mut D,
) -> Result<RunReport, Unplayed> {
    let mut core = open_over(alloc, setup, requests_of(alloc, asks)?, device)?;
    drive(rt, &mut core, &mut Schedule::from_number(number), device);
    Ok(core.report())
}

// Plays events that are given.
fn play_given<D: Disk>(core: &mut Core, events: &[Event], device: &mut D)
    requires { Fits core.old.sizes (D.seen device.old) }
    ensures { Fits core.new.sizes (D.seen device.new) }
{
    play(core, events, device);
}

// A core from its zones.
fn reborn(core: Core) -> Core
    ensures { result ≡ core }
{
    let CoreZones { sizes, zones, room } = core.into_zones();
    Core::from_zones(CoreZones { sizes, zones, room })
}

// For how many events there is work.
fn works(core: &Core) -> u32 {
    let zones = core.zone_count();
    let mut count = 0_u32;
    for zone in 0..zones {
        if core.ready(Event::Step(zone)) {
            count = count.wrapping_add(1);
        }
        for to in 0..zones {
            if core.ready(Event::Move(zone, to)) {
                count = count.wrapping_add(1);
            }
        }
    }
    count
}

/// The report of a session that events lead, and for how many there is work before the first one. On the way its core is taken
/// apart, and made again.
pub(crate) fn played<D: Disk>(
    alloc: Global,
    setup: &Setup,
    asks: &Script,
    events: &[Event],
    device: &mut D,
) -> Result<(RunReport, u32), Unplayed> {
    let mut core = open_over(alloc, setup, requests_of(alloc, asks)?, device)?;
    let works = works(&core);
    let middle = events.len() / 2;
    play_given(&mut core, &events[..middle], device);
    let mut core = reborn(core);
    play_given(&mut core, &events[middle..], device);
    Ok((core.report(), works))
}
