ghost use Rattle.std.specs.Prelude.{◌≡◌, ◌≤◌, ◌<◌, ◌^◌, IfOk, IfErr, length, map};
ghost use Rattle.blk_base.specs.Regions.{needed_blocks};
ghost use Rattle.crash_images.specs.Addresses.{AreAddresses};
ghost use Rattle.crash_images.specs.Maps.{Fits, OfMap};
ghost use Rattle.crash_images.specs.Shows.{AreValues, IsNoPage, IsPickShown, IsShown, PickFails, ShowsNothing, ValueFails, ValuesFail, image_fault_of, pick_fault_of};
ghost use Rattle.crash_images.specs.Values.{address_of, value_in};

use crate::{ImageMap, ValueFault, addresses_of, read_map, values_of};
use audit::{Report, audit};
use command_text::AddressValue;
use disk_model::{Disk, MemDisk};
use image_model::ImageFault;
use rebuild::{Recovered, recover};
use std::alloc::Global;
use vdo_model::Requests;

/// What an image shows after a stop.
#[derive(Drop)]
pub struct Shown {
    pub recovery: Recovered,
    pub audit: Report,
    /// The values of the addresses that a script names below the logical size, rising.
    pub values: Vec<AddressValue>,
}

// The fault of an image for that of a value.
fn image_fault_of(why: ValueFault) -> ImageFault
    ensures { result ≡ image_fault_of why }
{
    match why {
        ValueFault::Device => ImageFault::Device,
        ValueFault::Page { at, fault } => ImageFault::Page { at, fault },
        ValueFault::Memory => ImageFault::Memory,
    }
}

// The values of the addresses that a script names, by a map that was read.
fn values_in<D: Disk>(
    alloc: Global,
    device: &mut D,
    found: &ImageMap,
    requests: &Requests,
) -> Result<Vec<AddressValue>, ImageFault>
    requires few { length requests.now ≤ 256 }
    requires fits { Fits found.now }
    requires room { needed_blocks found.now.head.geometry ≤ (D.seen device.old).size }
    ensures named { IfOk result (λ values.
        AreAddresses requests.now found.now.head.geometry.logical
        (map address_of values.items)) }
    ensures right { IfOk result (λ values.
        OfMap D.trust (D.seen device.old) found.now
        (λ image. values.items ≡ map (value_in image) (map address_of values.items))) }
    ensures fault { IfErr result
        (ValueFails found.now (D.seen device.old) (D.seen device.new)) }
    ensures undamaged { IfErr result (λ why.
        OfMap D.trust (D.seen device.old) found.now (λ image. IsNoPage why)) }
{
    let Ok(addresses) = addresses_of(alloc, requests, found.head.geometry.logical) else {
        return Err(ImageFault::Memory);
    };
    match values_of(alloc, device, found, &addresses) {
        Ok(values) => Ok(values),
        Err(why) => Err(image_fault_of(why)),
    }
}

// Reads the map of an image, and by it the values of the addresses that a script names.
fn read_values<D: Disk>(
    alloc: Global,
    device: &mut D,
    requests: &Requests,
) -> Result<Vec<AddressValue>, ImageFault>
    requires { length requests.now ≤ 256 }
    ensures values { IfOk result (λ values.
        AreValues D.trust requests.now (D.seen device.old) values.items) }
    ensures fault { IfErr result
        (ValuesFail D.trust (D.seen device.old) (D.seen device.new)) }
{
    let found = read_map(alloc, device)?;
    values_in(alloc, device, &found, requests)
}

// Long to prove: each clause is shown on each way out.
/// Recovers the image on a device where its last session wasn't closed, audits it, and reads the values of the addresses that a
/// script names, by its map, also where blocks differ. The script has at most 256 streams.
///
/// It fails with the first fault that one of these finds.
pub fn show<D: Disk>(
    alloc: Global,
    device: &mut D,
    requests: &Requests,
) -> Result<Shown, ImageFault>
    requires { length requests.now ≤ 256 }
    ensures shows { IfOk result
        (IsShown D.trust requests.now (D.seen device.old)) }
    ensures few { IfOk result (λ shown. length shown.audit.differs.items < 2 ^ 32) }
    ensures nothing { IfErr result
        (ShowsNothing D.trust (D.seen device.old) (D.seen device.new)) }
{
    let recovery = recover(alloc, device)?;
    let audit = audit(alloc, device)?;
    let values = read_values(alloc, device, requests)?;
    Ok(Shown {
        recovery,
        audit,
        values,
    })
}

// The fault of an image on a device in memory without a fuse: a call fails there for want of memory alone.
fn pick_fault_of(why: ImageFault) -> ImageFault
    ensures { result ≡ pick_fault_of why }
{
    match why {
        ImageFault::Device => ImageFault::Memory,
        other => other,
    }
}

// Long to prove: each clause is shown on each way out.
/// What the image shows that a number picks of those that a stop may leave of a device in memory, as [`show`] says it. The
/// device stays as it is.
///
/// It fails with the fault of the image, or with `Memory` for want of memory; `Device` never comes.
pub fn show_pick(
    alloc: Global,
    disk: &MemDisk,
    number: u64,
    requests: &Requests,
) -> Result<Shown, ImageFault>
    requires { length requests.now ≤ 256 }
    ensures shows { IfOk result (IsPickShown disk.now number requests.now) }
    ensures few { IfOk result (λ shown. length shown.audit.differs.items < 2 ^ 32) }
    ensures fault { IfErr result (PickFails disk.now number) }
{
    let Ok(picked) = disk.pick_ram(alloc, number) else {
        return Err(ImageFault::Memory);
    };
    let mut picked = picked;
    match show(alloc, &mut picked, requests) {
        Ok(shown) => Ok(shown),
        Err(why) => Err(pick_fault_of(why)),
    }
}
